//! Values whose past can be read off them.
ghost use Rattle.std.specs.Prelude.{◌≡◌, ℕ, List, length};

/// A value that keeps a list of entries, each of them made by somebody with a number.
///
/// The list and the numbers are what contracts speak of. No code of the lock reads an entry.
pub trait History {
    type Entry;

    ghost entries: { Self → List Self.Entry };

    ghost maker: { Self.Entry → ℕ };

    /// The number of entries. The lock asks for it once when it is made, and at each release.
    fn len(&self) -> u64
        ensures { result ≡ length (entries self.now) };
}
