//! What a slot holds.

ghost use Rattle.std.specs.Prelude.{◌≡◌};
ghost use Rattle.cache_ident.specs.declared.idents.Kind.{Kind};
ghost use Rattle.cache_ident.specs.declared.names.Name.{Name};

use cache_ident::{Ident, Kind, Name};

/// A record of one kind that has a name. Equal names mean one descriptor.
pub trait Descriptor {
    ghost KIND: { Kind };

    ghost called: { Self → Name };

    /// The kind of all such records.
    const KIND: Kind;

    /// The name under which it was declared.
    fn name(&self) -> Name
        ensures { result ≡ called self.now };
}

/// A descriptor that is loaded.
#[derive(Drop)]
pub struct Loaded<T> {
    pub ident: Ident,
    pub value: T,
    /// A locked one is no victim.
    pub locked: bool,
}
