//! The identifier that a descriptor has while it is loaded.

ghost use Rattle.std.specs.Prelude.{◌≡◌, Some};
ghost use Rattle.cache_ident.specs.Idents.{letter_of, ident_text, cause_text};

use std::fmt;

/// The four kinds of descriptor, each with a cache of its own.
#[derive(Clone, Copy, PartialEq, Eq, PartialOrd, Ord, Hash, Debug, Default)]
pub enum Kind {
    #[default]
    Kernel,
    Space,
    Thread,
    Mapping,
}

impl Kind {
    /// The letter that an identifier of this kind begins with: `K`, `S`, `T` or `M`.
    pub fn letter(self) -> char
        ensures { result ≡ letter_of self }
    {
        match self {
            Kind::Kernel => 'K',
            Kind::Space => 'S',
            Kind::Thread => 'T',
            Kind::Mapping => 'M',
        }
    }
}

/// What a load answers, and what calls on the loaded descriptor name it by.
///
/// A slot is used again after a displacement, but a serial never is, so an old identifier can be told
/// from the one that holds its slot now.
#[derive(Clone, Copy, PartialEq, Eq, PartialOrd, Ord, Hash, Debug, Default)]
pub struct Ident {
    pub kind: Kind,
    /// The place in the cache of its kind, counted from 0.
    pub slot: u32,
    /// The number of identifiers of all kinds that were issued before it.
    pub serial: u64,
}

/// The kind's letter, the slot, a dot and the serial, as `M0.2`.
impl fmt::Display for Ident {
    ghost output = { λ ident. Some (ident_text ident) };

    fn fmt<W: fmt::Write>(&self, f: &mut fmt::Formatter<W>) -> fmt::Result {
        write!(f, "{}{}.{}", self.kind.letter(), self.slot, self.serial)
    }
}

/// Where an identifier stands.
#[derive(Clone, Copy, PartialEq, Eq, Debug)]
pub enum Standing {
    /// It was issued and has not left.
    Live,
    /// It left, at this place of the journal.
    Left(u64),
    /// It was not issued.
    Never,
}

/// Why a descriptor left its cache.
#[derive(Clone, Copy, PartialEq, Eq, Hash, Debug)]
pub enum Cause {
    /// Its slot was wanted for another one.
    Displaced,
    /// Something that it depends on left.
    Dependent,
    /// A call asked for it.
    Unloaded,
}

/// The cause in lower case, as `displaced`.
impl fmt::Display for Cause {
    ghost output = { λ cause. Some (cause_text cause) };

    fn fmt<W: fmt::Write>(&self, f: &mut fmt::Formatter<W>) -> fmt::Result {
        match *self {
            Cause::Displaced => write!(f, "displaced"),
            Cause::Dependent => write!(f, "dependent"),
            Cause::Unloaded => write!(f, "unloaded"),
        }
    }
}
