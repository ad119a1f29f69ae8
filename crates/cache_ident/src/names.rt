//! The plain numbers, and the name under which a descriptor is declared.

ghost use Rattle.std.specs.Prelude.{◌≡◌, Some};
ghost use Rattle.cache_ident.specs.Names.{kind_of, amount_of, first_name, name_text};

use super::idents::Kind;
use std::fmt;

/// The number of a kernel, counted from 0 in declared order.
#[derive(Clone, Copy, PartialEq, Eq, PartialOrd, Ord, Hash, Debug, Default)]
pub struct KernelNo(pub u32);

/// The number of a space, counted from 0 in declared order.
#[derive(Clone, Copy, PartialEq, Eq, PartialOrd, Ord, Hash, Debug, Default)]
pub struct SpaceNo(pub u32);

/// The number of a thread, counted from 0 in declared order.
#[derive(Clone, Copy, PartialEq, Eq, PartialOrd, Ord, Hash, Debug, Default)]
pub struct ThreadNo(pub u32);

/// The number of a virtual page: an address divided by 4,096.
#[derive(Clone, Copy, PartialEq, Eq, PartialOrd, Ord, Hash, Debug, Default)]
pub struct Vpn(pub u32);

/// The number of a frame of memory: a place divided by 4,096.
#[derive(Clone, Copy, PartialEq, Eq, PartialOrd, Ord, Hash, Debug, Default)]
pub struct Frame(pub u32);

/// What a descriptor is declared as. It is never given to another one, and stays while the descriptor
/// is loaded and displaced.
#[derive(Clone, Copy, PartialEq, Eq, PartialOrd, Ord, Hash, Debug)]
pub enum Name {
    Kernel(KernelNo),
    Space(SpaceNo),
    Thread(ThreadNo),
    /// The row of a page in a space.
    Mapping(SpaceNo, Vpn),
}

impl Name {
    /// The kind of what has this name.
    pub fn kind(self) -> Kind
        ensures { result ≡ kind_of self }
    {
        match self {
            Name::Kernel(_) => Kind::Kernel,
            Name::Space(_) => Kind::Space,
            Name::Thread(_) => Kind::Thread,
            Name::Mapping(_, _) => Kind::Mapping,
        }
    }
}

/// The first kernel's name, so that a vector of fixed capacity can hold names.
impl Default for Name {
    ghost is_default = { λ name. name ≡ first_name };

    fn default() -> Name {
        Name::Kernel(KernelNo(0))
    }
}

/// `kernel 1`, `space 1`, `thread 1`, and for a row its space and its page, as `row 700 16`.
impl fmt::Display for Name {
    ghost output = { λ name. Some (name_text name) };

    fn fmt<W: fmt::Write>(&self, f: &mut fmt::Formatter<W>) -> fmt::Result {
        match *self {
            Name::Kernel(no) => write!(f, "kernel {}", no.0),
            Name::Space(no) => write!(f, "space {}", no.0),
            Name::Thread(no) => write!(f, "thread {}", no.0),
            Name::Mapping(space, vpn) => write!(f, "row {} {}", space.0, vpn.0),
        }
    }
}

/// An amount for each kind: the capacities of the caches, limits on locks, or counts of locks.
#[derive(Clone, Copy, PartialEq, Eq, Hash, Debug, Default)]
pub struct Caps {
    pub kernels: u32,
    pub spaces: u32,
    pub threads: u32,
    pub mappings: u32,
}

impl Caps {
    /// The amount for one kind.
    pub fn of(self, kind: Kind) -> u32
        ensures { result ≡ amount_of self kind }
    {
        match kind {
            Kind::Kernel => self.kernels,
            Kind::Space => self.spaces,
            Kind::Thread => self.threads,
            Kind::Mapping => self.mappings,
        }
    }
}
