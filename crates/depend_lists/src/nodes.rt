//! What depends, and how many there can be.

ghost use Rattle.std.specs.Prelude.{◌≡◌};
ghost use Rattle.depend_lists.specs.Pairs.{count_of};

use cache_ident::{Caps, Class, Ident};

/// A loaded descriptor with its class.
#[derive(Clone, Copy, PartialEq, Eq, PartialOrd, Ord, Hash, Debug)]
pub struct Node {
    pub ident: Ident,
    pub class: Class,
}

/// The most that one descriptor depends on: a message row on its space and on four signal rows.
pub const MOST_PARENTS: usize = 5;

/// How many descriptors can be loaded with these capacities.
pub fn most_loaded(caps: Caps) -> usize
    ensures { result ≡ count_of caps }
{
    caps.kernels as usize + caps.spaces as usize + caps.threads as usize + caps.mappings as usize
}
