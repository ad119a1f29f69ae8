//! The record of a space.
#![tactic(auto)]

ghost use Rattle.std.specs.Prelude.{◌≡◌};
ghost use Rattle.cache_ident.specs.declared.idents.Kind.TheVariants.{Space};
ghost use Rattle.space_cache.specs.Spaces.{name_of};

use cache_ident::{KernelNo, Kind, Name, SpaceNo};
use slot_cache::Descriptor;

/// A space and the kernel that owns it.
#[derive(Clone, Copy, PartialEq, Eq, Debug)]
pub struct SpaceRec {
    pub no: SpaceNo,
    pub kernel: KernelNo,
}

impl Descriptor for SpaceRec {
    ghost KIND = { Space };

    ghost called = { name_of };

    const KIND: Kind = Kind::Space;

    fn name(&self) -> Name {
        Name::Space(self.no)
    }
}
