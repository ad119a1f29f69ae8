//! The record of a kernel.
#![tactic(auto)]

ghost use Rattle.std.specs.Prelude.{◌≡◌};
ghost use Rattle.cache_ident.specs.declared.idents.Kind.TheVariants.{Kernel};
ghost use Rattle.kernel_cache.specs.Kernels.{name_of};

use cache_ident::{Caps, KernelNo, Kind, Name};
use phys_groups::Rights;
use slot_cache::Descriptor;

/// A kernel: what it may access, and how many descriptors of each kind it may lock and has locked.
#[derive(Clone, Copy)]
pub struct KernelRec {
    pub no: KernelNo,
    pub rights: Rights,
    pub limits: Caps,
    pub locked: Caps,
}

impl Descriptor for KernelRec {
    ghost KIND = { Kernel };

    ghost called = { name_of };

    const KIND: Kind = Kind::Kernel;

    fn name(&self) -> Name {
        Name::Kernel(self.no)
    }
}
