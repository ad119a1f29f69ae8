//! How many descriptors a kernel has locked.

ghost use Rattle.std.specs.Prelude.{◌≡◌, ◌+◌, ◌<◌, ◌^◌, Option, Some, IsSome};
ghost use Rattle.cache_ident.specs.Names.{amount_of};
ghost use Rattle.cache_ident.specs.declared.names.KernelNo.{KernelNo};
ghost use Rattle.cache_ident.specs.declared.names.Name.{Name};
ghost use Rattle.desc_parents.specs.kernel_cache.specs.declared.KernelRec.{KernelRec};
ghost use Rattle.desc_parents.specs.desc_stores.specs.declared.items.Item.{Item};
ghost use Rattle.desc_parents.specs.desc_stores.specs.Changes.{HasContent};
ghost use Rattle.desc_parents.specs.desc_stores.specs.Contents.{content_of, residents_of};
ghost use Rattle.desc_parents.specs.desc_stores.specs.Sound.{AreOwned};
ghost use Rattle.desc_groups.specs.Moves.{counted_down, counted_up, with_amount, IsPutKernel};

use cache_ident::{Caps, KernelNo, Kind, Name};
use desc_parents::{ItemRef, Stores};

/// The record of a kernel, which may lock more of the kind, has one more that is locked.
pub(crate) fn count_up(stores: &mut Stores, kernel: KernelNo, kind: Kind)
    requires { (was : KernelRec) × (content_of stores.old (Name.Kernel kernel) ≡ Some (Item.Kernel was)) × (amount_of was.locked kind < amount_of was.limits kind) }
    ensures { (was : KernelRec) → content_of stores.old (Name.Kernel kernel) ≡ Some (Item.Kernel was) → IsPutKernel stores.old stores.new (counted_up kind was) }
{
    if let Some(ItemRef::Kernel(&found)) = stores.item(Name::Kernel(kernel)) {
        // One more is no more than the limit, so it is in range.
        let locked = found.locked.of(kind);
        prove!(locked < found.limits.of(kind));
        let mut counted = found;
        counted.locked = with(counted.locked, kind, locked + 1);
        stores.put_kernel(counted);
    }
}

/// The record of a kernel has one less of the kind that is locked.
pub(crate) fn count_down(stores: &mut Stores, kernel: KernelNo, kind: Kind)
    requires { (was : KernelRec) × (content_of stores.old (Name.Kernel kernel) ≡ Some (Item.Kernel was)) × (0 < amount_of was.locked kind) }
    ensures { (was : KernelRec) → content_of stores.old (Name.Kernel kernel) ≡ Some (Item.Kernel was) → IsPutKernel stores.old stores.new (counted_down kind was) }
{
    if let Some(ItemRef::Kernel(&found)) = stores.item(Name::Kernel(kernel)) {
        let mut counted = found;
        counted.locked = with(counted.locked, kind, counted.locked.of(kind) - 1);
        stores.put_kernel(counted);
    }
}

// The amounts, with another one for a kind.
fn with(caps: Caps, kind: Kind, amount: u32) -> Caps
    ensures { result ≡ with_amount caps kind amount }
{
    match kind {
        Kind::Kernel => Caps {
            kernels: amount,
            ..caps
        },
        Kind::Space => Caps {
            spaces: amount,
            ..caps
        },
        Kind::Thread => Caps {
            threads: amount,
            ..caps
        },
        Kind::Mapping => Caps {
            mappings: amount,
            ..caps
        },
    }
}
