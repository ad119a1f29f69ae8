//! What is loaded with an identifier: its name, its class, and who owns it.

ghost use Rattle.std.specs.Prelude.{◌≡◌, ◌≢◌, is_some, AllPairs, Some};
ghost use Rattle.cache_ident.specs.Rolls.{standing_in};
ghost use Rattle.cache_ident.specs.declared.idents.Standing.TheVariants.{Live};
ghost use Rattle.cache_ident.specs.Residents.{Resident};
ghost use Rattle.desc_parents.specs.flat_state.specs.Dependence.{owner};
ghost use Rattle.desc_parents.specs.flat_state.specs.Names.{class_by, class_of as class_in};
ghost use Rattle.desc_parents.specs.desc_stores.specs.Contents.{content_of, resident_as, residents_of};
ghost use Rattle.desc_parents.specs.desc_stores.specs.Items.{name_of, shown};
ghost use Rattle.desc_parents.specs.resident_pairs.specs.Among.{AreParents};
ghost use Rattle.desc_parents.specs.desc_stores.specs.Sound.{IsExactlyOne};
ghost use Rattle.desc_parents.specs.Seen.{seen, HasPlainRows};
ghost use Rattle.desc_groups.specs.Whole.{IsWhole};

use cache_ident::{Class, Ident, KernelNo, Name};
use desc_parents::{ItemRef, Parents, Stores, kernel_of, parents_of};
use phys_groups::Row;

/// The name of what is loaded with an identifier. Constant time.
pub(crate) fn name_by(stores: &Stores, ident: Ident) -> Name
    requires one { IsExactlyOne stores.now }
    requires live { standing_in stores.now.issued ident ≡ Live }
    ensures { (r : Resident) → resident_as stores.now ident ≡ Some r → r.name ≡ result }
{
    let Some(item) = stores.get(ident) else {
        unreachable!()
    };
    item.name()
}

/// The class of what is loaded with an identifier, by which it leaves before others or behind them. Constant time.
pub(crate) fn class_by(stores: &Stores, ident: Ident) -> Class
    requires one { IsExactlyOne stores.now }
    requires live { standing_in stores.now.issued ident ≡ Live }
    ensures { (r : Resident) → resident_as stores.now ident ≡ Some r → class_in (seen stores.now) r.name ≡ result }
{
    let Some(item) = stores.get(ident) else {
        unreachable!()
    };
    match item {
        ItemRef::Kernel(_) => Class::Kernel,
        ItemRef::Space(_) => Class::Space,
        ItemRef::Thread(_) => Class::Thread,
        ItemRef::Mapping(row) => class_of_row(row),
    }
}

fn class_of_row(row: &Row) -> Class
    ensures { result ≡ class_by row.now.flags.m (is_some row.now.receiver) }
{
    if row.flags.m {
        Class::MessageRow
    } else if row.receiver.is_some() {
        Class::SignalRow
    } else {
        Class::OtherRow
    }
}

/// The identifiers of all that what is loaded with an identifier depends on, as far as it is loaded, each once. It takes the
/// time of `parents_of`.
pub(crate) fn parents_by(stores: &Stores, ident: Ident) -> Parents
    requires one { IsExactlyOne stores.now }
    requires rows { HasPlainRows (seen stores.now) }
    requires live { standing_in stores.now.issued ident ≡ Live }
    ensures parents { (r : Resident) → resident_as stores.now ident ≡ Some r → AreParents (seen stores.now) (residents_of stores.now) r.name result.items }
    ensures apart { AllPairs ◌≢◌ result.items }
{
    let Some(item) = stores.get(ident) else {
        unreachable!()
    };
    parents_of(stores, item)
}

/// The kernel that owns what is loaded with an identifier. A search for the space where it stands in one.
pub(crate) fn owner_by(stores: &Stores, ident: Ident) -> KernelNo
    requires whole { IsWhole stores.now }
    requires live { standing_in stores.now.issued ident ≡ Live }
    ensures { (r : Resident) → resident_as stores.now ident ≡ Some r → owner (seen stores.now) r.name ≡ Some result }
{
    stores.each_is_one();
    let Some(item) = stores.get(ident) else {
        unreachable!()
    };
    let Some(owner) = owner_of(stores, item) else {
        unreachable!()
    };
    owner
}

// The kernel that owns a content that stands: the first kernel owns kernels, and a kernel its spaces and what is in them.
fn owner_of(stores: &Stores, item: ItemRef<'_>) -> Option<KernelNo>
    requires { content_of stores.now (name_of (shown item)) ≡ Some (shown item) }
    ensures { result ≡ owner (seen stores.now) (name_of (shown item.entry)) }
{
    stores.each_is_one();
    match item {
        ItemRef::Kernel(_) => Some(KernelNo(0)),
        ItemRef::Space(space) => Some(space.kernel),
        ItemRef::Thread(thread) => kernel_of(stores, thread.space),
        ItemRef::Mapping(row) => kernel_of(stores, row.space),
    }
}
