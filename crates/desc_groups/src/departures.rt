//! A descriptor leaves, with all that depends on it.

ghost use Rattle.std.specs.Prelude.{vec_capacity, ◌≡◌, ◌+◌, ◌<◌, ◌≤◌, ◌^◌, length, Some, Contains};
ghost use Rattle.cache_ident.specs.Rolls.{standing_in, departed};
ghost use Rattle.cache_ident.specs.declared.idents.Standing.TheVariants.{Live};
ghost use Rattle.cache_ident.specs.declared.names.Name.{Name};
ghost use Rattle.cache_ident.specs.Residents.{Resident, without};
ghost use Rattle.desc_parents.specs.writeback_order.specs.Order.{IsOrder};
ghost use Rattle.desc_parents.specs.flat_state.specs.Dependence.{owner};
ghost use Rattle.desc_parents.specs.run_journal.specs.Groups.{IsGroup, node_of, NothingDependsOn};
ghost use Rattle.desc_parents.specs.kernel_cache.specs.declared.KernelRec.{KernelRec};
ghost use Rattle.desc_parents.specs.desc_stores.specs.declared.items.Item.{Item};
ghost use Rattle.desc_parents.specs.desc_stores.specs.Contents.{content_of, residents_of, resident_as};
ghost use Rattle.desc_parents.specs.desc_stores.specs.Sound.{AreOwned, IsExactlyOne};
ghost use Rattle.desc_parents.specs.store_residents.specs.Slots.{KeepsSlots};
ghost use Rattle.desc_parents.specs.group_laws.specs.Leaving.{without_all};
ghost use Rattle.desc_parents.specs.Seen.{seen};
ghost use Rattle.desc_groups.specs.Whole.{AreWhole, HasCounts, IsWhole};
ghost use Rattle.desc_groups.specs.Moves.{AreNamed, KeepsButCounts, gone_as, departed_all, idents_of, HasPlaces};

use crate::counts::count_down;
use crate::owners::{class_by, name_by, owner_by};
use cache_ident::{Cause, Ident, Name};
use depend_lists::Node;
use desc_parents::{ResidentPairs, Stores};

/// A descriptor that left its cache, and why.
#[derive(Clone, Copy, PartialEq, Eq, Debug)]
pub struct Gone {
    pub ident: Ident,
    pub cause: Cause,
}

/// Takes a loaded descriptor out of its cache, for the cause, and before it all that depends on it, in the order of leaving.
/// Each goes to the shelf of its owner with the content that it has then, and its lock ends. `gone` has then what left, in
/// this order, and `names` the name of each. The first one leaves at the place `at` of the journal, and each further one at
/// the next.
///
/// It takes no memory, and a time logarithmic in what is there for each descriptor that leaves.
pub fn leave(
    stores: &mut Stores,
    pairs: &mut ResidentPairs,
    root: Ident,
    cause: Cause,
    at: u64,
    gone: &mut Vec<Gone>,
    names: &mut Vec<Name>,
)
    requires whole { AreWhole pairs.old.caps stores.old pairs.old.pairs }
    requires live { standing_in stores.old.issued root ≡ Live }
    requires places { HasPlaces stores.old root at }
    requires room { length (residents_of stores.old) ≤ vec_capacity gone.old }
    requires for_names { length (residents_of stores.old) ≤ vec_capacity names.old }
    ensures caps { pairs.new.caps ≡ pairs.old.caps }
    ensures whole { AreWhole pairs.new.caps stores.new pairs.new.pairs }
    ensures group { (r : Resident) → Contains (residents_of stores.old) r → r.ident ≡ root → IsGroup (seen stores.old) (residents_of stores.old) r (idents_of gone.new.items) }
    ensures causes { gone.new.items ≡ gone_as cause (idents_of gone.new.items) }
    ensures named { AreNamed (residents_of stores.old) (idents_of gone.new.items) names.new.items }
    ensures residents { residents_of stores.new ≡ without_all (idents_of gone.new.items) (residents_of stores.old) }
    ensures issued { stores.new.issued ≡ departed_all stores.old.issued (idents_of gone.new.items) at }
    ensures kept { KeepsButCounts stores.old stores.new }
    ensures capacity { vec_capacity gone.new ≡ vec_capacity gone.old }
    ensures for_names { vec_capacity names.new ≡ vec_capacity names.old }
{
    gone.clear();
    names.clear();
    order_from(stores, pairs, root);
    let mut place = 0;
    while let Some(node) = pairs.at(place) {
        let why = if node.ident == root {
            cause
        } else {
            Cause::Dependent
        };
        let name = name_by(stores, node.ident);
        depart(stores, pairs, node.ident, at + place as u64);
        // There is room for all that is loaded.
        gone.push_reserved(Gone {
            ident: node.ident,
            cause: why,
        });
        names.push_reserved(name);
        place += 1;
    }
}

// Puts a loaded descriptor, with all that depends on it, in the order in which they leave.
fn order_from(stores: &Stores, pairs: &mut ResidentPairs, root: Ident)
    requires one { IsExactlyOne stores.now }
    requires live { standing_in stores.now.issued root ≡ Live }
    ensures caps { pairs.new.caps ≡ pairs.old.caps }
    ensures pairs { pairs.new.pairs ≡ pairs.old.pairs }
    ensures order { (r : Resident) → resident_as stores.now root ≡ Some r → IsOrder pairs.old.pairs (node_of (seen stores.now) r) pairs.new.order }
{
    let class = class_by(stores, root);
    pairs.order(Node { ident: root, class });
}

// Takes a loaded descriptor on which nothing depends out of its cache.
fn depart(stores: &mut Stores, pairs: &mut ResidentPairs, ident: Ident, at: u64)
    requires whole { AreWhole pairs.old.caps stores.old pairs.old.pairs }
    requires live { standing_in stores.old.issued ident ≡ Live }
    requires last { (r : Resident) → resident_as stores.old ident ≡ Some r → NothingDependsOn (seen stores.old) (residents_of stores.old) r.name }
    ensures rest { pairs.new ≡ record pairs.old { pairs = pairs.new.pairs } }
    ensures whole { AreWhole pairs.new.caps stores.new pairs.new.pairs }
    ensures residents { residents_of stores.new ≡ without ident (residents_of stores.old) }
    ensures issued { stores.new.issued ≡ departed stores.old.issued ident at }
    ensures kept { KeepsButCounts stores.old stores.new }
{
    take_out(stores, ident, at);
    pairs.leave(ident);
}

// Takes a loaded descriptor out of its cache, and off the counts of its owner if it is locked.
fn take_out(stores: &mut Stores, ident: Ident, at: u64)
    requires whole { IsWhole stores.old }
    requires live { standing_in stores.old.issued ident ≡ Live }
    ensures one { IsExactlyOne stores.new }
    ensures slots { KeepsSlots stores.old stores.new }
    ensures owned { AreOwned (owner (seen stores.new)) stores.new }
    ensures counted { (name : Name) (kernel : KernelRec) → content_of stores.new name ≡ Some (Item.Kernel kernel) → HasCounts stores.new kernel }
    ensures residents { residents_of stores.new ≡ without ident (residents_of stores.old) }
    ensures issued { stores.new.issued ≡ departed stores.old.issued ident at }
    ensures kept { KeepsButCounts stores.old stores.new }
{
    let owner = owner_by(stores, ident);
    let locked = stores.is_locked(ident);
    stores.leave(ident, owner, at);
    if locked {
        count_down(stores, owner, ident.kind);
    }
    stores.each_is_one();
}
