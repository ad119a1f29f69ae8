//! A loaded descriptor is locked, and its lock ends.

ghost use Rattle.std.specs.Prelude.{◌≡◌, true, false};
ghost use Rattle.cache_ident.specs.Rolls.{standing_in};
ghost use Rattle.cache_ident.specs.declared.idents.Standing.TheVariants.{Live};
ghost use Rattle.cache_ident.specs.Residents.{with_lock};
ghost use Rattle.desc_parents.specs.desc_stores.specs.Contents.{residents_of};
ghost use Rattle.desc_groups.specs.Whole.{IsWhole, StaysWhole};
ghost use Rattle.desc_groups.specs.Moves.{KeepsButCounts, MayBeLocked};

use crate::counts::{count_down, count_up};
use crate::owners::owner_by;
use cache_ident::Ident;
use desc_parents::Stores;

/// Locks a loaded descriptor, so that it is no victim, and counts it with its owner. Nothing changes where it is locked
/// already.
///
/// It takes a time logarithmic in what is there.
pub fn lock(stores: &mut Stores, ident: Ident)
    requires whole { IsWhole stores.old }
    requires live { standing_in stores.old.issued ident ≡ Live }
    requires may { MayBeLocked stores.old ident }
    ensures whole { StaysWhole stores.old stores.new }
    ensures residents { residents_of stores.new ≡ with_lock ident true (residents_of stores.old) }
    ensures issued { stores.new.issued ≡ stores.old.issued }
    ensures kept { KeepsButCounts stores.old stores.new }
{
    if !stores.is_locked(ident) {
        let owner = owner_by(stores, ident);
        stores.lock(ident);
        count_up(stores, owner, ident.kind);
        stores.each_is_one();
    }
}

/// Ends the lock of a loaded descriptor, and counts it no longer with its owner. Nothing changes where it isn't locked.
///
/// It takes a time logarithmic in what is there.
pub fn unlock(stores: &mut Stores, ident: Ident)
    requires whole { IsWhole stores.old }
    requires live { standing_in stores.old.issued ident ≡ Live }
    ensures whole { StaysWhole stores.old stores.new }
    ensures residents { residents_of stores.new ≡ with_lock ident false (residents_of stores.old) }
    ensures issued { stores.new.issued ≡ stores.old.issued }
    ensures kept { KeepsButCounts stores.old stores.new }
{
    if stores.is_locked(ident) {
        let owner = owner_by(stores, ident);
        stores.unlock(ident);
        count_down(stores, owner, ident.kind);
        stores.each_is_one();
    }
}
