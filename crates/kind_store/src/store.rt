//! The cache of a kind and the shelf beside it.

ghost use Rattle.std.specs.Prelude.{◌≡◌, ◌+◌, ◌<◌, ◌≤◌, [], ◌∷◌, ◌++◌, length, option_copied, replicate, true, false, Option, Some, None, IfNone, IfOk, IfSome, IsSome, OnErr, OnOk};
ghost use Rattle.std.specs.Bool.{OnTrue};
ghost use Rattle.std.specs.Fn.{FnOnceReturnsAtMut};
ghost use Rattle.std.specs.Option.{option_map};
ghost use Rattle.cache_ident.specs.Rolls.{departed, just_issued};
ghost use Rattle.cache_ident.specs.declared.names.KernelNo.{KernelNo};
ghost use Rattle.cache_ident.specs.declared.names.Name.{Name};
ghost use Rattle.sorted_list.specs.Sorted.{IsAdded};
ghost use Rattle.slot_cache.specs.Cells.{changed, just_loaded, loaded_in, with_lock, with_value, HasExactlyLoaded, HasNoName, IsContent, IsFoundAs, IsFull, IsInOrderOfSlot, IsLoaded, IsLowestFree, IsVictim, LockIs, NameIs, NoneMayGo};
ghost use Rattle.owner_shelf.specs.Rows.{content_under, row_under, rows_without, LeavesName};
ghost use Rattle.kind_store.specs.Kept.{content_of, AreOwned, IsExactlyOne};
ghost use Rattle.kind_store.specs.Rolls.{all_but, in_order, AreEnrolled, ChangesOne, StaysEnrolled};
ghost use Rattle.kind_store.specs.Changes.{HasContent, HasNoContent, IsExchanging, IsLeaving, IsLoading, IsUpdatingNamed, KeepsContents};

use super::seats::Seats;
use cache_ident::{Ident, KernelNo, Name, NoMemory, Roll};
use slot_cache::{Descriptor, Iter};
use std::alloc::Global;
use std::marker::Model;

/// The descriptors of a kind, each name in one place at most: in a slot of the cache, or on the shelf.
///
/// A contract sees what stands at each slot, the rows of the shelf, and the `room`, which is how many more descriptors
/// there can be without memory. Only `new` and `make_room` take memory. Unless it says otherwise, a call takes a time
/// logarithmic in what is there.
#[derive(Drop)]
pub struct KindStore<T: Descriptor> {
    seats: Seats<T>,
}

/// The content of a name, where it stands.
#[derive(Clone, Copy)]
pub struct Found<'a, T> {
    pub value: &'a T,
    /// The identifier with which the name is loaded; `None` where the content is on the shelf.
    pub ident: Option<Ident>,
}

impl<T: Descriptor> Model for KindStore<T> {
    ghost use Rattle.kind_store.specs.Kept.{Kept, kept_in, IsSound};

    ghost Value = { Kept T };

    ghost view = { λ store. kept_in store.seats.cells store.seats.shelf };

    ghost invariant = { λ store. IsSound T.called T.KIND store.seats.cells store.seats.shelf };
}

impl<T: Descriptor + Drop> KindStore<T> {
    /// No descriptors, no room for any, and as many free slots as `cap`.
    pub fn new(alloc: Global, cap: u32) -> Result<KindStore<T>, NoMemory>
        ensures { IfOk result (λ kept. kept ≡ record { cells = replicate cap None; rows = []; room = 0 }) }
    {
        Ok(KindStore {
            seats: Seats::new(alloc, cap)?,
        })
    }

    /// Makes `room` at least one more than it was. Where memory is wanted nothing changes. It doubles the room of the shelf,
    /// so that its time, which grows with what is there, is constant for each descriptor that it makes room for: call it only
    /// where `room` is too small.
    pub fn make_room(&mut self) -> Result<(), NoMemory>
        ensures cells { self.new.cells ≡ self.old.cells }
        ensures rows { self.new.rows ≡ self.old.rows }
        ensures ok { OnOk result (self.old.room < self.new.room) }
        ensures err { OnErr result (self.new ≡ self.old) }
    {
        self.seats.make_room()
    }

    /// How many more descriptors there can be without memory. Constant time.
    pub fn room(&self) -> usize
        ensures room { result ≡ self.now.room }
        ensures one { IsExactlyOne T.called T.KIND self.now }
    {
        self.seats.spare()
    }

    /// What holds of each store: each name stands in one place at most. It does nothing.
    pub fn each_is_one(&self)
        ensures { IsExactlyOne T.called T.KIND self.now }
    {
        let _ = &self.seats;
    }

    /// Puts a new descriptor on the shelf, under its owner.
    pub fn declare(&mut self, owner: KernelNo, value: T)
        requires room { 0 < self.old.room }
        requires absent { content_of T.called self.old (T.called value) ≡ None }
        ensures cells { self.new.cells ≡ self.old.cells }
        ensures rows { IsAdded self.old.rows self.new.rows (record { owner = owner; content = value }) }
        ensures room { self.new.room + 1 ≡ self.old.room }
        ensures contents { HasContent T.called self.old self.new (T.called value) value }
        ensures owned { (owner_of : Name → Option KernelNo) → owner_of (T.called value) ≡ Some owner → AreOwned T.called owner_of self.old.rows → AreOwned T.called owner_of self.new.rows }
    {
        self.seats.insert(owner, value);
    }

    /// The content of a name, wherever it is, and the identifier with which the name is loaded, if it is; `None` where it has
    /// no content. One search where it is loaded.
    pub fn found(&self, name: Name) -> Option<Found<'_, T>>
        ensures content { option_map (λ found. found.value.now) result ≡ content_of T.called self.now name }
        ensures loaded { IfSome result (λ found. IfSome found.ident (IsFoundAs T.called self.now.cells name)) }
        ensures shelved { IfSome result (λ found. IfNone found.ident (HasNoName T.called self.now.cells name)) }
        ensures one { IsExactlyOne T.called T.KIND self.now }
    {
        let seat = self.seats.of_name(name, None)?;
        let value = &seat.loaded.value;
        let ident = seat.ident();
        Some(Found { value, ident })
    }

    /// The content of a name, wherever it is; `None` where there is none. One search where it is loaded.
    pub fn item(&self, name: Name) -> Option<&T>
        ensures content { option_copied result ≡ content_of T.called self.now name }
        ensures one { IsExactlyOne T.called T.KIND self.now }
    {
        self.item_near(name, None)
    }

    /// As `item`. Where the name is loaded with the identifier `near`, that takes constant time.
    #[inline(always)]
    pub fn item_near(&self, name: Name, near: Option<Ident>) -> Option<&T>
        ensures content { option_copied result ≡ content_of T.called self.now name }
        ensures one { IsExactlyOne T.called T.KIND self.now }
    {
        let seat = self.seats.of_name(name, near)?;
        Some(&seat.loaded.value)
    }

    /// The owner under which a descriptor stands on the shelf; `None` where it isn't there.
    pub fn owner_of(&self, name: Name) -> Option<KernelNo>
        ensures { result ≡ option_map (λ row. row.owner) (row_under T.called self.now.rows name) }
    {
        let seat = self.seats.of_name(name, None)?;
        if seat.is_loaded {
            None
        } else {
            Some(seat.owner)
        }
    }

    /// The identifier with which a name is loaded; `None` where it isn't.
    pub fn resident(&self, name: Name) -> Option<Ident>
        ensures found { IfSome result (IsFoundAs T.called self.now.cells name) }
        ensures absent { IfNone result (HasNoName T.called self.now.cells name) }
        ensures one { IsExactlyOne T.called T.KIND self.now }
    {
        self.resident_near(name, None)
    }

    /// As `resident`. Where the name is loaded with the identifier `near`, that takes constant time.
    #[inline(always)]
    pub fn resident_near(&self, name: Name, near: Option<Ident>) -> Option<Ident>
        ensures found { IfSome result (IsFoundAs T.called self.now.cells name) }
        ensures absent { IfNone result (HasNoName T.called self.now.cells name) }
        ensures one { IsExactlyOne T.called T.KIND self.now }
    {
        let seat = self.seats.of_name(name, near)?;
        seat.ident()
    }

    /// The content that is loaded with an identifier; `None` where it isn't loaded. Constant time.
    #[inline(always)]
    pub fn get(&self, ident: Ident) -> Option<&T>
        ensures content { IfSome result (λ value. IsContent self.now.cells ident value.now) }
        ensures absent { IfNone result (IsLoaded self.now.cells ident → ⊥) }
        ensures one { IsExactlyOne T.called T.KIND self.now }
    {
        self.seats.get(ident)
    }

    /// Whether a loaded descriptor is locked. Constant time.
    pub fn is_locked(&self, ident: Ident) -> bool
        requires { IsLoaded self.now.cells ident }
        ensures { LockIs self.now.cells ident.slot result }
    {
        self.seats.is_locked(ident)
    }

    /// The lowest free slot; `None` where all are taken.
    pub fn free(&self) -> Option<u32>
        ensures lowest { IfSome result (IsLowestFree self.now.cells) }
        ensures full { IfNone result (IsFull self.now.cells) }
    {
        self.seats.free()
    }

    /// Of the loaded identifiers that are neither locked nor in `keep`, the one with the smallest serial; `None` where
    /// each is locked or kept. It passes over kept ones, and over no others.
    pub fn victim(&self, keep: &[Ident]) -> Option<Ident>
        ensures victim { IfSome result (IsVictim self.now.cells keep.now) }
        ensures none { IfNone result (NoneMayGo self.now.cells keep.now) }
    {
        self.seats.victim(keep)
    }

    /// What is loaded, in order of slot. Going over it takes as many steps as the highest slot that was ever used.
    pub fn loaded(&self) -> Iter<'_, T>
        ensures loaded { result ≡ loaded_in self.now.cells }
        ensures exact { HasExactlyLoaded self.now.cells result }
        ensures order { IsInOrderOfSlot result }
    {
        self.seats.iter()
    }

    /// Loads a descriptor from the shelf into the lowest free slot, with an identifier that the roll issues now. It isn't
    /// locked.
    pub fn load(&mut self, name: Name, roll: &mut Roll) -> Ident
        requires shelved { IsSome (content_under T.called self.old.rows name) }
        requires place { IsFull self.old.cells → ⊥ }
        requires spare { 0 < roll.old.spare }
        requires enrolled { AreEnrolled T.KIND roll.old.issued self.old.cells }

        ensures ident { result ≡ record { kind = T.KIND; slot = result.slot; serial = length roll.old.issued } }
        ensures lowest { IsLowestFree self.old.cells result.slot }
        ensures moved { IsLoading T.called self.old self.new name result }
        ensures contents { KeepsContents T.called self.old self.new }
        ensures owned { (owner_of : Name → Option KernelNo) → AreOwned T.called owner_of self.old.rows → AreOwned T.called owner_of self.new.rows }

        ensures issued { roll.new.issued ≡ roll.old.issued ++ just_issued result ∷ [] }
        ensures spare { roll.old.spare ≡ roll.new.spare + 1 }
        ensures last { (value : T) → content_under T.called self.old.rows name ≡ Some value → in_order roll.new.issued self.new.cells ≡ in_order roll.old.issued self.old.cells ++ just_loaded result value ∷ [] }
        ensures enrolled { AreEnrolled T.KIND roll.new.issued self.new.cells }
    {
        let Some(slot) = self.seats.free() else {
            unreachable!()
        };
        let ident = roll.issue(T::KIND, slot);
        self.seats.load(name, ident);
        ident
    }

    /// Takes a loaded descriptor out of its slot and puts it on the shelf, under its owner, with the content that it has
    /// now. Its lock ends. In the roll its identifier has left, at the place `at` of the journal.
    pub fn leave(&mut self, ident: Ident, owner: KernelNo, roll: &mut Roll, at: u64)
        requires loaded { IsLoaded self.old.cells ident }
        requires enrolled { AreEnrolled T.KIND roll.old.issued self.old.cells }

        ensures moved { IsLeaving self.old self.new ident owner }
        ensures contents { KeepsContents T.called self.old self.new }
        ensures owned { (owner_of : Name → Option KernelNo) → ((value : T) → IsContent self.old.cells ident value → owner_of (T.called value) ≡ Some owner) → AreOwned T.called owner_of self.old.rows → AreOwned T.called owner_of self.new.rows }

        ensures departed { roll.new ≡ record roll.old { issued = departed roll.old.issued ident at } }
        ensures order { in_order roll.new.issued self.new.cells ≡ all_but ident (in_order roll.old.issued self.old.cells) }
        ensures enrolled { AreEnrolled T.KIND roll.new.issued self.new.cells }
    {
        self.seats.leave(ident, owner);
        roll.depart(ident, at);
    }

    /// Locks a loaded descriptor, so that it is no victim.
    pub fn lock(&mut self, ident: Ident)
        requires { IsLoaded self.old.cells ident }
        ensures cells { self.new ≡ record self.old { cells = changed self.old.cells ident.slot (with_lock true) } }
        ensures contents { KeepsContents T.called self.old self.new }
        ensures order { ChangesOne ident (with_lock true) self.old.cells self.new.cells }
        ensures enrolled { StaysEnrolled T.KIND self.old.cells self.new.cells }
    {
        self.seats.set_lock(ident, true);
    }

    /// Ends the lock of a loaded descriptor.
    pub fn unlock(&mut self, ident: Ident)
        requires { IsLoaded self.old.cells ident }
        ensures cells { self.new ≡ record self.old { cells = changed self.old.cells ident.slot (with_lock false) } }
        ensures contents { KeepsContents T.called self.old self.new }
        ensures order { ChangesOne ident (with_lock false) self.old.cells self.new.cells }
        ensures enrolled { StaysEnrolled T.KIND self.old.cells self.new.cells }
    {
        self.seats.set_lock(ident, false);
    }

    /// Puts a content of the same name in the place of the one that is loaded with an identifier, and gives the old one
    /// back. Constant time.
    pub fn change(&mut self, ident: Ident, value: T) -> T
        requires loaded { IsLoaded self.old.cells ident }
        requires name { NameIs T.called self.old.cells ident.slot (T.called value) }
        ensures content { IsContent self.old.cells ident result }
        ensures after { self.new ≡ record self.old { cells = changed self.old.cells ident.slot (with_value value) } }
        ensures contents { HasContent T.called self.old self.new (T.called value) value }
        ensures order { ChangesOne ident (with_value value) self.old.cells self.new.cells }
        ensures enrolled { StaysEnrolled T.KIND self.old.cells self.new.cells }
    {
        self.seats.replace(ident, value)
    }

    /// Changes the content of a name where it stands, in its slot or on the shelf, but for its name, and gives what the
    /// change gives. The record isn't moved. Where the name is loaded with the identifier `near`, that takes constant time.
    pub fn update_named<R, F: FnOnce(&mut T) -> R>(
        &mut self,
        name: Name,
        near: Option<Ident>,
        change: F,
    ) -> R
        requires there { IsSome (content_of T.called self.old name) }
        requires callable { F.IsAlwaysCallable change }
        requires named { LeavesName T.called (FnOnceReturnsAtMut F.FnOnce change) (content_of T.called self.old name) }
        ensures updated { IsUpdatingNamed T.called (FnOnceReturnsAtMut F.FnOnce change) self.old self.new name result }
        ensures owned { (owner_of : Name → Option KernelNo) → AreOwned T.called owner_of self.old.rows → AreOwned T.called owner_of self.new.rows }
        ensures enrolled { StaysEnrolled T.KIND self.old.cells self.new.cells }
    {
        self.seats.update(name, near, change)
    }

    /// Puts a content in the place of the one of its name on the shelf, under the same owner, and gives the old one back.
    pub fn exchange(&mut self, value: T) -> T
        requires { IsSome (content_under T.called self.old.rows (T.called value)) }
        ensures moved { IsExchanging T.called self.old self.new value result }
        ensures contents { HasContent T.called self.old self.new (T.called value) value }
    {
        let name = value.name();
        let Some(owner) = self.owner_of(name) else {
            unreachable!()
        };
        let old = self.seats.remove(name);
        self.seats.insert(owner, value);
        old
    }

    /// Takes a descriptor off the shelf for good, and gives it. There is room for one more then.
    pub fn retract(&mut self, name: Name) -> T
        requires { IsSome (content_under T.called self.old.rows name) }
        ensures content { content_under T.called self.old.rows name ≡ Some result }
        ensures cells { self.new.cells ≡ self.old.cells }
        ensures rows { self.new.rows ≡ rows_without T.called self.old.rows name }
        ensures room { self.new.room ≡ self.old.room + 1 }
        ensures contents { HasNoContent T.called self.old self.new name }
    {
        self.seats.remove(name)
    }
}
