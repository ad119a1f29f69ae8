//! The seats of a kind, and the slots and names that lead there.

ghost use Rattle.std.specs.Prelude.{◌≡◌, ◌≢◌, ◌<◌, ◌↔◌, [], All, Contains, length, option_copied, replicate, slice_set, Some, None, IfNone, IfOk, IfSome, IsSome, IsTrue, OnErr, OnOk};
ghost use Rattle.std.specs.Fn.{FnOnceReturnsAtMut};
ghost use Rattle.sorted_list.specs.Sorted.{IsAdded};
ghost use Rattle.slot_cache.specs.Cells.{cell_at, changed, loaded_in, with_lock, with_value, HasExactlyLoaded, HasNoName, HasNoSerial, IsContent, IsFull, IsInOrderOfSlot, IsLoaded, IsLowestFree, IsVictim, LockIs, MayGo, MayNotGo, NameIs, NoneMayGo};
ghost use Rattle.owner_shelf.specs.Rows.{content_under, rows_without, HasNoRow, LeavesName};
ghost use Rattle.kind_store.specs.Kept.{content_of, count_of, kept_in, IsSound};
ghost use Rattle.kind_store.specs.Rolls.{StaysEnrolled};
ghost use Rattle.kind_store.specs.Seated.{HasName, IsPutBack, IsSeatOf, IsTakenIn, IsUpdated, LeadsTo};

use cache_ident::{Ident, KernelNo, Name, NoMemory};
use growing_list::GrowingList;
use slab::Slab;
use slot_cache::{Descriptor, Iter, Loaded, Seat, Slots, held, relist};
use sorted_list::SortedList;
use std::alloc::Global;
use std::marker::Model;
use std::mem;

/// The descriptors of a kind, each in a seat that it keeps while it comes and goes, under its name. A slot holds the key
/// of the seat of what is loaded in it.
///
/// A contract sees what stands at each slot, and what isn't loaded as the rows of a shelf.
#[derive(Drop)]
pub(crate) struct Seats<T: Descriptor> {
    slots: Slots,
    // The slots that hold what isn't locked, in the order of serials.
    by_serial: SortedList<u64, u32>,
    records: Slab<Seat<T>>,
    // Where in `records` the seat of each name is.
    by_name: GrowingList<Name, usize>,
}

impl<T: Descriptor> Model for Seats<T> {
    ghost use Rattle.kind_store.specs.Seated.{seen_in, IsSeated, Seen};

    ghost Value = { Seen T };

    ghost view = { λ seats. seen_in seats.slots seats.records seats.by_name };

    ghost invariant = { λ seats. IsSeated T.called T.KIND seats.slots seats.by_serial seats.records seats.by_name };
}

impl<T: Descriptor + Drop> Seats<T> {
    /// No descriptors, no room for any, and as many free slots as `cap`.
    pub(crate) fn new(alloc: Global, cap: u32) -> Result<Seats<T>, NoMemory>
        ensures { IfOk result (λ seats. seats ≡ record { cells = replicate cap None; shelf = record { room = 0; rows = [] } }) }
    {
        let slots = Slots::new(alloc, cap)?;
        let by_serial = SortedList::new(alloc, cap as usize)?;
        Ok(Seats {
            slots,
            by_serial,
            records: Slab::new(alloc),
            by_name: GrowingList::new(alloc),
        })
    }

    /// Makes the room of the shelf at least one more than it was, by doubling it. Where memory is wanted, or there would be
    /// room for 2^32 descriptors or more, nothing changes.
    pub(crate) fn make_room(&mut self) -> Result<(), NoMemory>
        ensures cells { self.new.cells ≡ self.old.cells }
        ensures rows { self.new.shelf.rows ≡ self.old.shelf.rows }
        ensures ok { OnOk result (self.old.shelf.room < self.new.shelf.room) }
        ensures err { OnErr result (self.new ≡ self.old) }
        ensures sound { IsSound T.called T.KIND self.new.cells self.new.shelf }
    {
        let room = 2 * self.by_name.room() + 1;
        self.records.reserve(room - self.by_name.len())?;
        self.by_name.grow(room)
    }

    /// How many more descriptors there can be without memory. Constant time.
    pub(crate) fn spare(&self) -> usize
        ensures { result ≡ (kept_in self.now.cells self.now.shelf).room }
    {
        self.by_name.room() - self.by_name.len()
    }

    /// What stands at a slot. Constant time.
    #[inline(always)]
    fn at(&self, slot: u32) -> Option<&Loaded<T>>
        ensures { option_copied result ≡ cell_at self.now.cells slot }
    {
        held(&self.records, self.slots.get(slot))
    }

    /// What is loaded with an identifier. Constant time.
    #[inline(always)]
    pub(crate) fn get(&self, ident: Ident) -> Option<&T>
        ensures content { IfSome result (λ value. IsContent self.now.cells ident value.now) }
        ensures absent { IfNone result (IsLoaded self.now.cells ident → ⊥) }
    {
        match self.at(ident.slot) {
            Some(loaded) if loaded.ident == ident => Some(&loaded.value),
            _ => None,
        }
    }

    /// The seat of a name. One search, and constant time where what stands at the slot of `near` has the name.
    #[inline(always)]
    pub(crate) fn of_name(&self, name: Name, near: Option<Ident>) -> Option<&Seat<T>>
        ensures found { IfSome result (λ seat. IsSeatOf T.called self.now name seat.now) }
        ensures unloaded { IfNone result (HasNoName T.called self.now.cells name) }
        ensures absent { IfNone result (HasNoRow T.called self.now.shelf.rows name) }
    {
        let key = key_of(&self.slots, &self.records, &self.by_name, name, near)?;
        Some(&self.records[key])
    }

    /// Whether a loaded descriptor is locked. Constant time.
    pub(crate) fn is_locked(&self, ident: Ident) -> bool
        requires { IsLoaded self.now.cells ident }
        ensures { LockIs self.now.cells ident.slot result }
    {
        let Some(loaded) = self.at(ident.slot) else {
            unreachable!()
        };
        loaded.locked
    }

    /// The lowest free slot; `None` where all are taken.
    pub(crate) fn free(&self) -> Option<u32>
        ensures lowest { IfSome result (IsLowestFree self.now.cells) }
        ensures full { IfNone result (IsFull self.now.cells) }
    {
        self.slots.free()
    }

    /// Of the loaded identifiers that are neither locked nor in `keep`, the one with the smallest serial;
    /// `None` where each is locked or kept. It passes over kept ones, and over no others, in a logarithmic time for each.
    pub(crate) fn victim(&self, keep: &[Ident]) -> Option<Ident>
        ensures victim { IfSome result (IsVictim self.now.cells keep.now) }
        ensures none { IfNone result (NoneMayGo self.now.cells keep.now) }
    {
        for place in 0..self.by_serial.len() {
            if let Some((_, slot)) = self.by_serial.get(place) {
                if let Some(ident) = self.may_go(slot, keep) {
                    return Some(ident);
                }
            }
        }
        None
    }

    // The identifier of what stands at a slot, if that is neither locked nor kept.
    fn may_go(&self, slot: u32, keep: &[Ident]) -> Option<Ident>
        ensures some { IfSome result (MayGo (cell_at self.now.cells slot) keep.now) }
        ensures none { IfNone result (MayNotGo (cell_at self.now.cells slot) keep.now) }
    {
        match self.at(slot) {
            Some(loaded) if !loaded.locked && !is_kept(keep, loaded.ident) => Some(loaded.ident),
            _ => None,
        }
    }

    /// What is loaded, in order of slot.
    pub(crate) fn iter(&self) -> Iter<'_, T>
        ensures loaded { result ≡ loaded_in self.now.cells }
        ensures exact { HasExactlyLoaded self.now.cells result }
        ensures order { IsInOrderOfSlot result }
    {
        Iter::new(self.slots.written(), &self.records)
    }

    /// Puts a new descriptor on the shelf, under its owner. It takes no memory.
    pub(crate) fn insert(&mut self, owner: KernelNo, value: T)
        requires room { count_of self.old.cells self.old.shelf.rows < self.old.shelf.room }
        requires unloaded { HasNoName T.called self.old.cells (T.called value) }
        requires absent { HasNoRow T.called self.old.shelf.rows (T.called value) }
        ensures cells { self.new.cells ≡ self.old.cells }
        ensures room { self.new.shelf.room ≡ self.old.shelf.room }
        ensures rows { IsAdded self.old.shelf.rows self.new.shelf.rows (record { owner = owner; content = value }) }
        ensures sound { IsSound T.called T.KIND self.new.cells self.new.shelf }
    {
        let name = value.name();
        // It has no identifier yet.
        let ident = Ident {
            kind: T::KIND,
            slot: 0,
            serial: 0,
        };
        let key = self.records.insert_reserved(Seat {
            owner,
            is_loaded: false,
            loaded: Loaded {
                ident,
                value,
                locked: false,
            },
        });
        self.by_name.insert(name, key);
    }

    /// Takes a descriptor off the shelf for good, and leaves the room.
    pub(crate) fn remove(&mut self, name: Name) -> T
        requires { IsSome (content_under T.called self.old.shelf.rows name) }
        ensures content { content_under T.called self.old.shelf.rows name ≡ Some result }
        ensures cells { self.new.cells ≡ self.old.cells }
        ensures shelf { self.new.shelf ≡ record self.old.shelf { rows = rows_without T.called self.old.shelf.rows name } }
        ensures sound { IsSound T.called T.KIND self.new.cells self.new.shelf }
    {
        let Some(key) = self.by_name.find(&name) else {
            unreachable!()
        };
        self.by_name.remove(name, key);
        let seat = self.records.remove(key);
        seat.loaded.value
    }

    /// Loads what stands on the shelf, not locked, into the slot of the identifier. The content isn't moved.
    pub(crate) fn load(&mut self, name: Name, ident: Ident)
        requires shelved { IsSome (content_under T.called self.old.shelf.rows name) }
        requires kind { ident.kind ≡ T.KIND }
        requires below { ident.slot < length self.old.cells }
        requires free { cell_at self.old.cells ident.slot ≡ None }
        requires serial { HasNoSerial self.old.cells ident.serial }
        ensures loaded { IsTakenIn T.called self.old self.new name ident }
        ensures sound { IsSound T.called T.KIND self.new.cells self.new.shelf }
    {
        let Some(key) = self.by_name.find(&name) else {
            unreachable!()
        };
        let seat = &mut self.records[key];
        seat.is_loaded = true;
        seat.loaded.ident = ident;
        seat.loaded.locked = false;
        self.slots.put(ident.slot, key);
        relist(&mut self.by_serial, ident.serial, ident.slot, true, false);
    }

    /// Takes a loaded descriptor out of its slot, and puts it on the shelf, under that owner. The content isn't moved.
    pub(crate) fn leave(&mut self, ident: Ident, owner: KernelNo)
        requires { IsLoaded self.old.cells ident }
        ensures left { IsPutBack self.old self.new ident owner }
        ensures sound { IsSound T.called T.KIND self.new.cells self.new.shelf }
    {
        let Some(key) = self.slots.get(ident.slot) else {
            unreachable!()
        };
        let seat = &mut self.records[key];
        seat.owner = owner;
        seat.is_loaded = false;
        let locked = seat.loaded.locked;
        self.slots.take(ident.slot);
        relist(&mut self.by_serial, ident.serial, ident.slot, locked, true);
    }

    /// Sets or clears the lock of a loaded descriptor. Its time is logarithmic in what is loaded and not locked; where the
    /// lock is so already, constant.
    pub(crate) fn set_lock(&mut self, ident: Ident, on: bool)
        requires { IsLoaded self.old.cells ident }
        ensures cells { self.new.cells ≡ changed self.old.cells ident.slot (with_lock on) }
        ensures shelf { self.new.shelf ≡ self.old.shelf }
    {
        let Some(key) = self.slots.get(ident.slot) else {
            unreachable!()
        };
        let seat = &mut self.records[key];
        let was = mem::replace(&mut seat.loaded.locked, on);
        relist(&mut self.by_serial, ident.serial, ident.slot, was, on);
    }

    /// Puts a content of the same name in the place of the one that is loaded with an identifier, and gives the old one
    /// back. Constant time.
    pub(crate) fn replace(&mut self, ident: Ident, value: T) -> T
        requires loaded { IsLoaded self.old.cells ident }
        requires name { NameIs T.called self.old.cells ident.slot (T.called value) }
        ensures content { IsContent self.old.cells ident result }
        ensures cells { self.new.cells ≡ changed self.old.cells ident.slot (with_value value) }
        ensures shelf { self.new.shelf ≡ self.old.shelf }
    {
        let Some(key) = self.slots.get(ident.slot) else {
            unreachable!()
        };
        let seat = &mut self.records[key];
        mem::replace(&mut seat.loaded.value, value)
    }

    /// Changes the content of a name in its seat, but for its name, and gives what the change gives. The seat is found as by
    /// `of_name`.
    pub(crate) fn update<R, F: FnOnce(&mut T) -> R>(
        &mut self,
        name: Name,
        near: Option<Ident>,
        change: F,
    ) -> R
        requires there { IsSome (content_of T.called (kept_in self.old.cells self.old.shelf) name) }
        requires callable { F.IsAlwaysCallable change }
        requires named { LeavesName T.called (FnOnceReturnsAtMut F.FnOnce change) (content_of T.called (kept_in self.old.cells self.old.shelf) name) }
        ensures updated { IsUpdated T.called (FnOnceReturnsAtMut F.FnOnce change) self.old self.new name result }
        ensures enrolled { StaysEnrolled T.KIND self.old.cells self.new.cells }
        ensures sound { IsSound T.called T.KIND self.new.cells self.new.shelf }
    {
        let Some(key) = key_of(&self.slots, &self.records, &self.by_name, name, near) else {
            unreachable!()
        };
        let seat = &mut self.records[key];
        change(&mut seat.loaded.value)
    }
}

// The key of the seat of a name. No search is made where what stands at the slot of `near` has it.
#[inline(always)]
fn key_of<T: Descriptor + Drop>(
    slots: &Slots,
    records: &Slab<Seat<T>>,
    by_name: &GrowingList<Name, usize>,
    name: Name,
    near: Option<Ident>,
) -> Option<usize>
    ensures found { IfSome result (LeadsTo T.called records.now.slots by_name.now.entries name) }
    ensures absent { IfNone result (All (λ entry. entry.0 ≢ name) by_name.now.entries) }
{
    match near_key(slots, records, name, near) {
        Some(key) => Some(key),
        None => by_name.find(&name),
    }
}

// The key that the slot of `near` holds, if the seat there is that of the name.
#[inline(always)]
fn near_key<T: Descriptor + Drop>(
    slots: &Slots,
    records: &Slab<Seat<T>>,
    name: Name,
    near: Option<Ident>,
) -> Option<usize>
    ensures { IfSome result (HasName T.called records.now.slots name) }
{
    let ident = near?;
    let key = slots.get(ident.slot)?;
    let seat = records.get(key)?;
    if seat.loaded.value.name() == name {
        Some(key)
    } else {
        None
    }
}

fn is_kept(keep: &[Ident], ident: Ident) -> bool
    ensures { IsTrue result ↔ Contains keep.now ident }
{
    keep.contains(&ident)
}
