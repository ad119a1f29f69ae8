//! Which slots of a kind are taken.

ghost use Rattle.std.specs.Prelude.{◌≡◌, ◌+◌, ◌<◌, ◌≤◌, replicate, length, filter_map, slice_set, Some, None, IfOk, IfSome, IfNone, IsSome, vec_capacity};
ghost use Rattle.std.specs.Ordering.{nat_cmp};
ghost use Rattle.slot_cache.specs.Slots.{slot_at, HasNoGap, IsFree, IsGrown, IsLowestGap};
ghost use Rattle.slot_cache.specs.Table.{Lists};

use super::index;
use cache_ident::NoMemory;
use sorted_list::SortedList;
use std::alloc::Global;
use std::marker::Model;

/// Slots for the descriptors of a kind, of which each is free or holds the key of a seat.
///
/// A contract sees the list of what each slot holds. All memory is taken by `new`.
#[derive(Drop)]
pub struct Slots {
    cap: u32,
    // The slots up to the last one that was ever used. Those behind are free, and not written yet.
    written: Vec<Option<usize>>,
    // The free ones of those.
    free: SortedList<u32, ()>,
}

impl Model for Slots {
    ghost use Rattle.std.specs.Prelude.{List, Option, ℕ};
    ghost use Rattle.slot_cache.specs.Slots.{padded, AreListed, IsRoomy};

    ghost Value = { List (Option ℕ) };

    ghost view = { λ slots. padded slots.cap slots.written.items };

    ghost invariant = { λ slots. AreListed slots.written.items slots.free × IsRoomy slots.cap slots.written slots.free };
}

impl Slots {
    /// As many free slots as `cap`. It writes none of them, so its time doesn't grow with `cap`.
    pub fn new(alloc: Global, cap: u32) -> Result<Slots, NoMemory>
        ensures { IfOk result (λ slots. slots ≡ replicate cap None) }
    {
        let room = cap as usize;
        let written = Vec::with_capacity(alloc, room)?;
        let free = SortedList::new(alloc, room)?;
        Ok(Slots { cap, written, free })
    }

    /// The lowest free slot; `None` where all are taken. Its time is logarithmic in the free slots below the highest
    /// that was ever used.
    pub fn free(&self) -> Option<u32>
        ensures lowest { IfSome result (IsLowestGap self.now) }
        ensures full { IfNone result (HasNoGap self.now) }
    {
        let written = self.written.len() as u32;
        match self.free.get(0) {
            Some((slot, ())) => Some(slot),
            None if written < self.cap => Some(written),
            None => None,
        }
    }

    /// What a slot holds. Constant time.
    #[inline(always)]
    pub fn get(&self, slot: u32) -> Option<usize>
        ensures { result ≡ slot_at self.now slot }
    {
        match self.written.get(slot as usize) {
            Some(held) => *held,
            None => None,
        }
    }

    /// Puts the key of a seat into a free slot. It takes no memory, and its time is logarithmic in the free slots; where
    /// slots below were never used, those are written first.
    pub fn put(&mut self, slot: u32, key: usize)
        requires below { slot < length self.old }
        requires free { slot_at self.old slot ≡ None }
        ensures { self.new ≡ slice_set self.old slot (Some key) }
    {
        reach(&mut self.written, &mut self.free, slot);
        index::remove(&mut self.free, slot, ());
        self.written[slot as usize] = Some(key);
    }

    /// Frees a slot, in the time of `put`.
    pub fn take(&mut self, slot: u32)
        requires { IsSome (slot_at self.old slot) }
        ensures { self.new ≡ slice_set self.old slot None }
    {
        index::insert(&mut self.free, slot, ());
        self.written[slot as usize] = None;
    }

    /// The slots up to the highest that was ever used.
    pub fn written(&self) -> &[Option<usize>]
        ensures { filter_map (λ slot. slot) result.now ≡ filter_map (λ slot. slot) self.now }
    {
        &self.written
    }
}

// Writes slots with nothing in them up to that one, and lists them as free.
fn reach(slots: &mut Vec<Option<usize>>, free: &mut SortedList<u32, ()>, slot: u32)
    requires room { slot < vec_capacity slots.old }
    requires listed { Lists nat_cmp (IsFree slots.old.items) free.old.entries }
    requires free_room { slot < free.old.room }
    requires few { length free.old.entries ≤ length slots.old.items }
    ensures grown { IsGrown slots.old.items slots.new.items slot }
    ensures capacity { vec_capacity slots.new ≡ vec_capacity slots.old }
    ensures listed { Lists nat_cmp (IsFree slots.new.items) free.new.entries }
    ensures len { length free.new.entries + length slots.old.items ≡ length free.old.entries + length slots.new.items }
    ensures free_room { free.new.room ≡ free.old.room }
{
    while slots.len() <= slot as usize {
        let next = slots.len() as u32;
        index::insert(free, next, ());
        slots.push_reserved(None);
    }
}
