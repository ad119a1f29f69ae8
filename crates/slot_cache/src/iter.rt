//! What is loaded, one after another.

ghost use Rattle.std.specs.Prelude.{◌≡◌, ◌∷◌, [], MatchOption};
ghost use Rattle.std.specs.Iterator.{YieldsFirstRef, item_count};
ghost use Rattle.slot_cache.specs.Cells.{loaded_in};
ghost use Rattle.slot_cache.specs.Seats.{cells_in};

use super::loaded::Loaded;
use super::seats::{Seat, held};
use slab::Slab;
use std::marker::Model;

/// Goes over what is loaded, in order of slot. A contract sees the list of what is left.
#[derive(Drop)]
pub struct Iter<'a, T> {
    slots: &'a [Option<usize>],
    records: &'a Slab<Seat<T>>,
}

impl<'a, T> Model for Iter<'a, T> {
    ghost use Rattle.std.specs.Prelude.{List};
    ghost use Rattle.slot_cache.specs.declared.loaded.Loaded.{Loaded};
    ghost use Rattle.slot_cache.specs.Cells.{loaded_in};
    ghost use Rattle.slot_cache.specs.Seats.{cells_in};

    ghost Value = { List (Loaded T) };

    ghost view = { λ left. loaded_in (cells_in left.records.now.slots left.slots.now) };
}

impl<'a, T> Iter<'a, T> {
    /// Over what stands in the seats that the slots hold.
    pub fn new(slots: &'a [Option<usize>], records: &'a Slab<Seat<T>>) -> Iter<'a, T>
        ensures { result ≡ loaded_in (cells_in records.now.slots slots.now) }
    {
        Iter { slots, records }
    }
}

impl<'a, T> Iterator for Iter<'a, T> {
    type Item = &'a Loaded<T>;

    ghost next_gives = { YieldsFirstRef (λ left. left) };

    ghost remaining = { item_count (λ left. left) };

    fn next(&mut self) -> Option<&'a Loaded<T>> {
        match first(self.slots, self.records) {
            Some((loaded, rest)) => {
                self.slots = rest;
                Some(loaded)
            }
            None => None,
        }
    }
}

// The first that is loaded, and the slots behind it.
fn first<'a, T>(
    slots: &'a [Option<usize>],
    records: &'a Slab<Seat<T>>,
) -> Option<(&'a Loaded<T>, &'a [Option<usize>])>
    ensures { MatchOption result (loaded_in (cells_in records.now.slots slots.now) ≡ []) (λ found. loaded_in (cells_in records.now.slots slots.now) ≡ found.0.now ∷ loaded_in (cells_in records.now.slots found.1.now)) }
{
    let mut left = slots;
    while let Some((slot, rest)) = left.split_first() {
        if let Some(loaded) = held(records, *slot) {
            return Some((loaded, rest));
        }
        left = rest;
    }
    None
}
