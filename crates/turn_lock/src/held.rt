//! The value while a thread has it.
ghost use Rattle.std.specs.Prelude.{◌≡◌};
ghost use Rattle.std.specs.Borrow.{sem};
ghost use Rattle.turn_lock.specs.Seats.{HasTakenOut, Signs};

use crate::history::History;
use crate::pass::Pass;
use crate::rule::{PassOn, RecordLength, View};
use crate::turn::{LENGTH, SERVING, Turn, VALUE};
use atomic_table::Seat;
use std::snapshot::Snapshot;

// The slot that the value was taken out of, and the seat that took it.
pub(crate) struct Slot<'a, V: History> {
    pub(crate) lock: &'a Turn<V>,
    pub(crate) seat: Seat<Option<V>, View<V::Entry>>,
    pub(crate) number: u32,
    ghost of_lock: { seat.table_id ≡ lock.now.table.shared.table_id },
    ghost taken_out: { HasTakenOut seat },
    ghost signs: { Signs seat number },
}

/// The value of a lock, out with one thread. Nobody else has it until it is given back by `release`.
///
/// It can't be dropped, since then the lock would stay taken for ever.
pub struct Held<'a, V: History> {
    pub(crate) value: V,
    // The value as it was found. It has no bytes. A proof follows the borrow that `value_mut` gives only where the
    // struct has such a field of its own.
    pub(crate) found: Snapshot<V>,
    pub(crate) slot: Slot<'a, V>,
}

impl<'a, V: History> Held<'a, V> {
    ghost use Rattle.turn_lock.specs.Lending.{LendsValue};
    ghost use Rattle.turn_lock.specs.Lists.{IsContinuedBy};
    ghost use Rattle.turn_lock.specs.Passes.{value_of, found_by, holder_first, holder_end, held_lock, pass_lock, first_of, end_of, seen_of};

    pub fn value(&self) -> &V
        ensures { result.now ≡ value_of self.now }
    {
        &self.value
    }

    /// The value, to be changed. What is added to its history is judged by `release`.
    pub fn value_mut(&mut self) -> &mut V
        ensures* writes_back { sem 𝓛 (LendsValue V.row V.Entry.row V.History self.entry result) }
        ensures value { result.now ≡ value_of self.old }
    {
        &mut self.value
    }

    /// Gives the value back and lets the next thread have it.
    ///
    /// What was added to the history since the hold has to carry the number of the pass. The new pass has seen it all.
    pub fn release(self) -> Pass<V>
        requires signed { IsContinuedBy V.maker (holder_first self) (found_by self) (V.entries (value_of self)) }
        ensures lock { pass_lock result ≡ held_lock self.entry }
        ensures range { (first_of result ≡ holder_first self.entry) × (end_of result ≡ holder_end self.entry) }
        ensures seen { seen_of result ≡ V.entries (value_of self.entry) }
    {
        let Held {
            value,
            found: _,
            slot,
        } = self;
        let Slot {
            lock,
            mut seat,
            number,
        } = slot;
        let length = value.len();
        let shared = &lock.table.shared;
        match shared.exchange(&mut seat, VALUE, Some(value)) {
            None => {}
            Some(_) => unreachable!(),
        }
        shared.store::<RecordLength>(&mut seat, LENGTH, length);
        shared.fetch_add::<PassOn>(&mut seat, SERVING, 1);
        lock.released.notify_all();
        Pass { seat, number }
    }
}
