//! The lock itself: how it is made, taken and closed.
ghost use Rattle.std.specs.Prelude.{◌≡◌, ◌<◌, IfOk, IfErr};
ghost use mathlib.Core.List.{IsPrefix};
ghost use Rattle.turn_lock.specs.declared.rule.Stage.TheVariants.{Idle, Waits};
ghost use Rattle.turn_lock.specs.Lists.{numbers, entries_within, AllMadeBelow};
ghost use Rattle.turn_lock.specs.Seats.{IsLockTable};
ghost use Rattle.turn_lock.specs.Steps.{at_stage, TakesTurn};

use crate::held::{Held, Slot};
use crate::history::History;
use crate::pass::Pass;
use crate::patience::Patience;
use crate::rule::{Draw, InTurn, Look, View};
use atomic_table::{Refused, Seat, Table};
use crossbeam_utils::sync::EventCount;
use std::alloc::{AllocFailed, Global};
use std::snapshot::Snapshot;
use std::sync::Wait;

mod passes;

// Words of the table: the ticket that is drawn next, the ticket that is served, and the length of the history.
pub(crate) const TICKET: usize = 0;

pub(crate) const SERVING: usize = 1;

pub(crate) const LENGTH: usize = 2;

// The slot where the value is while nobody has it.
pub(crate) const VALUE: usize = 0;

/// A value that threads take in turn, in the order in which they drew their tickets.
#[derive(Drop)]
pub struct Turn<V: History> {
    pub(crate) table: Table<Option<V>, View<V::Entry>, Snapshot<V>, InTurn, Global>,
    // Threads sleep here until a release. It tells nothing: whose turn it is stands in the table alone.
    pub(crate) released: EventCount,
    ghost is_lock: { IsLockTable table.shared.table_id },
}

impl<V: History> Turn<V> {
    ghost use Rattle.turn_lock.specs.Passes.{lock_of, IsPassOf, first_of, end_of, seen_of, own_of, HasAllNumbers, value_of, found_by, holder_first, holder_end, held_lock};

    /// A lock for this value, and a pass with all numbers that has seen its whole history.
    ///
    /// Where there is no memory the value comes back.
    pub fn new(alloc: Global, value: V) -> Result<(Turn<V>, Pass<V>), V>
        requires { AllMadeBelow V.maker numbers (V.entries value) }
        ensures lock { IfOk result (λ r. IsPassOf r.0 r.1) }
        ensures range { IfOk result (λ r. HasAllNumbers r.1) }
        ensures seen { IfOk result (λ r. seen_of r.1 ≡ V.entries value) }
        ensures err { IfErr result (λ v. v ≡ value) }
    {
        let words = [0, 0, value.len()];
        let about = Snapshot::of(&value);
        let mut slots = Vec::new(alloc);
        if let Err(failed) = slots.push(Some(value)) {
            slots.destroy_empty();
            let AllocFailed { value } = failed;
            return Err(value.unwrap());
        }
        match Table::new(alloc, &words, slots, &about) {
            Ok((table, seat)) => {
                let released = EventCount::new();
                Ok((Turn { table, released }, Pass { seat, number: 0 }))
            }
            Err(Refused { mut slots }) => {
                let value = slots.pop().unwrap().unwrap();
                slots.destroy_empty();
                Err(value)
            }
        }
    }

    // Lets a moment pass after a look that found this ticket served, or sleeps until the next one is.
    fn rest<R: Wait>(&self, rt: &R, patience: &mut Patience, serving: u64) {
        if patience.asks_for_sleep() {
            let key = self.released.prepare_wait();
            if self.table.shared.peek(SERVING) == serving {
                key.wait(rt);
            }
        }
    }

    // Draws the next ticket once that is served at once, or after a long wait. Where the word is at its last value it waits for ever.
    fn draw<R: Wait>(&self, rt: &R, seat: &mut Seat<Option<V>, View<V::Entry>>) -> u64
        requires lock { seat.old.table_id ≡ lock_of self.now }
        requires idle { seat.old.me.0.stage ≡ Idle }
        requires range { seat.old.me.0.first < seat.old.me.0.end }
        ensures seat { (seat.new.table_id ≡ seat.old.table_id) × (seat.new.id ≡ seat.old.id) }
        ensures ticket { seat.new.me ≡ (at_stage seat.old.me.0 (Waits result), seat.old.me.1) }
    {
        let shared = &self.table.shared;
        let mut patience = Patience::new();
        for _ in rt.forever() {
            let serving = shared.peek(SERVING);
            let next = shared.peek(TICKET);
            if next < u64::MAX && (next == serving || patience.is_exhausted()) {
                let found = shared.compare_exchange::<Draw>(seat, TICKET, next, next + 1);
                if found == next {
                    return found;
                }
            } else {
                self.rest(rt, &mut patience, serving);
            }
        }
        unreachable!()
    }

    // Waits until the ticket is served, and takes the slot.
    fn wait_for_turn<R: Wait>(
        &self,
        rt: &R,
        seat: &mut Seat<Option<V>, View<V::Entry>>,
        ticket: u64,
    )
        requires lock { seat.old.table_id ≡ lock_of self.now }
        requires drawn { seat.old.me.0.stage ≡ Waits ticket }
        ensures seat { (seat.new.table_id ≡ seat.old.table_id) × (seat.new.id ≡ seat.old.id) }
        ensures turn { TakesTurn V.entries V.maker ticket seat.old.me seat.new.me }
    {
        let mut patience = Patience::new();
        for _ in rt.forever() {
            let serving = self.table.shared.load::<Look>(seat, SERVING);
            if serving == ticket {
                return;
            }
            self.rest(rt, &mut patience, serving);
        }
        unreachable!()
    }

    /// Waits for the turn of this thread, and takes the value.
    ///
    /// A thread that finds the value taken waits without a ticket, since all who draw one after it would wait for it, also
    /// while it has no processor. After a long wait it draws one all the same, and then nobody goes before it. Who has looked
    /// for long yields its processor between its looks, and in the end sleeps until a release. Whether the turn comes depends
    /// on those who have the value before. After 2^64 - 1 holds of one lock it waits for ever.
    pub fn hold<R: Wait>(&self, rt: &R, pass: Pass<V>) -> Held<'_, V>
        requires { IsPassOf self.now pass }
        ensures lock { held_lock result ≡ lock_of self.now }
        ensures range { (holder_first result ≡ first_of pass) × (holder_end result ≡ end_of pass) }
        ensures found { found_by result ≡ V.entries (value_of result) }
        ensures begins { IsPrefix (seen_of pass) (V.entries (value_of result)) }
        ensures own { entries_within V.maker (first_of pass) (end_of pass) (V.entries (value_of result)) ≡ own_of pass }
    {
        let Pass { mut seat, number } = pass;
        let ticket = self.draw(rt, &mut seat);
        self.wait_for_turn(rt, &mut seat, ticket);
        match self.table.shared.exchange(&mut seat, VALUE, None) {
            Some(value) => Held {
                found: Snapshot::of(&value),
                value,
                slot: Slot {
                    lock: self,
                    seat,
                    number,
                },
            },
            None => unreachable!(),
        }
    }

    /// Ends the lock and gives the value back. It asks for all numbers, so no other pass is left, and nobody holds.
    pub fn close(self, pass: Pass<V>) -> V
        requires lock { IsPassOf self pass }
        requires all { HasAllNumbers pass }
        ensures { V.entries result ≡ seen_of pass }
    {
        let Pass { seat, number: _ } = pass;
        let Turn { table, released: _ } = self;
        let mut closed = table.close_with(seat);
        let value = closed.take(VALUE);
        closed.free();
        value.unwrap()
    }
}
