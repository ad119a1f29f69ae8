//! What threads know of the lock, and the rule that holds between any two of their steps.
use crate::history::History;
use atomic_table::{Join, Play, Seat, Split, TableRule};
use std::collections::LinkedList;
use std::marker::{Brand, PhantomData};
use std::snapshot::Snapshot;

/// How far a seat is on its way through the lock.
pub enum Stage<E> {
    Idle,
    /// It has drawn this ticket.
    Waits(u64),
    /// Its ticket is served, and the value is out with it.
    Holds(u64),
    /// It has given the value back and has not yet passed on.
    Leaves(u64),
    /// It has taken in another seat, and this is the shorter of the two lists that were seen.
    Joined(LinkedList<E>),
}

/// What a seat at the table knows. No value of it is made.
pub struct View<E> {
    /// Its range of numbers goes from here to below `end`.
    pub first: u64,
    pub end: u64,
    pub seen: LinkedList<E>,
    pub stage: Stage<E>,
}

/// The rule of the table. The key stands for the value that the lock was made with.
pub struct InTurn;

impl<V: History> TableRule<Option<V>, View<V::Entry>, Snapshot<V>> for InTurn {
    ghost use Rattle.turn_lock.specs.Rule.{IsInTurn, opening_view};

    ghost holds = { λ key. IsInTurn V.entries V.maker };

    ghost first = { λ key. opening_view (V.entries key.value) };
}

pub struct Draw;

impl<V: History> Play<Option<V>, View<V::Entry>> for Draw {
    ghost use Rattle.turn_lock.specs.Steps.{draws};

    ghost then = { draws };
}

pub struct Look;

impl<V: History> Play<Option<V>, View<V::Entry>> for Look {
    ghost use Rattle.turn_lock.specs.Steps.{looks};

    ghost then = { looks V.entries V.maker };
}

pub struct RecordLength;

impl<V: History> Play<Option<V>, View<V::Entry>> for RecordLength {
    ghost use Rattle.turn_lock.specs.Steps.{records};

    ghost then = { records V.entries };
}

pub struct PassOn;

impl<V: History> Play<Option<V>, View<V::Entry>> for PassOn {
    ghost use Rattle.turn_lock.specs.Steps.{passes_on};

    ghost then = { passes_on };
}

pub struct Compare;

impl<V: History> Play<Option<V>, View<V::Entry>> for Compare {
    ghost use Rattle.turn_lock.specs.Steps.{compares};

    ghost then = { compares };
}

/// Where a range is cut. The call that cuts picks it.
pub trait Cut {
    ghost use Rattle.std.specs.Prelude.{ℕ};

    ghost at: { ℕ };
}

impl Cut for Brand {
    ghost at = { 0 };
}

pub struct CutRange<C> {
    cut: PhantomData<C>,
}

impl<E, C: Cut> Split<View<E>> for CutRange<C> {
    ghost use Rattle.turn_lock.specs.Steps.{below, above};

    ghost left = { below C.at };

    ghost right = { above C.at };
}

pub struct JoinRanges;

impl<E> Join<View<E>> for JoinRanges {
    ghost use Rattle.turn_lock.specs.Steps.{both, spent};

    ghost both = { both };

    ghost spent = { spent };
}
