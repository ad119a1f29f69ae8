//! A processor on the board.

ghost use Rattle.std.specs.Prelude.{◌<◌, ◌≤◌, IfSome};
ghost use mathlib.Core.List.{IsPrefix};
ghost use Rattle.turn_lock.specs.Passes.{first_of, seen_of, HasSameRange, IsPassOf};
ghost use Rattle.alone_run.specs.run_journal.specs.Entries.{steps_in};
ghost use Rattle.alone_run.specs.board_commits.specs.Tickets.{AreAllAsOf};
ghost use Rattle.alone_run.specs.cache_board.specs.Pasts.{entries_of};
ghost use Rattle.alone_run.specs.board_turns.specs.Looks.{IsIdle};
ghost use Rattle.processors.specs.Stops.{found_at, OnIdle, OnSpent};

use crate::course::Course;
use crate::gate::Gate;
use crate::lengths::{Ran, runner};
use crate::sharing::Sharing;
use alone_run::turns::{Board, Found, Owners, Processor, Quantum, turn};
use std::sync::Wait;
use turn_lock::{Pass, Turn};

/// Why a processor stopped.
#[derive(Clone, Copy)]
pub enum Stop {
    /// No call can be completed, and no thread that isn't loaded can take a step, nor can one come to the processor.
    Idle,
    /// As many steps were taken as it stops with.
    Spent,
    NoMemory,
}

/// Who remembers the quantum that it ran last.
pub(crate) trait RanLast {
    /// What that came to, whatever came of its commit: once its steps happened, the quantum itself has none any more.
    fn last(&self) -> Ran;
}

// Takes turns until there is nothing to do.
fn take_turns<R: Wait, P: Processor + RanLast>(
    rt: &R,
    port: &mut P,
    owners: &mut Owners,
    quantum: &mut Quantum,
) -> Stop
    requires kept { AreAllAsOf (P.seen port.old) quantum.old }
    ensures so { IfSome (found_at result) (P.is_so port.new) }
    ensures continued { P.continues port.old port.new }
{
    let mut course = Course::new();
    let mut found = Found::Over;
    port.look(course.pace.wants_first(), quantum, &mut found);
    'turns: for _ in rt.forever() {
        match found {
            Found::Nothing => return Stop::Idle,
            Found::Over => return Stop::Spent,
            Found::Out(_) | Found::Wanted { .. } => {}
        }
        let runner = runner(&found);
        let length = course.lengths.for_turn(runner);
        let before = port.brought();
        let mut pace = course.pace;
        let Ok(()) = turn(port, owners, quantum, &mut pace, length, &mut found) else {
            return Stop::NoMemory;
        };
        let brought = before < port.brought();
        course.go_on(runner, pace, port.last(), brought);
    }
    unreachable!()
}

/// Takes turns on the processor of the pass's number until there is nothing to do for it, or the board has taken `limit` steps. Whatever
/// the quantum has is forgotten first. It asks for nothing of its owners.
///
/// It may wait for the board, and with a limit above the board's own it may never end. After want of memory what was done by then stays.
pub fn run_processor<R: Wait, G: Gate>(
    rt: &R,
    lock: &Turn<Board>,
    pass: Pass<Board>,
    owners: &mut Owners,
    quantum: &mut Quantum,
    limit: u64,
    gate: &G,
) -> (Pass<Board>, Stop)
    requires lock { IsPassOf lock.now pass }
    requires processor { first_of pass < 8 }
    ensures lock { IsPassOf lock.now result.0 }
    ensures range { HasSameRange pass result.0 }
    ensures begins { IsPrefix (seen_of pass) (seen_of result.0) }
    ensures idle { OnIdle result.1 (IsIdle (entries_of (seen_of result.0))) }
    ensures spent { OnSpent result.1 (limit ≤ steps_in (entries_of (seen_of result.0))) }
{
    quantum.forget();
    let mut port = Sharing::new(rt, lock, gate, pass, limit);
    let stop = take_turns(rt, &mut port, owners, quantum);
    let pass = port.into_pass();
    (pass, stop)
}
