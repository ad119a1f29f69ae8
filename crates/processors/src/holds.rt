//! What one of several processors does while it holds the board.

ghost use Rattle.std.specs.Prelude.{◌≡◌, ◌<◌, IfOk, IfSome};
ghost use mathlib.Core.List.{IsPrefix};
ghost use Rattle.turn_lock.specs.Passes.{found_by, held_lock, holder_end, holder_first, lock_of, value_of};
ghost use Rattle.alone_run.specs.board_commits.specs.Tickets.{AreAllAsOf, AreOfTicket};
ghost use Rattle.alone_run.specs.board_core.specs.Going.{IsOneEvent};
ghost use Rattle.alone_run.specs.cache_board.specs.Events.{past_of};
ghost use Rattle.alone_run.specs.board_turns.specs.Holds.{found_if, AreFewer, IsReadyFor};
ghost use Rattle.alone_run.specs.board_turns.specs.Holds as holds;
ghost use Rattle.processors.specs.Sharing.{end_by, first_by, seen_by, IsSoOf, IsThere};

use alone_run::turns::{Board, Committed, Found, Quantum, Ticket, begin, commit_steps, find};
use cache_ident::NoMemory;
use std::sync::Wait;
use turn_lock::{Held, Pass, Turn};

/// Waits for the board with the pass that is there. It isn't there any more then.
pub(crate) fn hold<'a, R: Wait>(
    rt: &R,
    lock: &'a Turn<Board>,
    pass: &mut Option<Pass<Board>>,
) -> Held<'a, Board>
    requires there { IsThere lock.now pass.old }
    ensures lock { held_lock result ≡ lock_of lock.now }
    ensures range { (holder_first result ≡ first_by pass.old) × (holder_end result ≡ end_by pass.old) }
    ensures found { found_by result ≡ past_of (value_of result) }
    ensures begins { IsPrefix (seen_by pass.old) (past_of (value_of result)) }
{
    match pass.take() {
        Some(pass) => lock.hold(rt, pass),
        None => unreachable!(),
    }
}

// Looks for the next thread, unless as many steps were taken as the processor stops with, and writes whom it finds to `next`.
fn look_until(board: &mut Board, cpu: u32, limit: u64, want_first: bool, next: &mut Found)
    requires processor { cpu < 8 }
    ensures so { IsSoOf cpu limit board.new.journal.entries next.new }
    ensures event { IsOneEvent cpu board.old board.new }
{
    board.holds();
    if board.steps() >= limit {
        *next = Found::Over;
        return;
    }
    find(board, cpu, want_first, next);
}

/// Looks for the next thread, unless as many steps were taken as the processor stops with, and writes whom it finds to `next`. The
/// quantum of a thread that came to the processor begins, with copies of the pages that it touched last there.
pub(crate) fn look(
    board: &mut Board,
    cpu: u32,
    limit: u64,
    want_first: bool,
    quantum: &mut Quantum,
    next: &mut Found,
)
    requires processor { cpu < 8 }
    requires kept { AreAllAsOf board.old.journal.entries quantum.old }
    ensures so { IsSoOf cpu limit board.new.journal.entries next.new }
    ensures event { IsOneEvent cpu board.old board.new }
    ensures ready { IsReadyFor board.new.journal.entries quantum.new next.new }
    ensures kept { AreAllAsOf board.new.journal.entries quantum.new }
{
    look_until(board, cpu, limit, want_first, next);
    begin(board, next, quantum);
}

// A look behind something else, if an order is given. Answers whether one is.
fn look_if(
    board: &mut Board,
    cpu: u32,
    limit: u64,
    want_first: Option<bool>,
    quantum: &mut Quantum,
    next: &mut Found,
) -> bool
    requires processor { cpu < 8 }
    requires kept { AreAllAsOf board.old.journal.entries quantum.old }
    ensures so { IfSome (found_if result next.new) (IsSoOf cpu limit board.new.journal.entries) }
    ensures event { IsOneEvent cpu board.old board.new }
    ensures ready { IfSome (found_if result next.new) (IsReadyFor board.new.journal.entries quantum.new) }
    ensures kept { AreAllAsOf board.new.journal.entries quantum.new }
{
    board.holds();
    match want_first {
        Some(want_first) => {
            look(board, cpu, limit, want_first, quantum, next);
            true
        }
        None => false,
    }
}

/// Makes the steps of a quantum happen, and gives the thread back, but where they are too many and some are left; and then looks, if
/// an order is given. Whom the look found is written to `next`, and a quantum begins for it.
pub(crate) fn commit(
    board: &mut Board,
    ticket: &Ticket,
    limit: u64,
    want_first: Option<bool>,
    quantum: &mut Quantum,
    next: &mut Found,
) -> Result<Committed, NoMemory>
    requires processor { ticket.now.cpu < 8 }
    requires views { AreOfTicket board.old.journal.entries ticket.now.thread quantum.old }
    ensures so { IfOk result (λ committed. IfSome (holds.found_by next.new committed) (IsSoOf ticket.now.cpu limit board.new.journal.entries)) }
    ensures ready { IfOk result (λ committed. IfSome (holds.found_by next.new committed) (IsReadyFor board.new.journal.entries quantum.new)) }
    ensures fewer { IfOk result (AreFewer quantum.old.steps) }
    ensures event { IsOneEvent ticket.now.cpu board.old board.new }
    ensures kept { AreAllAsOf board.new.journal.entries quantum.new }
{
    match commit_steps(board, ticket, quantum)? {
        Committed::Taken { .. } => Ok(Committed::Taken {
            looked: look_if(board, ticket.cpu, limit, want_first, quantum, next),
        }),
        Committed::TooMany(left) => Ok(Committed::TooMany(left)),
        Committed::Lost => Ok(Committed::Lost),
    }
}
