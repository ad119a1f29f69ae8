//! What a processor does with the board while it holds it, and whoever has the board alone.

ghost use Rattle.std.specs.Prelude.{◌≡◌, ◌<◌, ◌≤◌, ◌+◌, None, IfNone, IfOk, IfSome, OnOk};
ghost use Rattle.std.specs.Bool.{OnTrue};
ghost use Rattle.cache_board.specs.board_commits.specs.Tickets.{AreAllAsOf, AreOfTicket};
ghost use Rattle.cache_board.specs.board_core.specs.Going.{IsOneEvent};
ghost use Rattle.cache_board.specs.board_threads.specs.Tests.{IsWanted};
ghost use Rattle.board_turns.specs.Holds.{found_by, found_if, taken_by, AreFewer, HasCommitted, HasHealed, HasLookedIf, IsReadyFor};
ghost use Rattle.board_turns.specs.declared.found.Found.{Found};
ghost use Rattle.board_turns.specs.Looks.{Allows, HasLooked, IsFound, IsFoundWanted, IsSoAlone};

use crate::committed::Committed;
use crate::found::Found;
use cache_board::{Board, Quantum, Refused, Ticket};
use cache_ident::{Name, NoMemory, ThreadNo, Vpn};
use flat_rules::wants;
use flat_state::Settled;
use page_views::MOST_RECENT;
use rv32_exec::{Access, Status};
use std::alloc::AllocError;

// The next thread that waits for its owners.
fn find_wanted(board: &Board) -> Option<Found>
    ensures found { IfSome result (IsFoundWanted board.now) }
    ensures none { IfNone result (IsWanted board.now None) }
{
    let no = board.want()?;
    let Some(record) = board.flat_thread(no) else {
        unreachable!()
    };
    Some(Found::Wanted {
        no,
        trapped: matches!(record.status, Status::Trapped),
        pc: record.context.pc,
    })
}

/// Finds a thread that can come to the processor, or else one that waits for its owners, or in the other order, and writes whom to `next`.
#[inline(always)]
pub fn find(board: &mut Board, cpu: u32, want_first: bool, next: &mut Found)
    requires processor { cpu < 8 }
    ensures found { IsFound cpu want_first board.old board.new next.new }
    ensures event { IsOneEvent cpu board.old board.new }
{
    board.holds();
    if want_first {
        match find_wanted(board) {
            Some(found) => *next = found,
            None => match board.checkout(cpu) {
                Some(ticket) => *next = Found::Out(ticket),
                None => *next = Found::Nothing,
            },
        }
        return;
    }
    match board.checkout(cpu) {
        Some(ticket) => *next = Found::Out(ticket),
        None => match find_wanted(board) {
            Some(found) => *next = found,
            None => *next = Found::Nothing,
        },
    }
}

// Begins the quantum of a ticket's thread from the ticket's context, with copies of the pages that the thread touched last, as far as
// their rows are loaded and there is room.
fn begin_for(board: &Board, ticket: &Ticket, quantum: &mut Quantum)
    requires kept { AreAllAsOf board.now.journal.entries quantum.old }
    ensures views { AreOfTicket board.now.journal.entries ticket.now.thread quantum.new }
    ensures steps { quantum.new.steps ≡ 0 }
{
    quantum.begin(ticket.context, ticket.no);
    for place in 0..MOST_RECENT {
        let Some(vpn) = quantum.recent(place) else {
            return;
        };
        if quantum.can_fill(vpn) && board.page(ticket, vpn, quantum).is_err() {
            return;
        }
    }
}

/// Begins the quantum of a thread that came to the processor, where one did, from the context of its ticket, with copies of the pages
/// that it touched last there.
pub fn begin(board: &Board, found: &Found, quantum: &mut Quantum)
    requires kept { AreAllAsOf board.now.journal.entries quantum.old }
    ensures ready { IsReadyFor board.now.journal.entries quantum.new found.now }
    ensures kept { AreAllAsOf board.now.journal.entries quantum.new }
{
    if let Found::Out(ticket) = found {
        begin_for(board, ticket, quantum);
    }
}

// Whom a look by whoever has the board alone finds.
#[tactic(auto, using(crate::proofs::Looking::event_nothing, crate::proofs::Looking::looked_running, crate::proofs::Looking::so_alone))]
#[inline(always)]
fn look_alone(board: &mut Board, want_first: bool, next: &mut Found)
    ensures looked { HasLooked want_first board.old board.new next.new }
    ensures so { IsSoAlone board.new next.new }
    ensures event { IsOneEvent 0 board.old board.new }
{
    board.holds();
    match board.settled() {
        Settled::Running => find(board, 0, want_first, next),
        _ => *next = Found::Over,
    }
}

/// Looks for the next thread, unless the run is over, and writes whom it finds to `next`. The quantum of a thread that came to the
/// processor begins.
#[inline(always)]
pub(crate) fn look(board: &mut Board, want_first: bool, quantum: &mut Quantum, next: &mut Found)
    requires kept { AreAllAsOf board.old.journal.entries quantum.old }
    ensures looked { HasLooked want_first board.old board.new next.new }
    ensures so { IsSoAlone board.new next.new }
    ensures event { IsOneEvent 0 board.old board.new }
    ensures ready { IsReadyFor board.new.journal.entries quantum.new next.new }
    ensures kept { AreAllAsOf board.new.journal.entries quantum.new }
{
    look_alone(board, want_first, next);
    begin(board, next, quantum);
}

// A look behind something else, if an order is given. Answers whether one is.
#[tactic(auto, using(crate::proofs::Looking::event_nothing))]
fn look_if(
    board: &mut Board,
    want_first: Option<bool>,
    quantum: &mut Quantum,
    next: &mut Found,
) -> bool
    requires kept { AreAllAsOf board.old.journal.entries quantum.old }
    ensures looked { HasLookedIf want_first board.old board.new (found_if result next.new) }
    ensures so { IfSome (found_if result next.new) (IsSoAlone board.new) }
    ensures event { IsOneEvent 0 board.old board.new }
    ensures ready { IfSome (found_if result next.new) (IsReadyFor board.new.journal.entries quantum.new) }
    ensures kept { AreAllAsOf board.new.journal.entries quantum.new }
{
    board.holds();
    match want_first {
        Some(want_first) => {
            look(board, want_first, quantum, next);
            true
        }
        None => false,
    }
}

/// Makes the steps of a quantum happen, and gives the thread back, but where they are too many and some are left. Nobody is looked for.
#[inline(always)]
pub fn commit_steps(
    board: &mut Board,
    ticket: &Ticket,
    quantum: &mut Quantum,
) -> Result<Committed, NoMemory>
    requires views { AreOfTicket board.old.journal.entries ticket.now.thread quantum.old }
    ensures committed { (next : Found) → IfOk result (HasCommitted ticket.now quantum.old None board.old board.new next) }
    ensures fewer { IfOk result (AreFewer quantum.old.steps) }
    ensures taken { IfOk result (λ committed. board.old.steps + taken_by committed quantum.old.steps ≤ board.new.steps) }
    ensures event { IsOneEvent ticket.now.cpu board.old board.new }
    ensures kept { AreAllAsOf board.new.journal.entries quantum.new }
{
    // Fewer steps are left than these where they are too many.
    let _steps = quantum.steps();
    match board.commit(ticket, quantum) {
        Ok(steps) => {
            if steps > 0 {
                quantum.happened(board.journal().len());
            }
            Ok(Committed::Taken { looked: false })
        }
        Err(Refused::Over { left }) if left > 0 => Ok(Committed::TooMany(left as u32)),
        Err(refused) => {
            board.leave(ticket);
            match refused {
                Refused::NoMemory => Err(AllocError),
                _ => Ok(Committed::Lost),
            }
        }
    }
}

/// The same, and then looks, if an order is given. Whom the look found is written to `next`, and a quantum begins for it.
#[inline(always)]
pub(crate) fn commit(
    board: &mut Board,
    ticket: &Ticket,
    quantum: &mut Quantum,
    want_first: Option<bool>,
    next: &mut Found,
) -> Result<Committed, NoMemory>
    requires own { ticket.now.cpu ≡ 0 }
    requires views { AreOfTicket board.old.journal.entries ticket.now.thread quantum.old }
    ensures committed { IfOk result (HasCommitted ticket.now quantum.old want_first board.old board.new next.new) }
    ensures so { IfOk result (λ committed. IfSome (found_by next.new committed) (IsSoAlone board.new)) }
    ensures ready { IfOk result (λ committed. IfSome (found_by next.new committed) (IsReadyFor board.new.journal.entries quantum.new)) }
    ensures fewer { IfOk result (AreFewer quantum.old.steps) }
    ensures taken { IfOk result (λ committed. board.old.steps + taken_by committed quantum.old.steps ≤ board.new.steps) }
    ensures event { IsOneEvent 0 board.old board.new }
    ensures kept { AreAllAsOf board.new.journal.entries quantum.new }
{
    match commit_steps(board, ticket, quantum)? {
        Committed::Taken { .. } => Ok(Committed::Taken {
            looked: look_if(board, want_first, quantum, next),
        }),
        Committed::TooMany(left) => Ok(Committed::TooMany(left)),
        Committed::Lost => Ok(Committed::Lost),
    }
}

/// Whether the row of a page of the ticket's thread is loaded, and allows the access.
pub fn allows(board: &Board, ticket: &Ticket, vpn: Vpn, access: Access) -> bool
    ensures { OnTrue result (Allows board.now ticket.now.no vpn access) }
{
    let Some(thread) = board.flat_thread(ticket.no) else {
        return false;
    };
    let space = thread.space;
    let Some(row) = board.flat_row(space, vpn) else {
        return false;
    };
    wants(access, row.flags)
        && board
            .machine()
            .tables()
            .resident(Name::Mapping(space, vpn))
            .is_some()
}

/// Gives the thread of a ticket back, where there is one, and heals the next step of a thread.
pub fn leave_and_heal(
    board: &mut Board,
    cpu: u32,
    ticket: Option<Ticket>,
    thread: ThreadNo,
) -> Result<(), Refused>
    requires processor { cpu < 8 }
    requires own { IfSome ticket (λ its. its.cpu ≡ cpu) }
    ensures healed { HasHealed cpu ticket thread board.old board.new result }
    ensures stepped { OnOk result (board.old.steps + 1 ≤ board.new.steps) }
    ensures event { IsOneEvent cpu board.old board.new }
{
    match ticket {
        Some(ticket) => {
            board.leave(&ticket);
            board.heal_step(cpu, thread)
        }
        None => board.heal_step(cpu, thread),
    }
}
