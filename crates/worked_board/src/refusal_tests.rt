//! Calls that are refused, and tickets that are out of date.

ghost use Rattle.std.specs.Prelude.{◌<◌};

use crate::machines::*;
use cache_board::{Board, DESK_VIEWS, Quantum, Refused, Ticket};
use std::alloc::Global;
use std::mem;
use std::process::Abort;
use std::test::Fail;

// Loads the space, the thread that puts a byte out, and the row of its code.
fn load_thread(board: &mut Board) -> Result<(), Refused> {
    let first = board.seal()?;
    let space = board.load_space(0, first, SPACE)?;
    board.load_thread(0, first, space, PUTS)?;
    board.load_mapping(0, first, space, CODE, None)?;
    Ok(())
}

fn checked_out(rt: &impl Abort, board: &mut Board, cpu: u32) -> Ticket
    requires { cpu < 8 }
{
    let Some(ticket) = board.checkout(cpu) else {
        panic!(rt; "nobody waits")
    };
    ticket
}

// Commits no steps.
fn commit_nothing(
    board: &mut Board,
    ticket: &Ticket,
    quantum: &mut Quantum,
) -> Result<u32, Refused> {
    quantum.forget();
    quantum.begin(ticket.context, ticket.no);
    board.commit(ticket, quantum)
}

// The thread went back before.
fn commit_late(rt: &impl Abort, board: &mut Board, quantum: &mut Quantum) -> Result<u32, Refused> {
    let ticket = checked_out(rt, board, 5);
    board.leave(&ticket);
    commit_nothing(board, &ticket, quantum)
}

// All threads came away from their processors, and this one went to another: its first ticket serves no more.
fn leave_late(rt: &impl Abort, board: &mut Board, quantum: &mut Quantum) -> Result<u32, Refused> {
    let late = checked_out(rt, board, 3);
    board.clear_marks();
    let ticket = checked_out(rt, board, 4);
    assert_eq!(rt; ticket.no, late.no);
    board.leave(&late);
    assert!(rt; board.checkout(0).is_none());
    let refused = commit_nothing(board, &late, quantum);
    assert_eq!(rt; refused, Err(Refused::Moved { cpu: Some(4) }));
    commit_nothing(board, &ticket, quantum)
}

fn with_quantum(rt: &impl Abort, alloc: Global, board: &mut Board) -> Result<(), Refused> {
    let mut quantum = Quantum::new(alloc, DESK_VIEWS)?;
    let refused = commit_late(rt, board, &mut quantum);
    let late = leave_late(rt, board, &mut quantum);
    mem::forget(quantum);
    assert_eq!(rt; refused, Err(Refused::Moved { cpu: None }));
    assert_eq!(rt; late, Ok(0));
    Ok(())
}

#[test]
fn a_ticket_serves_until_its_thread_comes_away(rt: HostRuntime) -> Result<(), Fail> {
    let mut board = declared(rt.alloc(), 4)?;
    let loaded = load_thread(&mut board);
    assert_eq!(rt; loaded, Ok(()));
    let entries = board.journal().len();
    let tried = with_quantum(&rt, rt.alloc(), &mut board);
    assert_eq!(rt; tried, Ok(()));
    assert_eq!(rt; board.journal().len(), entries);
    mem::forget(board);
    Ok(())
}

#[test]
fn what_no_memory_holds_is_refused_and_changes_nothing(rt: HostRuntime) -> Result<(), Fail> {
    let mut board = declared(rt.alloc(), 4)?;
    let loaded = load_thread(&mut board);
    assert_eq!(rt; loaded, Ok(()));
    let before = (board.spare(), board.loaded(), board.journal().len());
    assert!(rt; board.reserve(usize::MAX).is_err());
    assert_eq!(rt;
        (board.spare(), board.loaded(), board.journal().len()),
        before
    );
    assert_eq!(rt; board.want(), Some(FAULTS));
    mem::forget(board);
    Ok(())
}
