//! What is read of a board, and processors that come away without their tickets.

use crate::machines::*;
use cache_board::{Board, Refused};
use cache_ident::{Cause, Ident, Kind};
use flat_state::Settled;
use run_journal::Entry;
use std::mem;
use std::process::Abort;
use std::test::Fail;

// Loads the space, the thread that puts a byte out, and the row of its code.
fn load_all(board: &mut Board, first: Ident) -> Result<Ident, Refused> {
    let space = board.load_space(0, first, SPACE)?;
    board.load_thread(1, first, space, PUTS)?;
    board.load_mapping(2, first, space, CODE, None)?;
    Ok(space)
}

// Each processor comes away, by its ticket and without.
fn go_and_come_back(rt: &impl Abort, board: &mut Board) {
    for _ in 0..2 {
        let Some(ticket) = board.checkout(7) else {
            panic!(rt; "nobody waits")
        };
        assert!(rt; board.checkout(0).is_none());
        board.leave(&ticket);
    }
    assert!(rt; board.checkout(7).is_some());
    board.clear_marks();
}

// A thread leaves its cache while a processor has it: then none has it, and its last checkout is still the one that it was.
fn leave_while_out(
    rt: &impl Abort,
    board: &mut Board,
    first: Ident,
    space: Ident,
) -> Result<(), Refused> {
    assert!(rt; board.checkout(7).is_some());
    board.unload(7, first, space)?;
    let Some(thread) = board.flat_thread(PUTS) else {
        panic!(rt; "the thread is gone")
    };
    assert!(rt; thread.on_cpu.is_none() && thread.last == 4);
    Ok(())
}

fn run_all(rt: &impl Abort, board: &mut Board) -> Result<(), Refused> {
    let first = board.seal()?;
    board.reserve(64)?;
    assert!(rt; board.spare() >= 64);
    assert!(rt; board.want() == Some(PUTS));
    let space = load_all(board, first)?;
    go_and_come_back(rt, board);
    leave_while_out(rt, board, first, space)
}

// What is read of the board in the end.
fn look_at(rt: &impl Abort, board: &Board) {
    assert!(rt; board.steps() == 0 && board.loaded() == 1);
    assert!(rt; board.settled() == Settled::Running);
    assert!(rt; board.names(Kind::Thread).len() == 2);
    assert!(rt; board.flat_row(SPACE, CODE).is_some());
    assert!(rt; board.journal().len() == 20);
}

fn is_unloaded(entry: Option<&Entry>) -> bool {
    matches!(
        entry,
        Some(Entry::WrittenBack {
            cause: Cause::Unloaded,
            cpu: 7,
            ..
        })
    )
}

#[test]
fn a_board_is_read_and_gives_its_journal(rt: HostRuntime) -> Result<(), Fail> {
    let mut board = declared(rt.alloc(), 4)?;
    let ran = run_all(&rt, &mut board);
    assert!(rt; ran == Ok(()));
    look_at(&rt, &board);
    let journal = board.into_journal();
    assert!(rt; is_unloaded(journal.as_slice().last()));
    mem::forget(journal);
    Ok(())
}
