//! Steps are committed too late: their thread was unloaded meanwhile. The run goes on behind that.

ghost use Rattle.alone_run.specs.board_commits.specs.Tickets.{AreOfTicket};
ghost use Rattle.alone_run.specs.owners.specs.Known.{Known};
ghost use Rattle.worked_runs.specs.Owned.{HasOwners};

use crate::scenes::{CODE, FIRST, REPORT, Scene, THREAD, load_thread, opened, report_of};
use alone_run::run_alone;
use alone_run::turns::{Board, Quantum, Refused, Ticket};
use cache_ident::NoMemory;
use std::alloc::Global;
use std::mem;
use std::process::Abort;
use std::test::Fail;

// A quantum for a ticket begins.
fn begin(board: &Board, ticket: &Ticket, quantum: &mut Quantum)
    ensures { AreOfTicket board.now.journal.entries ticket.now.thread quantum.new }
{
    quantum.forget();
    quantum.begin(ticket.context, ticket.no);
}

// Runs the ticket's thread ahead up to its call, and answers whether that takes three steps.
fn has_run_ahead(board: &Board, ticket: &Ticket, quantum: &mut Quantum) -> bool
    ensures { AreOfTicket board.now.journal.entries ticket.now.thread quantum.new }
{
    begin(board, ticket, quantum);
    if !quantum.can_fill(CODE) {
        return false;
    }
    let _paged = board.page(ticket, CODE, quantum);
    let _call = quantum.run(256);
    quantum.steps() == 3
}

// Why the commit of processor 0 is refused, once processor 1 has unloaded its thread.
fn refusal_of_late_commit(board: &mut Board, quantum: &mut Quantum) -> Option<Refused>
    ensures { (known : Known) → HasOwners board.old known → HasOwners board.new known }
{
    let ticket = board.checkout(0)?;
    if !has_run_ahead(board, &ticket, quantum) {
        return None;
    }
    let _unloaded = board.unload(1, FIRST, THREAD);
    board.commit(&ticket, quantum).err()
}

// The report of the run behind a late commit.
fn run_on(rt: &impl Abort, alloc: Global, scene: &mut Scene) -> Result<Vec<u8>, NoMemory>
    requires { HasOwners scene.old.board scene.old.owners }
{
    assert!(rt; load_thread(&mut scene.board));
    let refused = refusal_of_late_commit(&mut scene.board, &mut scene.quantum);
    let late = Refused::Stale {
        ident: THREAD,
        at: 18,
    };
    assert!(rt; refused == Some(late));
    run_alone(&mut scene.board, &mut scene.owners, &mut scene.quantum)?;
    report_of(alloc, &scene.board)
}

#[test]
fn a_run_goes_on_behind_a_late_commit(rt: HostRuntime) -> Result<(), Fail> {
    let mut scene = opened(rt.alloc())?;
    let report = run_on(&rt, rt.alloc(), &mut scene);
    mem::forget(scene);
    assert!(rt; report?.as_slice() == REPORT.as_bytes());
    Ok(())
}
