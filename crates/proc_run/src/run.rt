//! How a scenario runs on a board.

ghost use Rattle.std.specs.Prelude.{◌≡◌, ◌<◌, ◌≤◌, ◌∷◌, ◌++◌, true, None, IfOk, List, OnOk};
ghost use Rattle.flat_state.specs.declared.events.Decl.{Decl};
ghost use Rattle.flat_state.specs.declared.events.Decl.TheVariants as declaration;
ghost use Rattle.flat_state.specs.declared.events.Machine.{Machine};
ghost use Rattle.flat_state.specs.Events.{AllFit};
ghost use Rattle.flat_state.specs.State.{nothing_declared};
ghost use Rattle.run_journal.specs.declared.entries.Entry.{Entry};
ghost use Rattle.run_journal.specs.Legal.{first_ident};
ghost use Rattle.run_journal.specs.Points.{opening};
ghost use Rattle.board_opening.specs.board_calls.specs.Calls.{refusal_of_seal, IsSealing};
ghost use Rattle.processors.specs.board_turns.specs.Looks.{settled_on};
ghost use Rattle.proc_run.specs.Running.{HasKernel, IsRun};

use board_opening::board_of;
use cache_ident::NoMemory;
use flat_state::{Decl, Settled};
use processors::{Board, Gate, Owners, Quantum, run_alone, run_side_by_side, views_for};
use std::alloc::{AllocError, Global};
use std::sync::Wait;
use std::thread::Threads;

/// A board whose run is over, and how it ended.
#[derive(Drop)]
pub struct Finished {
    pub board: Board,
    pub settled: Settled,
}

// Ends the declarations of a board with a first kernel. Nothing but want of memory is in the way.
fn seal(board: &mut Board) -> Result<(), NoMemory>
    requires { refusal_of_seal board.old ≡ None }
    ensures { OnOk result (IsSealing board.old board.new first_ident) }
{
    match board.seal() {
        Ok(_) => Ok(()),
        Err(_) => Err(AllocError),
    }
}

// Runs the board of these declarations on one processor until its run is over. It waits for nobody.
fn run_on_one(alloc: Global, board: &mut Board, decls: &[Decl]) -> Result<(), NoMemory>
    requires sealed { board.old.sealed ≡ true }
    requires begins { (rest : List Entry) × (board.old.journal.entries ≡ opening decls.now ++ rest) }
    ensures { OnOk result (IsRun decls.now board.old.limit board.new) }
{
    board.holds();
    let mut owners = Owners::new(alloc, decls)?;
    let mut quantum = Quantum::new(alloc, views_for(decls))?;
    run_alone(board, &mut owners, &mut quantum)?;
    board.holds();
    Ok(())
}

// Runs several processors side by side until none of them has anything to do. With one processor it does nothing.
fn run_on_several<R: Threads + Wait + Sync, G: Gate + Sync>(
    rt: &R,
    alloc: Global,
    board: Board,
    decls: &[Decl],
    cpus: u32,
    limit: u64,
    gate: &G,
) -> Result<Board, NoMemory>
    requires processors { (0 < cpus) × (cpus ≤ 8) }
    requires sealed { board.sealed ≡ true }
    requires begins { (rest : List Entry) × (board.journal.entries ≡ opening decls.now ++ rest) }
    ensures sealed { IfOk result (λ after. after.sealed ≡ true) }
    ensures begins { IfOk result (λ after. (rest : List Entry) × (after.journal.entries ≡ opening decls.now ++ rest)) }
    ensures limit { IfOk result (λ after. after.limit ≡ board.limit) }
{
    if cpus == 1 {
        return Ok(board);
    }
    run_side_by_side(rt, alloc, board, decls, cpus, limit, gate)
}

/// Runs the scenario of these declarations on a board until all its threads have ended, none can go on, or it has taken
/// `limit` steps: several processors side by side until none of them has anything to do, and one for what is left then; or one alone,
/// without a lock or a further thread.
pub fn run<R: Threads + Wait + Sync, G: Gate + Sync>(
    rt: &R,
    alloc: Global,
    decls: &[Decl],
    cpus: u32,
    limit: u64,
    gate: &G,
) -> Result<Finished, NoMemory>
    requires fit { AllFit nothing_declared decls.now }
    requires machine { (machine : Machine) × (rest : List Decl) × (decls.now ≡ declaration.Machine machine ∷ rest) }
    requires kernel { HasKernel decls.now }
    requires processors { (0 < cpus) × (cpus ≤ 8) }
    ensures run { IfOk result (λ f. IsRun decls.now limit f.board) }
    ensures settled { IfOk result (λ f. f.settled ≡ settled_on f.board) }
{
    let mut board = board_of(alloc, decls, limit)?;
    seal(&mut board)?;
    let mut board = run_on_several(rt, alloc, board, decls, cpus, limit, gate)?;
    run_on_one(alloc, &mut board, decls)?;
    let settled = board.settled();
    Ok(Finished { board, settled })
}
