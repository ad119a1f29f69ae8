//! Several processors on one board.

ghost use Rattle.std.specs.Prelude.{◌≡◌, ◌<◌, ◌≤◌, true, All, IfOk};
ghost use Rattle.std.specs.List.{AllZip};
ghost use Rattle.std.specs.Thread.{IsSync};
ghost use mathlib.Core.List.{IsPrefix};
ghost use Rattle.turn_lock.specs.Passes.{first_of, IsPassOf};
ghost use Rattle.alone_run.specs.board_core.specs.Core.{IsSound};
ghost use Rattle.processors.specs.Parts.{HasGoneOn};

use crate::gate::Gate;
use crate::parts::{cut, joined};
use crate::run::run_processor;
use alone_run::turns::{Board, Owners, Quantum, views_for};
use cache_ident::NoMemory;
use flat_state::Decl;
use std::alloc::{AllocError, Global};
use std::sync::Wait;
use std::thread::{Threads, join};
use turn_lock::{Pass, Turn};

// What a quantum takes for a view, and else, with what its owners take: somewhat more than that.
const VIEW_BYTES: usize = 8_320;

const OTHER_BYTES: usize = 49_152;

// Asks for as much memory as a quantum with so many views takes, and gives it back. So this thread has it from the system at once: threads
// that ask for memory side by side, a view at a time, wait for each other in the system. The first that is given back may go back to the
// system, the second then stays with the thread. Nothing depends on it.
fn get_room(alloc: Global, views: usize)
    requires { views ≤ 64 }
{
    let bytes = views * VIEW_BYTES + OTHER_BYTES;
    for _ in 0..2 {
        let _room: Result<Vec<u8>, AllocError> = Vec::with_capacity(alloc, bytes);
    }
}

// Runs the processor of a pass. Its owners and its quantum are made here, in its own thread; where there is no memory for them, it does
// nothing, and the others go on.
fn run_with_pass<R: Wait, G: Gate>(
    rt: &R,
    alloc: Global,
    lock: &Turn<Board>,
    pass: Pass<Board>,
    decls: &[Decl],
    limit: u64,
    gate: &G,
) -> Pass<Board>
    requires lock { IsPassOf lock.now pass }
    requires processor { first_of pass < 8 }
    ensures { HasGoneOn lock.now pass result }
{
    let views = views_for(decls);
    get_room(alloc, views);
    let Ok(mut owners) = Owners::new(alloc, decls) else {
        return pass;
    };
    let Ok(mut quantum) = Quantum::new(alloc, views) else {
        return pass;
    };
    let (pass, _) = run_processor(rt, lock, pass, &mut owners, &mut quantum, limit, gate);
    pass
}

// Runs the processor of each pass in a thread of its own, and waits for all of them.
#[cycle(each)]
fn run_each<R: Threads + Wait + Sync, G: Gate + Sync>(
    rt: &R,
    alloc: Global,
    lock: &Turn<Board>,
    passes: Vec<Pass<Board>>,
    decls: &[Decl],
    limit: u64,
    gate: &G,
) -> Result<Vec<Pass<Board>>, NoMemory>
    requires passes { All (λ pass. IsPassOf lock.now pass × (first_of pass < 8)) passes.items }
    ensures { IfOk result (λ after. AllZip (HasGoneOn lock.now) passes.items after.items) }
{
    let mut passes = passes;
    let Some(pass) = passes.pop() else {
        return Ok(passes);
    };
    let last = move || -> Pass<Board>
        requires { IsSync R.row × (IsPassOf lock.now pass × (first_of pass < 8)) }
        ensures { HasGoneOn lock.entry.now pass result }
    { run_with_pass(rt, alloc, lock, pass, decls, limit, gate) };
    let others = move || -> Result<Vec<Pass<Board>>, NoMemory>
        requires { IsSync R.row × All (λ pass. IsPassOf lock.now pass × (first_of pass < 8)) passes.items }
        ensures { IfOk result (λ after. AllZip (HasGoneOn lock.entry.now) passes.items after.items) }
    { run_each(rt, alloc, lock, passes, decls, limit, gate) };
    let (last, others) = join(rt, last, others);
    let mut after = others?;
    after.push(last)?;
    Ok(after)
}

// Runs the processors of the passes side by side. This thread runs none of them, and has waited just before it makes the first thread:
// where a system puts a new thread on the processor of the one that makes it, neither then stands in the other's way for the
// milliseconds until the system looks again.
fn run_with_passes<R: Threads + Wait + Sync, G: Gate + Sync>(
    rt: &R,
    alloc: Global,
    lock: &Turn<Board>,
    passes: Vec<Pass<Board>>,
    decls: &[Decl],
    limit: u64,
    gate: &G,
) -> Result<Vec<Pass<Board>>, NoMemory>
    requires passes { All (λ pass. IsPassOf lock.now pass × (first_of pass < 8)) passes.items }
    ensures { IfOk result (λ after. AllZip (HasGoneOn lock.now) passes.items after.items) }
{
    join(rt, || (), || ());
    run_each(rt, alloc, lock, passes, decls, limit, gate)
}

/// Runs so many processors side by side on a board, with owners of these declarations, until each of them has nothing to do, or the board
/// has taken `limit` steps.
///
/// The board is behind a lock meanwhile. It comes back by value, and what it did before stands: where memory runs out for the
/// threads themselves, it is lost.
pub fn run_side_by_side<R: Threads + Wait + Sync, G: Gate + Sync>(
    rt: &R,
    alloc: Global,
    board: Board,
    decls: &[Decl],
    cpus: u32,
    limit: u64,
    gate: &G,
) -> Result<Board, NoMemory>
    requires processors { (0 < cpus) × (cpus ≤ 8) }
    ensures grew { IfOk result (λ after. IsPrefix board.journal.entries after.journal.entries) }
    ensures limit { IfOk result (λ after. after.limit ≡ board.limit) }
    ensures sealed { board.sealed ≡ true → IfOk result (λ after. after.sealed ≡ true) }
    ensures sound { IfOk result IsSound }
{
    board.holds();
    let Ok((lock, pass)) = Turn::new(alloc, board) else {
        return Err(AllocError);
    };
    let passes = cut(alloc, &lock, pass, cpus)?;
    let passes = run_with_passes(rt, alloc, &lock, passes, decls, limit, gate)?;
    let pass = joined(&lock, passes);
    let board = lock.close(pass);
    board.holds();
    Ok(board)
}
