//! The board is free while a processor runs ahead: another one unloads its thread meanwhile.

ghost use Rattle.std.specs.Prelude.{◌≡◌};
ghost use Rattle.turn_lock.specs.Passes.{first_of, HasAllNumbers, HasSameRange, IsPassOf};

use crate::gates::Detention;
use crate::scenes::{FIRST, REPORT, STEPS, Scene, THREAD, load_thread, opened, report_of};
use cache_ident::{Cause, NoMemory};
use processors::{Board, Owners, Quantum, run_processor};
use run_journal::Entry;
use std::alloc::{AllocError, Global};
use std::mem;
use std::process::Abort;
use std::sync::Wait;
use std::test::Fail;
use std::thread::{Threads, join};
use turn_lock::{Pass, Turn};

// Once the other processor is in a quantum, unloads its thread, and then lets it go on.
fn unload_meanwhile<R: Wait>(
    rt: &R,
    lock: &Turn<Board>,
    pass: Pass<Board>,
    gate: &Detention,
) -> Pass<Board>
    requires lock { IsPassOf lock.now pass }
    requires number { first_of pass ≡ 1 }
    ensures { IsPassOf lock.now result × HasSameRange pass result }
{
    gate.wait_for_a_quantum();
    let mut held = lock.hold(rt, pass);
    let _unloaded = held.value_mut().unload(1, FIRST, THREAD);
    let pass = held.release();
    gate.release();
    pass
}

// Runs a processor, which the gate keeps in its first quantum.
fn run_detained<R: Wait>(
    rt: &R,
    lock: &Turn<Board>,
    pass: Pass<Board>,
    owners: &mut Owners,
    quantum: &mut Quantum,
    gate: &Detention,
) -> Pass<Board>
    requires lock { IsPassOf lock.now pass }
    requires number { first_of pass ≡ 0 }
    ensures { IsPassOf lock.now result × HasSameRange pass result }
{
    let (pass, _stop) = run_processor(rt, lock, pass, owners, quantum, STEPS, gate);
    pass
}

// Both at the same time.
fn run_both<R: Threads + Wait + Sync>(
    rt: &R,
    lock: &Turn<Board>,
    pass: Pass<Board>,
    owners: &mut Owners,
    quantum: &mut Quantum,
    gate: &Detention,
) -> Pass<Board>
    requires lock { IsPassOf lock.now pass }
    requires all { HasAllNumbers pass }
    ensures lock { IsPassOf lock.now result }
    ensures all { HasAllNumbers result }
{
    let (lower, upper) = lock.split(pass, 1);
    let (lower, upper) = join(
        rt,
        || -> Pass<Board>
            requires { IsPassOf lock.now lower × (first_of lower ≡ 0) }
            ensures { IsPassOf lock.entry.now result × HasSameRange lower result }
        { run_detained(rt, lock, lower, owners, quantum, gate) },
        || -> Pass<Board>
            requires { IsPassOf lock.now upper × (first_of upper ≡ 1) }
            ensures { IsPassOf lock.entry.now result × HasSameRange upper result }
        { unload_meanwhile(rt, lock, upper, gate) },
    );
    lock.join(lower, upper)
}

// Whether the entry tells of steps.
fn tells_of_steps(entry: &Entry) -> bool {
    matches!(entry, Entry::Ran { .. })
}

// Whether the thread was unloaded by processor 1 at place 18, and took no step before.
fn was_unloaded_before_its_steps(board: &Board) -> bool {
    let entries = board.journal().as_slice();
    let Some(
        Entry::WrittenBack {
            ident,
            cause: Cause::Unloaded,
            cpu: 1,
            ..
        },
    ) = entries.get(18)
    else {
        return false;
    };
    *ident == THREAD && !entries[..18].iter().any(tells_of_steps)
}

// What is left of the board, once each of two processors did its part.
fn run_past_an_unload<R: Threads + Wait + Sync>(
    rt: &R,
    alloc: Global,
    gate: &Detention,
) -> Result<Board, NoMemory> {
    let Scene {
        mut board,
        mut owners,
        mut quantum,
    } = opened(alloc)?;
    if !load_thread(&mut board) {
        return Err(AllocError);
    }
    board.holds();
    let Ok((lock, pass)) = Turn::new(alloc, board) else {
        return Err(AllocError);
    };
    let pass = run_both(rt, &lock, pass, &mut owners, &mut quantum, gate);
    Ok(lock.close(pass))
}

#[test]
fn a_thread_is_unloaded_while_it_runs_ahead(rt: HostRuntime) -> Result<(), Fail> {
    let gate = Detention::new();
    let board = run_past_an_unload(&rt, rt.alloc(), &gate)?;
    let unloaded = was_unloaded_before_its_steps(&board);
    let report = report_of(rt.alloc(), &board);
    mem::forget(board);
    assert!(rt; gate.has_taken_place());
    assert!(rt; unloaded);
    assert!(rt; report?.as_slice() == REPORT.as_bytes());
    Ok(())
}
