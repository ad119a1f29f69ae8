//! One processor behind the lock takes its turns to the end.

use crate::scenes::{STEPS, Scene, opened};
use cache_ident::NoMemory;
use flat_state::Settled;
use processors::{NoGate, Stop, run_processor};
use std::alloc::{AllocError, Global};
use std::mem;
use std::process::Abort;
use std::sync::Wait;
use std::test::Fail;
use turn_lock::Turn;

// How a board stands, and why its processor stopped.
#[derive(Clone, Copy)]
struct Stopped {
    stop: Stop,
    settled: Settled,
    steps: u64,
}

// What a processor that stops with so many steps leaves of the board.
fn run_behind_the_lock<R: Wait>(rt: &R, alloc: Global, limit: u64) -> Result<Stopped, NoMemory> {
    let Scene {
        board,
        mut owners,
        mut quantum,
    } = opened(alloc)?;
    board.holds();
    let Ok((lock, pass)) = Turn::new(alloc, board) else {
        return Err(AllocError);
    };
    let (pass, stop) = run_processor(rt, &lock, pass, &mut owners, &mut quantum, limit, &NoGate);
    let board = lock.close(pass);
    let stopped = Stopped {
        stop,
        settled: board.settled(),
        steps: board.steps(),
    };
    mem::forget(board);
    Ok(stopped)
}

#[test]
fn a_processor_ends_the_run(rt: HostRuntime) -> Result<(), Fail> {
    let stopped = run_behind_the_lock(&rt, rt.alloc(), STEPS)?;
    assert!(rt; matches!(stopped.stop, Stop::Idle));
    assert!(rt; matches!(stopped.settled, Settled::Done) && stopped.steps == 6);
    Ok(())
}

#[test]
fn a_processor_stops_with_its_limit(rt: HostRuntime) -> Result<(), Fail> {
    let stopped = run_behind_the_lock(&rt, rt.alloc(), 5)?;
    assert!(rt; matches!(stopped.stop, Stop::Spent) && stopped.steps >= 5);
    Ok(())
}
