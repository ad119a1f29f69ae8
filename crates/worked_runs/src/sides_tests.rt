//! Whole runs by several processors: that two of them run at the same time, and what comes of a run whose report the schedule may
//! change.

use crate::gates::Rendezvous;
use byte_ports::{MemSink, MemSource};
use proc_run::{Gate, NoGate, Words, run_machine};
use std::alloc::Global;
use std::mem;
use std::process::Abort;
use std::sync::Wait;
use std::test::Fail;
use std::thread::Threads;

// Two threads put a letter out and end, each in six steps.
const TWO_LETTERS: &str =
    "mem 1\nkernel 0\nright 0 0 rw\nspace 0 0\nthread 0 0 0\nthread 1 0 0 prio 3\nmap 0 0 0 x\n\
word 0 0 00100893 04800513 00000073 00000893 00000513 00000073\nend\n";

const LETTERS: &str =
    "status done\nsteps 12\nspace 0 rows 1 referenced 1 modified 0\nthread 0 exit 0 out 1\nH\n\
thread 1 exit 0 out 1\nH\n";

// Each of two threads adds one to its own word of a page ten times, and puts out what it finds there.
const TWO_WORDS: &str =
    "mem 1\nkernel 0\nright 0 0 rw\nspace 0 0\nthread 0 0 0 a0 0x10000\nthread 1 0 0 a0 0x10004\nmap 0 0 0 x\nmap 0 16 1 rw\n\
code 0 0\naddi t1, zero, 10\nagain:\nlw t0, 0(a0)\naddi t0, t0, 1\nsw t0, 0(a0)\naddi t1, t1, -1\nbne t1, zero, again\n\
add a0, t0, zero\naddi a7, zero, 2\necall\naddi a7, zero, 0\necall\nendcode\nend\n";

const COUNTED: &str =
    "status done\nsteps 112\nspace 0 rows 2 referenced 2 modified 1\nthread 0 exit 10 out 2\n10\n\
thread 1 exit 10 out 2\n10\n";

// Two threads add one to a word ten times each, atomically, and a third waits for their sum.
const ADDITIONS: &str =
    "mem 1\nkernel 0\nright 0 0 rw\nspace 0 0\nthread 0 0 0\nthread 1 0 0\nthread 2 0 36\nmap 0 0 0 x\nmap 0 16 1 rw\ncode 0 0\n\
lui t0, 16\naddi t1, zero, 1\naddi s0, zero, 10\nagain:\namoadd.w zero, t1, (t0)\naddi s0, s0, -1\nbne s0, zero, again\n\
addi a0, zero, 0\naddi a7, zero, 0\necall\nlui t0, 16\naddi t1, zero, 20\n\
looks:\nlw a0, 0(t0)\nbne a0, t1, looks\naddi a7, zero, 2\necall\naddi a0, zero, 0\naddi a7, zero, 0\necall\nendcode\nend\n";

const TWENTY: &str = "thread 0 exit 0 out 0\nthread 1 exit 0 out 0\nthread 2 exit 0 out 2\n20\n";

// What is written by two words, of this input.
fn written<R: Threads + Wait + Sync, G: Gate + Sync>(
    rt: &R,
    alloc: Global,
    first: &str,
    second: &str,
    input: &[u8],
    gate: &G,
) -> Result<Vec<u8>, Fail> {
    let mut words = Words::new(alloc);
    words.push(first)?;
    words.push(second)?;
    let mut source = MemSource::new(alloc, input, 4096, &[])?;
    let mut sink = MemSink::new(alloc, 65_536, 4096, &[])?;
    let outcome = run_machine(rt, alloc, &words, &mut source, &mut sink, gate);
    mem::forget(outcome);
    let text = Vec::from_slice(alloc, sink.held())?;
    Ok(text)
}

#[test]
fn two_processors_come_to_their_commits_at_once(rt: HostRuntime) -> Result<(), Fail> {
    let gate = Rendezvous::new();
    let text = written(
        &rt,
        rt.alloc(),
        "--cpus=2",
        "--mode=run",
        TWO_LETTERS.as_bytes(),
        &gate,
    )?;
    assert!(rt; gate.has_taken_place());
    assert!(rt; text.as_slice() == LETTERS.as_bytes());
    Ok(())
}

// What is found of the journal that two processors write.
fn checked<R: Threads + Wait + Sync>(
    rt: &R,
    alloc: Global,
    scenario: &str,
) -> Result<Vec<u8>, Fail> {
    let text = written(
        rt,
        alloc,
        "--cpus=2",
        "--mode=journal",
        scenario.as_bytes(),
        &NoGate,
    )?;
    let end = text.len().saturating_sub(COUNTED.len());
    let mut both = Vec::from_slice(alloc, scenario.as_bytes())?;
    both.extend_from_slice(&text[..end])?;
    written(rt, alloc, "--cpus=1", "--mode=check", &both, &NoGate)
}

#[test]
fn the_journal_of_two_processors_is_legal(rt: HostRuntime) -> Result<(), Fail> {
    let found = checked(&rt, rt.alloc(), TWO_WORDS)?;
    assert!(rt; found.as_slice().starts_with(b"journal yes\n"));
    assert!(rt; found.as_slice().ends_with(COUNTED.as_bytes()));
    Ok(())
}

#[test]
fn atomic_additions_of_three_processors(rt: HostRuntime) -> Result<(), Fail> {
    let text = written(
        &rt,
        rt.alloc(),
        "--cpus=3",
        "--mode=run",
        ADDITIONS.as_bytes(),
        &NoGate,
    )?;
    // Who waits may take all steps there are, before the others have their turns.
    if text.as_slice().starts_with(b"status done\n") {
        assert!(rt; text.as_slice().ends_with(TWENTY.as_bytes()));
    }
    Ok(())
}
