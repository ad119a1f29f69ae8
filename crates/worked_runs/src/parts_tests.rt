//! Runs of which a text tells only part: how many steps it takes to wait for another thread is the schedule's matter, and what is
//! displaced is told by the board that is kept.

use byte_ports::{MemSink, MemSource};
use cache_ident::Cause;
use proc_run::{Board, Kept, NoGate, RunStatus, Words, run_machine};
use run_journal::Entry;
use std::alloc::Global;
use std::process::Abort;
use std::sync::Wait;
use std::test::Fail;
use std::thread::Threads;

// What came of a run.
#[derive(Drop)]
struct Ran {
    status: RunStatus,
    displaced: u32,
    text: Vec<u8>,
}

// How many descriptors a run displaced, by the journal of its board.
fn count_displaced(board: &Board) -> u32 {
    let mut count = 0u32;
    for entry in board.journal().as_slice() {
        if matches!(
            entry,
            Entry::WrittenBack {
                cause: Cause::Displaced,
                ..
            }
        ) {
            count = count.saturating_add(1);
        }
    }
    count
}

// A run by no words.
fn run_text<R: Threads + Wait + Sync>(rt: &R, alloc: Global, scenario: &str) -> Result<Ran, Fail> {
    let words = Words::new(alloc);
    let mut source = MemSource::new(alloc, scenario.as_bytes(), 4096, &[])?;
    let mut sink = MemSink::new(alloc, 4096, 4096, &[])?;
    let outcome = run_machine(rt, alloc, &words, &mut source, &mut sink, &NoGate);
    let status = outcome.status;
    let displaced = match &outcome.kept {
        Kept::Board(board) => count_displaced(board),
        _ => 0,
    };
    std::mem::forget(outcome);
    let text = Vec::from_slice(alloc, sink.held())?;
    Ok(Ran {
        status,
        displaced,
        text,
    })
}

// Whether all threads of a run ended, and its report ends with these lines.
fn ends_with<R: Threads + Wait + Sync>(
    rt: &R,
    alloc: Global,
    scenario: &str,
    lines: &str,
) -> Result<bool, Fail> {
    let ran = run_text(rt, alloc, scenario)?;
    Ok(matches!(ran.status, RunStatus::Done) && ran.text.as_slice().ends_with(lines.as_bytes()))
}

// Two threads take turns by Peterson's algorithm, two hundred each, to add one to a word, and a third waits for their sum.
const PETERSON: &str =
    "mem 1\nkernel 0\nright 0 0 rw\nspace 0 0\nthread 0 0 0\nthread 1 0 0 a0 1\nthread 2 0 92\nmap 0 0 0 x\n\
map 0 16 1 rw\ncode 0 0\nlui t0, 16\nslli t1, a0, 2\nadd t1, t1, t0\nxori t2, a0, 1\nslli t3, t2, 2\nadd t3, t3, t0\n\
addi t4, zero, 1\naddi s0, zero, 200\nagain:\nsw t4, 0(t1)\nsw t2, 8(t0)\nwaits:\nlw t5, 0(t3)\nbeq t5, zero, enters\n\
lw t5, 8(t0)\nbeq t5, t2, waits\nenters:\nlw t5, 12(t0)\naddi t5, t5, 1\nsw t5, 12(t0)\nsw zero, 0(t1)\naddi s0, s0, -1\n\
bne s0, zero, again\naddi a0, zero, 0\naddi a7, zero, 0\necall\n\
lui t0, 16\naddi t1, zero, 400\nlooks:\nlw a0, 12(t0)\nbne a0, t1, looks\naddi a7, zero, 2\necall\naddi a0, zero, 0\n\
addi a7, zero, 0\necall\nendcode\nend\n";

// One thread puts the numbers from 1 to 50 into a ring of four words, and another takes them out and adds them up.
const RING: &str =
    "mem 1\nkernel 0\nright 0 0 rw\nspace 0 0\nthread 0 0 0\nthread 1 0 60\nmap 0 0 0 x\nmap 0 16 1 rw\ncode 0 0\n\
lui t0, 16\naddi t1, zero, 0\naddi t4, zero, 50\nputs:\naddi t1, t1, 1\nis_full:\nlw t2, 4(t0)\naddi t2, t2, 5\nbeq t1, t2, is_full\n\
andi t3, t1, 3\nslli t3, t3, 2\nadd t3, t3, t0\nsw t1, 16(t3)\nsw t1, 0(t0)\nbne t1, t4, puts\naddi a7, zero, 0\necall\n\
lui t0, 16\naddi t1, zero, 0\naddi t4, zero, 50\naddi a0, zero, 0\ntakes:\nis_empty:\nlw t2, 0(t0)\nbeq t1, t2, is_empty\n\
addi t1, t1, 1\nandi t3, t1, 3\nslli t3, t3, 2\nadd t3, t3, t0\nlw t2, 16(t3)\nadd a0, a0, t2\nsw t1, 4(t0)\nbne t1, t4, takes\n\
addi a7, zero, 2\necall\naddi a0, zero, 0\naddi a7, zero, 0\necall\nendcode\nend\n";

// Two threads take a lock by an atomic exchange, two hundred times each, to add one to a word, and a third waits for their sum.
const LOCK: &str =
    "mem 1\nkernel 0\nright 0 0 rw\nspace 0 0\nthread 0 0 0\nthread 1 0 0\nthread 2 0 56\nmap 0 0 0 x\nmap 0 16 1 rw\ncode 0 0\n\
lui t0, 16\naddi t1, zero, 1\naddi s0, zero, 200\nagain:\namoswap.w.aq t2, t1, (t0)\nbne t2, zero, again\nlw t3, 4(t0)\n\
addi t3, t3, 1\nsw t3, 4(t0)\namoswap.w.rl zero, zero, (t0)\naddi s0, s0, -1\nbne s0, zero, again\naddi a0, zero, 0\n\
addi a7, zero, 0\necall\nlui t0, 16\naddi t1, zero, 400\nlooks:\nlw a0, 4(t0)\nbne a0, t1, looks\naddi a7, zero, 2\n\
ecall\naddi a0, zero, 0\naddi a7, zero, 0\necall\nendcode\nend\n";

// Two threads add one to a word ten times each, atomically, and a third waits for their sum.
const ADDITIONS: &str =
    "mem 1\nkernel 0\nright 0 0 rw\nspace 0 0\nthread 0 0 0\nthread 1 0 0\nthread 2 0 36\nmap 0 0 0 x\nmap 0 16 1 rw\ncode 0 0\n\
lui t0, 16\naddi t1, zero, 1\naddi s0, zero, 10\nagain:\namoadd.w zero, t1, (t0)\naddi s0, s0, -1\nbne s0, zero, again\n\
addi a0, zero, 0\naddi a7, zero, 0\necall\nlui t0, 16\naddi t1, zero, 20\n\
looks:\nlw a0, 0(t0)\nbne a0, t1, looks\naddi a7, zero, 2\necall\naddi a0, zero, 0\naddi a7, zero, 0\necall\nendcode\nend\n";

#[test]
fn threads_that_wait_by_turning_round_end(rt: HostRuntime) -> Result<(), Fail> {
    let sum =
        "space 0 rows 2 referenced 2 modified 1\nthread 0 exit 0 out 0\nthread 1 exit 0 out 0\nthread 2 exit 0 out 3\n400\n";
    assert!(rt; ends_with(&rt, rt.alloc(), PETERSON, sum)?);
    assert!(rt; ends_with(&rt, rt.alloc(), LOCK, sum)?);
    let taken = "thread 0 exit 0 out 0\nthread 1 exit 0 out 4\n1275\n";
    assert!(rt; ends_with(&rt, rt.alloc(), RING, taken)?);
    let twenty = "thread 0 exit 0 out 0\nthread 1 exit 0 out 0\nthread 2 exit 0 out 2\n20\n";
    assert!(rt; ends_with(&rt, rt.alloc(), ADDITIONS, twenty)?);
    Ok(())
}

// A thread adds up what eight pages hold. With its code that makes nine rows, which go through six slots.
const NINE_PAGES: &str =
    "mem 1\ncaps 6 5 5 6\nkernel 0\nright 0 0 rw\nspace 0 0\nthread 0 0 0\nmap 0 0 0 x\nmap 0 16 1 rw\n\
map 0 17 2 rw\nmap 0 18 3 rw\nmap 0 19 4 rw\nmap 0 20 5 rw\nmap 0 21 6 rw\nmap 0 22 7 rw\nmap 0 23 8 rw\nword 1 0 00000001\n\
word 2 0 00000002\nword 3 0 00000003\nword 4 0 00000004\nword 5 0 00000005\nword 6 0 00000006\nword 7 0 00000007\n\
word 8 0 00000008\ncode 0 0\nlui t0, 16\naddi t1, zero, 8\naddi a0, zero, 0\nlui t2, 1\nagain:\nlw t3, 0(t0)\nadd a0, a0, t3\n\
add t0, t0, t2\naddi t1, t1, -1\nbne t1, zero, again\naddi a7, zero, 2\necall\naddi a7, zero, 0\naddi a0, zero, 0\necall\n\
endcode\nend\n";

#[test]
fn rows_are_displaced(rt: HostRuntime) -> Result<(), Fail> {
    let ran = run_text(&rt, rt.alloc(), NINE_PAGES)?;
    assert!(rt; ran.displaced >= 3);
    Ok(())
}
