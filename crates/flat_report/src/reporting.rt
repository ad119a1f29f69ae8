//! The report of a machine.

ghost use Rattle.std.specs.Prelude.{◌≡◌, ◌+◌, ◌++◌, OnOk, IfOk, length, slice_index};
ghost use Rattle.std.specs.List.{flat_map};
ghost use Rattle.report_text.specs.Reports.{line_of_thread, lines_of_spaces, report};
ghost use Rattle.flat_report.specs.Outputs.{output_bytes};

use crate::reported::Reported;
use cache_ident::{SpaceNo, ThreadNo};
use flat_state::Settled;
use report_text::{NoMemory, ReportLines};
use rv32_exec::Context;
use std::alloc::{AllocError, Global};

/// The register with the number of a call.
const A7: usize = 17;

// The number of the call that a thread in one makes.
fn call_in(context: &Context) -> u32
    ensures { result ≡ slice_index context.now.regs 17 }
{
    context.regs[A7]
}

fn put_spaces<M: Reported>(
    lines: &mut ReportLines,
    alloc: Global,
    machine: &M,
) -> Result<(), NoMemory>
    ensures { OnOk result (lines.new ≡ lines.old ++ lines_of_spaces (M.state machine.now).rows 0 (M.state machine.now).spaces) }
{
    let tally = machine.tally_rows(alloc)?;
    let spaces = machine.space_count();
    for no in 0..spaces {
        let counts = tally.counts_of(SpaceNo(no));
        lines.space(SpaceNo(no), counts.rows, counts.referenced, counts.modified)?;
    }
    Ok(())
}

fn put_thread<M: Reported>(lines: &mut ReportLines, thread: &M::Thread) -> Result<(), NoMemory>
    ensures { OnOk result (lines.new ≡ lines.old ++ line_of_thread (M.shown thread.now)) }
{
    let call = call_in(M::context_of(thread));
    lines.thread(
        M::no_of(thread),
        M::status_of(thread),
        call,
        M::output_of(thread),
    )
}

fn put_threads<M: Reported>(lines: &mut ReportLines, machine: &M) -> Result<(), NoMemory>
    ensures { OnOk result (lines.new ≡ lines.old ++ flat_map line_of_thread (M.state machine.now).threads) }
{
    let threads = machine.thread_count();
    for no in 0..threads {
        if let Some(thread) = machine.thread(ThreadNo(no)) {
            put_thread::<M>(lines, thread)?;
        }
    }
    Ok(())
}

/// The report of a machine, whose run is settled so after so many steps. It goes once over the rows and once over
/// the threads.
pub fn report<M: Reported>(
    alloc: Global,
    machine: &M,
    settled: Settled,
    steps: u64,
) -> Result<Vec<u8>, NoMemory>
    ensures { IfOk result (λ text. text.items ≡ report (M.state machine.now) settled steps) }
{
    let mut lines = ReportLines::new(alloc, settled, steps)?;
    put_spaces(&mut lines, alloc, machine)?;
    put_threads(&mut lines, machine)?;
    Ok(lines.into_bytes())
}

// The bytes so far, and those that a thread put out. No memory holds 2^64 of them.
fn with_output<M: Reported>(bytes: u64, thread: &M::Thread) -> Result<u64, NoMemory>
    ensures { IfOk result (λ sum. sum ≡ bytes + length (M.shown thread.now).output) }
{
    let own = M::output_of(thread).len() as u64;
    bytes.checked_add(own).ok_or(AllocError)
}

/// How many bytes all threads put out together. It goes once over the threads.
pub fn output_bytes<M: Reported>(machine: &M) -> Result<u64, NoMemory>
    ensures { IfOk result (λ bytes. bytes ≡ output_bytes (M.state machine.now)) }
{
    let mut bytes = 0u64;
    let count = machine.thread_count();
    for no in 0..count {
        if let Some(thread) = machine.thread(ThreadNo(no)) {
            bytes = with_output::<M>(bytes, thread)?;
        }
    }
    Ok(bytes)
}
