//! The texts that are due.

ghost use Rattle.std.specs.Prelude.{◌≡◌, IfOk, count_by};
ghost use Rattle.run_journal.specs.Entries.{events_of, is_step, steps_in};
ghost use Rattle.check_mode.specs.Texts.{yes_text, no_line, fault_line};

use flat_machine::{Flat, NoMemory, Settled};
use flat_report::report;
use run_journal::{Entry, Journal};
use std::alloc::{AllocError, Global};

// How many steps an entry stands for.
fn steps_of(entry: &Entry) -> u64
    ensures { result ≡ count_by is_step (events_of entry.now) }
{
    match *entry {
        Entry::Ran { steps, .. } => u64::from(steps),
        Entry::Ended { .. } => 1,
        _ => 0,
    }
}

/// How many steps the journal tells of. One pass. A journal of 2^64 steps is more than is ever checked, and is answered as want of
/// memory.
pub(crate) fn steps_in(journal: &Journal) -> Result<u64, NoMemory>
    ensures { IfOk result (λ steps. steps ≡ steps_in journal.now.entries) }
{
    let mut steps = 0u64;
    let entries = journal.as_slice();
    for entry in entries {
        steps = steps.checked_add(steps_of(entry)).ok_or(AllocError)?;
    }
    Ok(steps)
}

/// A yes, and the report of the machine that the journal leaves.
pub(crate) fn yes_text(
    alloc: Global,
    flat: &Flat,
    settled: Settled,
    steps: u64,
) -> Result<Vec<u8>, NoMemory>
    ensures { IfOk result (λ text. text.items ≡ yes_text flat.now settled steps) }
{
    let mut text = Vec::from_slice(alloc, b"journal yes\n")?;
    let report = report(alloc, flat, settled, steps)?;
    text.extend_from_slice(&report)?;
    Ok(text)
}

/// A no, with the first place that breaks a rule, and that rule's number.
pub(crate) fn no_line(alloc: Global, at: u64, point: u32) -> Result<Vec<u8>, NoMemory>
    ensures { IfOk result (λ text. text.items ≡ no_line at point) }
{
    let line = format!(in alloc; "journal no at {at} point {point}\n")?;
    Vec::from_slice(alloc, line.as_bytes())
}

/// The first line of what is no journal.
pub(crate) fn fault_line(alloc: Global, number: u64) -> Result<Vec<u8>, NoMemory>
    ensures { IfOk result (λ text. text.items ≡ fault_line number) }
{
    let line = format!(in alloc; "journal fault line {number}\n")?;
    Vec::from_slice(alloc, line.as_bytes())
}
