//! The answer to an input.

ghost use Rattle.std.specs.Prelude.{List, ℕ, IfOk, IfErr};
ghost use Rattle.check_mode.specs.Answers.{IsCheckedOn, IsChecked, IsFaultOf, IsJournal};

use crate::inputs::parts;
use crate::texts::{fault_line, no_line, steps_in, yes_text};
use flat_machine::{NoMemory, Settled};
use journal_check::{Verdict, check};
use journal_text::JournalFault;
use run_journal::Journal;
use scenario_reader::{Scenario, ScenarioFault};
use std::alloc::{AllocError, Global};

/// What is answered to a scenario and a journal behind it, with the text that is due.
#[derive(Drop)]
pub enum Checked {
    /// The journal is legal and begins as the scenario says. Its run stands so.
    Yes {
        settled: Settled,
        journal: Journal,
        text: Vec<u8>,
    },
    /// That is the first place that breaks a rule, counted from 0, and the number of the first rule that it breaks.
    No {
        at: u64,
        point: u32,
        journal: Journal,
        text: Vec<u8>,
    },
    /// What stands behind the scenario is no journal. This line of it, counted from 1, is the first that isn't an entry's.
    BadJournal {
        line: u64,
        text: Vec<u8>,
    },
}

// What is answered to a journal that was read.
fn judged(
    alloc: Global,
    scenario: &Scenario,
    journal: Journal,
    limit: u64,
) -> Result<Checked, NoMemory>
    ensures { IfOk result (λ checked. (text : List ℕ) → IsJournal text journal.entries → IsCheckedOn scenario.now text limit checked) }
{
    match check(alloc, scenario, &journal)? {
        Verdict::Yes(flat) => {
            let steps = steps_in(&journal)?;
            let settled = flat.settled(steps, limit);
            let text = yes_text(alloc, &flat, settled, steps)?;
            Ok(Checked::Yes {
                settled,
                journal,
                text,
            })
        }
        Verdict::No { at, point } => {
            let text = no_line(alloc, at, point)?;
            Ok(Checked::No {
                at,
                point,
                journal,
                text,
            })
        }
    }
}

// What is answered to the bytes behind a scenario.
fn checked_text(
    alloc: Global,
    scenario: &Scenario,
    text: &[u8],
    limit: u64,
) -> Result<Checked, NoMemory>
    ensures { IfOk result (IsCheckedOn scenario.now text.now limit) }
{
    match journal_text::read(alloc, text) {
        Ok(journal) => judged(alloc, scenario, journal, limit),
        Err(JournalFault::Line(line)) => {
            let text = fault_line(alloc, line)?;
            Ok(Checked::BadJournal { line, text })
        }
        Err(JournalFault::NoMemory) => Err(AllocError),
    }
}

/// What is answered to an input: its part up to the first line whose only field is `end` is a scenario, and what stands behind that
/// line a journal, which is checked. The run stands as it does at that limit of steps. Where the first part is no scenario, its
/// first fault is the answer.
///
/// It costs what the two readings and the check cost.
pub fn answer(alloc: Global, input: &[u8], limit: u64) -> Result<Checked, ScenarioFault>
    // The first part is a scenario, and this is answered to what stands behind it; or it is none, and this is its first fault.
    ensures answer { IfOk result (IsChecked input.now limit) }
    ensures fault { IfErr result (IsFaultOf input.now) }
{
    let (first, rest) = parts(input);
    let scenario = scenario_reader::read(alloc, first)?;
    Ok(checked_text(alloc, &scenario, rest, limit)?)
}
