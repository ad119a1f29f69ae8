//! What is written of a run.

ghost use Rattle.std.specs.Prelude.{◌≡◌, ◌≢◌, IfOk};
ghost use Rattle.flat_state.specs.declared.records.Settled.TheVariants.{Running};
ghost use Rattle.board_opening.specs.cached_machine.specs.Cached.{state_of};
ghost use Rattle.proc_run.specs.Texts.{summary_of, text_of};

use crate::run::Finished;
use cache_ident::NoMemory;
use flat_report::{output_bytes, report};
use flat_rules::Records;
use journal_text::print;
use report_text::summary;
use std::alloc::Global;

/// What is written of a run.
#[derive(Clone, Copy)]
pub enum Account {
    /// Its report.
    Report,
    /// Its journal, and behind it its report.
    Journal,
    /// The summary of the run of the scenario that is made from that seed.
    Summary { seed: u32 },
}

// The four lines on the run of a scenario that was made from a seed.
fn summary_of(alloc: Global, seed: u32, run: &Finished) -> Result<Vec<u8>, NoMemory>
    requires { run.now.settled ≢ Running }
    ensures { IfOk result (λ text. text.items ≡ summary_of seed (state_of run.now.board.machine) run.now.settled run.now.board.steps) }
{
    let machine = run.board.machine();
    let threads = u64::from(machine.thread_count());
    let bytes = output_bytes(machine)?;
    summary(alloc, seed, run.settled, run.board.steps(), threads, bytes)
}

/// The text of an account of a run.
pub fn text(alloc: Global, account: Account, run: &Finished) -> Result<Vec<u8>, NoMemory>
    requires { run.now.settled ≢ Running }
    ensures { IfOk result (λ text. text.items ≡ text_of account run.now.board.journal.entries (state_of run.now.board.machine) run.now.settled run.now.board.steps) }
{
    let machine = run.board.machine();
    let steps = run.board.steps();
    match account {
        Account::Report => report(alloc, machine, run.settled, steps),
        Account::Journal => {
            let mut text = print(alloc, run.board.journal())?;
            let report = report(alloc, machine, run.settled, steps)?;
            text.extend_from_slice(&report)?;
            Ok(text)
        }
        Account::Summary { seed } => summary_of(alloc, seed, run),
    }
}
