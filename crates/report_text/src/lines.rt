//! A report, line by line, and the summary of one.

ghost use Rattle.std.specs.Prelude.{◌≡◌, ◌≢◌, ◌++◌, IfOk, OnOk, OnErr};
ghost use Rattle.std.specs.String.{string_bytes};
ghost use Rattle.flat_state.specs.declared.records.Settled.TheVariants.{Running};
ghost use Rattle.report_text.specs.Reports.{heading, count_text, counts_text, number_line, thread_text, output_text, summary_text, settled_text};

use crate::words::{settled_text, state_text};
use cache_ident::{SpaceNo, ThreadNo};
use flat_state::Settled;
use rv32_exec::Status;
use std::alloc::{AllocError, Global};
use std::marker::Model;

/// A report that is being written: first how the run is settled, and then a call for each space and for each
/// thread. A contract sees its text.
#[derive(Drop)]
pub struct ReportLines {
    alloc: Global,
    text: Vec<u8>,
}

impl Model for ReportLines {
    ghost use Rattle.std.specs.Prelude.{List, ℕ};

    ghost Value = { List ℕ };

    ghost view = { λ lines. lines.text.items };
}

impl ReportLines {
    /// The first two lines, of a run that is settled so after so many steps.
    #[tactic(auto, unfolding(crate::specs::Reports::heading))]
    pub fn new(alloc: Global, status: Settled, steps: u64) -> Result<ReportLines, AllocError>
        ensures { IfOk result (λ lines. lines ≡ heading status steps) }
    {
        let status = settled_text(status);
        let heading = format!(in alloc; "status {status}\nsteps {steps}\n")?;
        let text = Vec::from_slice(alloc, heading.as_bytes())?;
        Ok(ReportLines { alloc, text })
    }

    /// The line of a space: how many rows it has, and how many of them are referenced and modified. Want of memory
    /// leaves the text.
    pub fn space(
        &mut self,
        no: SpaceNo,
        rows: u64,
        referenced: u64,
        modified: u64,
    ) -> Result<(), AllocError>
        ensures ok { OnOk result (self.new ≡ self.old ++ counts_text no.0 rows referenced modified) }
        ensures err { OnErr result (self.new ≡ self.old) }
    {
        let line = space_line(self.alloc, no.0, rows, referenced, modified)?;
        self.text.extend_from_slice(line.as_bytes())
    }

    /// The line of a thread, and its output where it has any. `call` is the number in a7, which counts where the
    /// thread is in a call. Want of memory leaves the text.
    pub fn thread(
        &mut self,
        no: ThreadNo,
        status: Status,
        call: u32,
        output: &[u8],
    ) -> Result<(), AllocError>
        ensures ok { OnOk result (self.new ≡ self.old ++ thread_text no.0 status call output.now) }
        ensures err { OnErr result (self.new ≡ self.old) }
    {
        let lines = thread_lines(self.alloc, no, status, call, output)?;
        self.text.extend_from_slice(&lines)
    }

    /// All lines so far.
    pub fn bytes(&self) -> &[u8]
        ensures { result.now ≡ self.now }
    {
        self.text.as_slice()
    }

    /// All lines, without a copy.
    pub fn into_bytes(self) -> Vec<u8>
        ensures { result.items ≡ self }
    {
        let ReportLines { alloc: _, text } = self;
        text
    }
}

// How many rows there are of something, and which.
#[tactic(auto, unfolding(crate::specs::Reports::count_text))]
fn count_text(alloc: Global, what: &str, count: u64) -> Result<String, AllocError>
    ensures { IfOk result (λ text. string_bytes text ≡ count_text what.now count) }
{
    format!(in alloc; " {what} {count}")
}

#[tactic(auto, unfolding(crate::specs::Reports::counts_text))]
fn space_line(
    alloc: Global,
    no: u32,
    rows: u64,
    referenced: u64,
    modified: u64,
) -> Result<String, AllocError>
    ensures { IfOk result (λ line. string_bytes line ≡ counts_text no rows referenced modified) }
{
    let rows = count_text(alloc, "rows", rows)?;
    let referenced = count_text(alloc, "referenced", referenced)?;
    let modified = count_text(alloc, "modified", modified)?;
    format!(in alloc; "space {no}{rows}{referenced}{modified}\n")
}

#[tactic(auto, unfolding(crate::specs::Reports::thread_text))]
fn thread_lines(
    alloc: Global,
    no: ThreadNo,
    status: Status,
    call: u32,
    output: &[u8],
) -> Result<Vec<u8>, AllocError>
    ensures { IfOk result (λ v. v.items ≡ thread_text no.0 status call output.now) }
{
    let no = no.0;
    let state = state_text(alloc, status, call)?;
    let count = output.len();
    let line = format!(in alloc; "thread {no} {state} out {count}\n")?;
    let mut lines = Vec::from_slice(alloc, line.as_bytes())?;
    put_output(&mut lines, output)?;
    Ok(lines)
}

fn put_output(lines: &mut Vec<u8>, output: &[u8]) -> Result<(), AllocError>
    ensures { OnOk result (lines.new.items ≡ lines.old.items ++ output_text output.now) }
{
    if output.is_empty() {
        return Ok(());
    }
    lines.extend_from_slice(output)?;
    lines.push(b'\n')?;
    Ok(())
}

fn number_line(alloc: Global, what: &str, number: u64) -> Result<String, AllocError>
    ensures { IfOk result (λ line. string_bytes line ≡ number_line what.now number) }
{
    format!(in alloc; "{what} {number}\n")
}

#[tactic(auto, unfolding(crate::specs::Reports::summary_text))]
fn summary_lines(
    alloc: Global,
    seed: u32,
    status: &str,
    steps: u64,
    threads: u64,
    bytes: u64,
) -> Result<String, AllocError>
    ensures { IfOk result (λ lines. string_bytes lines ≡ summary_text seed status.now steps threads bytes) }
{
    let steps = number_line(alloc, "steps", steps)?;
    let threads = number_line(alloc, "threads", threads)?;
    let bytes = number_line(alloc, "bytes", bytes)?;
    format!(in alloc; "gen {seed} {status}\n{steps}{threads}{bytes}")
}

/// Four lines on the run of a scenario that was made from a number: how it is settled, after how many steps, how
/// many threads there are, and how many bytes all their outputs have together.
pub fn summary(
    alloc: Global,
    seed: u32,
    status: Settled,
    steps: u64,
    threads: u64,
    bytes: u64,
) -> Result<Vec<u8>, AllocError>
    requires { status ≢ Running }
    ensures { IfOk result (λ v. v.items ≡ summary_text seed (settled_text status) steps threads bytes) }
{
    let lines = summary_lines(alloc, seed, settled_text(status), steps, threads, bytes)?;
    Vec::from_slice(alloc, lines.as_bytes())
}
