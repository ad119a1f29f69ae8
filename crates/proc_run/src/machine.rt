//! The whole run.

ghost use Rattle.std.specs.Prelude.{◌≡◌, ◌≢◌, ◌∷◌, List, ℕ, IfOk, Some, None, true, false};
ghost use Rattle.std.specs.Io.KnownBytes.{Appends, Keeps};
ghost use Rattle.byte_ports.specs.Faults.{HasRisen};
ghost use Rattle.byte_ports.specs.Whole.{AppendsFront};
ghost use Rattle.flat_state.specs.State.{nothing_declared};
ghost use Rattle.flat_state.specs.declared.events.Decl.{Decl};
ghost use Rattle.flat_state.specs.declared.events.Decl.TheVariants as declaration;
ghost use Rattle.flat_state.specs.declared.events.Machine.{Machine};
ghost use Rattle.flat_state.specs.Events.{AllFit, flat};
ghost use Rattle.flat_state.specs.Settling.{settled_of};
ghost use Rattle.run_journal.specs.declared.entries.Entry.{Entry};
ghost use Rattle.run_journal.specs.Entries.{erase, steps_in};
ghost use Rattle.check_mode.specs.Answers.{IsChecked, HasLegalJournal};
ghost use Rattle.run_words.specs.declared.options.Options.{Options};
ghost use Rattle.run_words.specs.Options.{options};
ghost use Rattle.run_words.specs.Ranges.{cpus_range, frames_range, IsIn};
ghost use Rattle.proc_run.specs.declared.outcome.RunStatus.{RunStatus};
ghost use Rattle.proc_run.specs.declared.outcome.Kept.TheVariants.{Nothing};
ghost use Rattle.proc_run.specs.Outcomes.{IsDue, IsDueBy, IsAnswer, IsRunAnswer, IsCheckAnswer, IsPageAnswer, IsScenario, IsTold, IsFaultless, reads_source, OnWritten, OnWriteFault, OnReadFault, OnNothingDue, UnlessReadFault, UnlessWriteFault, ComesOutOrNoMemory, IsLegalAt, IsNoFault, IsRefusal, usage_line};
ghost use Rattle.due_text.specs.Inputs.{OnFailed, UnlessFailed};
ghost use Rattle.due_text.specs.Lines.{scenario_fault_line};
ghost use Rattle.proc_run.specs.Dues.{status_of};
ghost use Rattle.proc_run.specs.Running.{HasKernel};

use crate::outcome::{Kept, Outcome, RunStatus};
use crate::run::{Finished, run};
use crate::text::{Account, text};
use byte_ports::{Sink, Source, write_all};
use cache_ident::NoMemory;
use check_mode::{Checked, answer};
use due_text::{Input, NoText, read_input, scenario_fault_line, too_long_line};
use flat_state::{Decl, Settled};
use paged_run::{PagedRun, run_in_memory};
use processors::Gate;
use run_words::{Mode, Options, Words, WordsFault};
use scenario_gen::generate;
use scenario_reader::{ScenarioFault, read};
use std::alloc::{AllocError, Global};
use std::sync::Wait;
use std::thread::Threads;

const USAGE: &[u8] =
    b"usage: v_run [--mode run|journal|gen|check|page] [--cpus N] [--steps N] [--seed N] [--frames N]\n";

// A text that is due, with its status and what is kept.
#[derive(Drop)]
struct DueText {
    status: RunStatus,
    kept: Kept,
    text: Vec<u8>,
}

fn status_of(settled: Settled) -> RunStatus
    requires { settled ≢ Settled.Running }
    ensures { result ≡ status_of settled }
{
    match settled {
        Settled::Done => RunStatus::Done,
        Settled::Stalled => RunStatus::Stalled,
        Settled::Spent => RunStatus::Spent,
        Settled::Running => unreachable!(),
    }
}

// A line that is due alone.
fn line(alloc: Global, status: RunStatus, text: &[u8]) -> Result<DueText, AllocError>
    ensures status { IfOk result (λ d. d.status ≡ status) }
    ensures kept { IfOk result (λ d. d.kept ≡ Nothing) }
    ensures text { IfOk result (λ d. d.text.items ≡ text.now) }
{
    let text = Vec::from_slice(alloc, text)?;
    Ok(DueText {
        status,
        kept: Kept::Nothing,
        text,
    })
}

// The first fault of a text that is no scenario.
fn faulty(alloc: Global, number: u64, rule: u32) -> Result<DueText, AllocError>
    ensures status { IfOk result (λ d. d.status ≡ RunStatus.BadScenario number rule) }
    ensures kept { IfOk result (λ d. d.kept ≡ Nothing) }
    ensures text { IfOk result (λ d. d.text.items ≡ scenario_fault_line number rule) }
{
    let text = scenario_fault_line(alloc, number, rule)?;
    line(
        alloc,
        RunStatus::BadScenario { line: number, rule },
        text.as_bytes(),
    )
}

// What is due for the run of a scenario.
fn answered<R: Threads + Wait + Sync, G: Gate + Sync>(
    rt: &R,
    alloc: Global,
    account: Account,
    options: &Options,
    decls: &[Decl],
    gate: &G,
) -> Result<DueText, NoMemory>
    requires fit { AllFit nothing_declared decls.now }
    requires machine { (machine : Machine) × (rest : List Decl) × (decls.now ≡ declaration.Machine machine ∷ rest) }
    requires kernel { HasKernel decls.now }
    requires processors { IsIn cpus_range options.now.cpus }
    ensures { IfOk result (λ d. (bs : List ℕ) → IsScenario bs decls.now → IsRunAnswer account options.now.steps bs d.status d.kept d.text.items) }
{
    let run = run(
        rt,
        alloc,
        decls,
        options.cpus,
        u64::from(options.steps),
        gate,
    )?;
    let text = text(alloc, account, &run)?;
    let Finished { board, settled } = run;
    Ok(DueText {
        status: status_of(settled),
        kept: Kept::Board(board),
        text,
    })
}

// What is due for the run of a scenario whose bytes were read to their end.
fn due_for_run<R: Threads + Wait + Sync, G: Gate + Sync>(
    rt: &R,
    alloc: Global,
    account: Account,
    options: &Options,
    bytes: &[u8],
    gate: &G,
) -> Result<DueText, NoText>
    requires processors { IsIn cpus_range options.now.cpus }
    ensures due { IfOk result (λ d. IsRunAnswer account options.now.steps bytes.now d.status d.kept d.text.items) }
    ensures unfailed { OnFailed result ⊥ }
{
    match read(alloc, bytes) {
        Ok(scenario) => Ok(answered(rt, alloc, account, options, scenario.decls(), gate)?),
        Err(ScenarioFault::Bad { line, rule }) => Ok(faulty(alloc, line, rule)?),
        Err(ScenarioFault::NoMemory) => Err(NoText::NoMemory),
    }
}

// What is due for what a check found.
fn due_by_check(checked: Checked) -> DueText
    ensures { (limit : ℕ) (bs : List ℕ) → IsChecked bs limit checked → IsCheckAnswer limit bs result.status result.kept result.text.items }
{
    match checked {
        Checked::Yes {
            settled,
            journal,
            text,
        } => DueText {
            status: RunStatus::Checked { settled },
            kept: Kept::Journal(journal),
            text,
        },
        Checked::No {
            at,
            point,
            journal,
            text,
        } => DueText {
            status: RunStatus::NotLegal { at, point },
            kept: Kept::Journal(journal),
            text,
        },
        Checked::BadJournal { line, text } => DueText {
            status: RunStatus::BadJournal { line },
            kept: Kept::Nothing,
            text,
        },
    }
}

// What is due for the check of a scenario and a journal, whose bytes were read to their end.
fn due_for_check(alloc: Global, steps: u32, bytes: &[u8]) -> Result<DueText, NoText>
    ensures due { IfOk result (λ d. IsCheckAnswer steps bytes.now d.status d.kept d.text.items) }
    ensures unfailed { OnFailed result ⊥ }
{
    match answer(alloc, bytes, u64::from(steps)) {
        Ok(checked) => Ok(due_by_check(checked)),
        Err(ScenarioFault::Bad { line, rule }) => Ok(faulty(alloc, line, rule)?),
        Err(ScenarioFault::NoMemory) => Err(NoText::NoMemory),
    }
}

// What is due for the run of a scenario with so many frames.
fn paged(alloc: Global, frames: u32, steps: u32, decls: &[Decl]) -> Result<DueText, NoMemory>
    requires fit { AllFit nothing_declared decls.now }
    requires machine { (machine : Machine) × (rest : List Decl) × (decls.now ≡ declaration.Machine machine ∷ rest) }
    requires frames { IsIn frames_range frames }
    ensures { IfOk result (λ d. (bs : List ℕ) → IsScenario bs decls.now → IsPageAnswer steps bs d.status d.kept d.text.items) }
{
    let run = run_in_memory(alloc, decls, frames, u64::from(steps))?;
    let PagedRun {
        journal,
        settled,
        report,
    } = run;
    Ok(DueText {
        status: RunStatus::Paged { settled },
        kept: Kept::Journal(journal),
        text: report,
    })
}

// What is due for the run with so many frames of a scenario whose bytes were read to their end.
fn due_for_page(alloc: Global, frames: u32, steps: u32, bytes: &[u8]) -> Result<DueText, NoText>
    requires { IsIn frames_range frames }
    ensures due { IfOk result (λ d. IsPageAnswer steps bytes.now d.status d.kept d.text.items) }
    ensures unfailed { OnFailed result ⊥ }
{
    match read(alloc, bytes) {
        Ok(scenario) => Ok(paged(alloc, frames, steps, scenario.decls())?),
        Err(ScenarioFault::Bad { line, rule }) => Ok(faulty(alloc, line, rule)?),
        Err(ScenarioFault::NoMemory) => Err(NoText::NoMemory),
    }
}

// What is due for the bytes of an input, read to their end.
fn due_for<R: Threads + Wait + Sync, G: Gate + Sync>(
    rt: &R,
    alloc: Global,
    options: &Options,
    bytes: &[u8],
    gate: &G,
) -> Result<DueText, NoText>
    requires processors { IsIn cpus_range options.now.cpus }
    requires frames { IsIn frames_range options.now.frames }
    ensures due { IfOk result (λ d. IsAnswer options.now bytes.now d.status d.kept d.text.items) }
    ensures unfailed { OnFailed result ⊥ }
{
    let seed = options.seed;
    match options.mode {
        Mode::Run => due_for_run(rt, alloc, Account::Report, options, bytes, gate),
        Mode::Journal => due_for_run(rt, alloc, Account::Journal, options, bytes, gate),
        Mode::Gen => due_for_run(rt, alloc, Account::Summary { seed }, options, bytes, gate),
        Mode::Check => due_for_check(alloc, options.steps, bytes),
        Mode::Page => due_for_page(alloc, options.frames, options.steps, bytes),
    }
}

// Reads the source to its end, and says what is due.
fn due_of<R: Threads + Wait + Sync, S: Source, G: Gate + Sync>(
    rt: &R,
    alloc: Global,
    options: &Options,
    source: &mut S,
    gate: &G,
) -> Result<DueText, NoText>
    requires processors { IsIn cpus_range options.now.cpus }
    requires reads { reads_source (Some options.now) ≡ true }
    requires frames { IsIn frames_range options.now.frames }
    ensures due { IfOk result (λ d. IsDueBy options.now (S.bytes_left source.old) (S.bytes_left source.new) d.status d.kept d.text.items) }
    ensures fault { OnFailed result (HasRisen (S.faults source.old) (S.faults source.new)) }
    ensures faultless { UnlessFailed result (S.faults source.new ≡ S.faults source.old) }
{
    match read_input(alloc, source)? {
        Input::Whole(bytes) => due_for(rt, alloc, options, &bytes, gate),
        Input::TooLong => Ok(line(alloc, RunStatus::TooLong, too_long_line())?),
    }
}

// Says what is due by the words that were taken.
fn due_by<R: Threads + Wait + Sync, S: Source, G: Gate + Sync>(
    rt: &R,
    alloc: Global,
    options: &Options,
    source: &mut S,
    gate: &G,
) -> Result<DueText, NoText>
    requires processors { IsIn cpus_range options.now.cpus }
    requires frames { IsIn frames_range options.now.frames }
    ensures due { IfOk result (λ d. IsDueBy options.now (S.bytes_left source.old) (S.bytes_left source.new) d.status d.kept d.text.items) }
    ensures unread { reads_source (Some options.now) ≡ false → Keeps (S.bytes_left source.old) (S.bytes_left source.new) }
    ensures fault { OnFailed result (HasRisen (S.faults source.old) (S.faults source.new) × (reads_source (Some options.now) ≡ true)) }
    ensures faultless { UnlessFailed result (S.faults source.new ≡ S.faults source.old) }
{
    match options.mode {
        Mode::Run | Mode::Journal | Mode::Check | Mode::Page => {
            due_of(rt, alloc, options, source, gate)
        }
        Mode::Gen => due_for(rt, alloc, options, &generate(alloc, options.seed)?, gate),
    }
}

// Reads the words and what they ask for, and says what is to be written.
fn due<R: Threads + Wait + Sync, S: Source, G: Gate + Sync>(
    rt: &R,
    alloc: Global,
    words: &Words,
    source: &mut S,
    gate: &G,
) -> Result<DueText, NoText>
    ensures due { IfOk result (λ d. IsDue words.now (S.bytes_left source.old) (S.bytes_left source.new) d.status d.kept d.text.items) }
    ensures unread { reads_source (options words.now) ≡ false → Keeps (S.bytes_left source.old) (S.bytes_left source.new) }
    ensures fault { OnFailed result (HasRisen (S.faults source.old) (S.faults source.new) × (reads_source (options words.now) ≡ true)) }
    ensures faultless { UnlessFailed result (S.faults source.new ≡ S.faults source.old) }
{
    match run_words::read(alloc, words) {
        Ok(options) => due_by(rt, alloc, &options, source, gate),
        Err(WordsFault::Refused) => Ok(line(alloc, RunStatus::Usage, USAGE)?),
        Err(WordsFault::NoMemory) => Err(NoText::NoMemory),
    }
}

/// Reads a scenario from the source to its end, or makes it from the seed in mode gen, runs it on a board with caches
/// until all its threads have ended, none can go on, or it has taken the steps that the words allow,
/// by as many processors side by side as the words ask for, and writes the text of the mode to the sink. In mode check it reads a
/// journal behind the scenario, and writes whether it is legal, with the report of what it leaves, or where it isn't. In mode page it
/// runs the scenario with few frames, and writes the report. For a text that is no scenario it writes its first fault, and for words
/// that aren't taken the usage line. All text is made before the first write.
///
/// It costs the steps, each of them the logarithm of the rows, a pass over the threads for each entry of the journal,
/// and memory for the scenario, the machine, the journal and the text. A quantum is one entry of the journal, and so is a completed call.
/// At worst each step is healed: then there are some 43 entries for each, with those for what is loaded and what leaves.
/// Where there are several processors each of them tells the gate where it stands. They wait for the board, and no clause says that
/// they end. One alone takes no lock, and starts no thread.
pub fn run_machine<R: Threads + Wait + Sync, S: Source, W: Sink, G: Gate + Sync>(
    rt: &R,
    alloc: Global,
    words: &Words,
    source: &mut S,
    sink: &mut W,
    gate: &G,
) -> Outcome
    // What was written is the text that is due.
    ensures written { OnWritten result.status ((text : List ℕ)
        × IsDue words.now (S.bytes_left source.old) (S.bytes_left source.new) result.status result.kept text
        × Appends (W.bytes_held sink.old) (W.bytes_held sink.new) text) }

    // After a write fault it is the beginning of such a text.
    ensures write_fault { OnWriteFault result.status (HasRisen (W.faults sink.old) (W.faults sink.new)
        × ((status : RunStatus) × (text : List ℕ)
        × IsDue words.now (S.bytes_left source.old) (S.bytes_left source.new) status result.kept text
        × AppendsFront (W.bytes_held sink.old) (W.bytes_held sink.new) text)) }

    // The source is read only where the words are taken, and ask for it.
    ensures read_fault { OnReadFault result.status (HasRisen (S.faults source.old) (S.faults source.new)
        × (reads_source (options words.now) ≡ true)) }
    ensures unread { reads_source (options words.now) ≡ false → Keeps (S.bytes_left source.old) (S.bytes_left source.new) }
    ensures nothing_due { OnNothingDue result.status ((result.kept ≡ Nothing)
        × Keeps (W.bytes_held sink.old) (W.bytes_held sink.new)) }
    ensures source_faults { UnlessReadFault result.status (S.faults source.new ≡ S.faults source.old) }
    ensures sink_faults { UnlessWriteFault result.status (W.faults sink.new ≡ W.faults sink.old) }

    // Words that aren't taken are refused.
    ensures refused { options words.now ≡ None → IsRefusal result.status }

    // With words that are taken, a scenario runs to its end, or what stands behind it is checked, and any other text that isn't
    // too long is answered by its first fault, unless an end fails or memory runs out.
    ensures complete { (o : Options) → options words.now ≡ Some o → (text : List ℕ) → IsTold o (S.bytes_left source.old) text
        → IsFaultless o (HasRisen (S.faults source.old) (S.faults source.new))
        → (HasRisen (W.faults sink.old) (W.faults sink.new) → ⊥) → ComesOutOrNoMemory o.mode text result.status }

    // In mode gen no first fault is answered, since the text of every seed is a scenario.
    ensures generated { (o : Options) → options words.now ≡ Some o → o.mode ≡ Mode.Gen → IsNoFault result.status }

    // In mode check a legal journal behind its scenario is found legal, and how its run stands, unless an end fails or memory
    // runs out.
    ensures legal { (o : Options) → options words.now ≡ Some o → o.mode ≡ Mode.Check → (text : List ℕ) → IsTold o (S.bytes_left source.old) text
        → IsFaultless o (HasRisen (S.faults source.old) (S.faults source.new))
        → (HasRisen (W.faults sink.old) (W.faults sink.new) → ⊥) → (ds : List Decl) (j : List Entry) → HasLegalJournal text ds j
        → IsLegalAt (settled_of (flat (erase j)) (steps_in j) o.steps) result.status }
{
    match due(rt, alloc, words, source, gate) {
        Err(NoText::ReadFault) => Outcome {
            status: RunStatus::ReadFault,
            kept: Kept::Nothing,
        },
        Err(NoText::NoMemory) => Outcome {
            status: RunStatus::NoMemory,
            kept: Kept::Nothing,
        },
        Ok(due) => {
            let DueText { status, kept, text } = due;
            match write_all(sink, &text) {
                Ok(()) => Outcome { status, kept },
                Err(_) => Outcome {
                    status: RunStatus::WriteFault,
                    kept,
                },
            }
        }
    }
}
