//! The whole run: from words and the bytes of a scenario with a journal to the page that is due.

ghost use Rattle.std.specs.Prelude.{◌≡◌, ◌≢◌, ◌≤◌, List, ℕ, IfOk, Some, None, length};
ghost use Rattle.std.specs.Io.KnownBytes.{Appends, Keeps};
ghost use Rattle.byte_ports.specs.Faults.{HasRisen};
ghost use Rattle.byte_ports.specs.Whole.{AppendsFront};
ghost use Rattle.scenario_reader.specs.Scenarios.{scenario};
ghost use Rattle.check_mode.specs.Parts.{scenario_part};
ghost use Rattle.v_show.specs.declared.endings.Ending.{Ending};
ghost use Rattle.v_show.specs.declared.options.Options.{Options};
ghost use Rattle.due_text.specs.Inputs.{OnFailed, UnlessFailed, most_bytes};
ghost use Rattle.due_text.specs.Lines.{scenario_fault_line};
ghost use Rattle.v_show.specs.Endings.{ComesOutOrNoMemory, IsAnswer, IsDrawn, IsDue, IsDueBy, IsDueFor, IsRefusal, OnNothingDue, OnReadFault, OnWriteFault, OnWritten, UnlessReadFault, UnlessWriteFault};
ghost use Rattle.v_show.specs.Words.{options};

use crate::endings::Ending;
use crate::options::{Options, read};
use byte_ports::{Sink, Source, write_all};
use check_mode::{Checked, answer};
use due_text::{Input, NoText, read_input, scenario_fault_line, too_long_line};
use journal_picture::{Judged, Part, picture};
use run_journal::Journal;
use run_words::{Words, WordsFault};
use scenario_reader::ScenarioFault;
use std::alloc::{AllocError, Global};

const USAGE: &[u8] = b"usage: v_show [--from N] [--to N] [--steps N]\n";

// A text that is due, and how the run came out.
#[derive(Drop)]
struct DueText {
    ending: Ending,
    text: Vec<u8>,
}

// A line that is due alone.
fn line(alloc: Global, ending: Ending, text: &[u8]) -> Result<DueText, AllocError>
    ensures ending { IfOk result (λ d. d.ending ≡ ending) }
    ensures text { IfOk result (λ d. d.text.items ≡ text.now) }
{
    let text = Vec::from_slice(alloc, text)?;
    Ok(DueText { ending, text })
}

// The first fault of a text that is no scenario.
fn faulty(alloc: Global, number: u64, rule: u32) -> Result<DueText, AllocError>
    ensures ending { IfOk result (λ d. d.ending ≡ Ending.BadScenario number rule) }
    ensures text { IfOk result (λ d. d.text.items ≡ scenario_fault_line number rule) }
{
    let text = scenario_fault_line(alloc, number, rule)?;
    line(
        alloc,
        Ending::BadScenario { line: number, rule },
        text.as_bytes(),
    )
}

// The page of a journal.
fn drawn(
    alloc: Global,
    journal: &Journal,
    judged: Judged,
    part: Part,
) -> Result<DueText, AllocError>
    ensures { IfOk result (λ d. IsDrawn part journal.now.entries judged d.ending d.text.items) }
{
    let text = picture(alloc, journal, judged, part)?;
    let ending = match judged {
        Judged::Legal(_) => Ending::Legal,
        Judged::Broken { .. } => Ending::Broken,
    };
    Ok(DueText { ending, text })
}

// What is due for what the check found.
fn shown(alloc: Global, checked: Checked, part: Part) -> Result<DueText, AllocError>
    ensures { IfOk result (λ d. IsDueFor part checked d.ending d.text.items) }
{
    match checked {
        Checked::Yes {
            settled,
            journal,
            ..
        } => drawn(alloc, &journal, Judged::Legal(settled), part),
        Checked::No {
            at,
            point,
            journal,
            ..
        } => drawn(alloc, &journal, Judged::Broken { at, point }, part),
        Checked::BadJournal { line, text } => Ok(DueText {
            ending: Ending::BadJournal { line },
            text,
        }),
    }
}

// What is due for the bytes of an input, read to their end.
fn due_for(alloc: Global, options: Options, bytes: &[u8]) -> Result<DueText, NoText>
    ensures due { IfOk result (λ d. IsAnswer options bytes.now d.ending d.text.items) }
    ensures unfailed { OnFailed result ⊥ }
{
    match answer(alloc, bytes, u64::from(options.steps)) {
        Ok(checked) => Ok(shown(alloc, checked, options.part)?),
        Err(ScenarioFault::Bad { line, rule }) => Ok(faulty(alloc, line, rule)?),
        Err(ScenarioFault::NoMemory) => Err(NoText::NoMemory),
    }
}

// Reads the source to its end, and says what is due.
fn due_of<S: Source>(alloc: Global, options: Options, source: &mut S) -> Result<DueText, NoText>
    ensures due { IfOk result (λ d. IsDueBy options (S.bytes_left source.old) (S.bytes_left source.new) d.ending d.text.items) }
    ensures fault { OnFailed result (HasRisen (S.faults source.old) (S.faults source.new)) }
    ensures faultless { UnlessFailed result (S.faults source.new ≡ S.faults source.old) }
{
    match read_input(alloc, source)? {
        Input::Whole(bytes) => due_for(alloc, options, &bytes),
        Input::TooLong => Ok(line(alloc, Ending::TooLong, too_long_line())?),
    }
}

// Reads the words and what they ask for, and says what is to be written.
fn due<S: Source>(alloc: Global, words: &Words, source: &mut S) -> Result<DueText, NoText>
    ensures due { IfOk result (λ d. IsDue words.now (S.bytes_left source.old) (S.bytes_left source.new) d.ending d.text.items) }
    ensures unread { options words.now ≡ None → Keeps (S.bytes_left source.old) (S.bytes_left source.new) }
    ensures fault { OnFailed result (HasRisen (S.faults source.old) (S.faults source.new) × (options words.now ≢ None)) }
    ensures faultless { UnlessFailed result (S.faults source.new ≡ S.faults source.old) }
{
    match read(alloc, words) {
        Ok(options) => due_of(alloc, options, source),
        Err(WordsFault::Refused) => Ok(line(alloc, Ending::Usage, USAGE)?),
        Err(WordsFault::NoMemory) => Err(NoText::NoMemory),
    }
}

/// Reads a scenario with a journal behind it from the source, as mode check does, and writes the page of the journal to the sink. For
/// a text that is no scenario it writes its first fault, for one with no journal behind it the line that is none, and for words that
/// aren't taken the usage line. All text is made before the first write.
pub(crate) fn run_show<S: Source, W: Sink>(
    alloc: Global,
    words: &Words,
    source: &mut S,
    sink: &mut W,
) -> Ending
    // What was written is the text that is due.
    ensures written { OnWritten result ((text : List ℕ)
        × IsDue words.now (S.bytes_left source.old) (S.bytes_left source.new) result text
        × Appends (W.bytes_held sink.old) (W.bytes_held sink.new) text) }

    // After a write fault it is the beginning of such a text.
    ensures write_fault { OnWriteFault result (HasRisen (W.faults sink.old) (W.faults sink.new)
        × ((ending : Ending) × (text : List ℕ)
        × IsDue words.now (S.bytes_left source.old) (S.bytes_left source.new) ending text
        × AppendsFront (W.bytes_held sink.old) (W.bytes_held sink.new) text)) }

    // The source is read only where the words are taken.
    ensures read_fault { OnReadFault result (HasRisen (S.faults source.old) (S.faults source.new)
        × (options words.now ≢ None)) }
    ensures unread { options words.now ≡ None → Keeps (S.bytes_left source.old) (S.bytes_left source.new) }
    ensures nothing_due { OnNothingDue result (Keeps (W.bytes_held sink.old) (W.bytes_held sink.new)) }
    ensures source_faults { UnlessReadFault result (S.faults source.new ≡ S.faults source.old) }
    ensures sink_faults { UnlessWriteFault result (W.faults sink.new ≡ W.faults sink.old) }

    // Words that aren't taken are refused.
    ensures refused { options words.now ≡ None → IsRefusal result }

    // With words that are taken, what stands behind a scenario is checked, and any other text that isn't too long is answered by its
    // first fault, unless an end fails or memory runs out.
    ensures complete { (o : Options) → options words.now ≡ Some o → (input : List ℕ) → S.bytes_left source.old ≡ Some input → length input ≤ most_bytes
        → (HasRisen (S.faults source.old) (S.faults source.new) → ⊥)
        → (HasRisen (W.faults sink.old) (W.faults sink.new) → ⊥) → ComesOutOrNoMemory (scenario (scenario_part input)) result }
{
    match due(alloc, words, source) {
        Ok(due) => match write_all(sink, &due.text) {
            Ok(()) => due.ending,
            Err(_) => Ending::WriteFault,
        },
        Err(NoText::ReadFault) => Ending::ReadFault,
        Err(NoText::NoMemory) => Ending::NoMemory,
    }
}
