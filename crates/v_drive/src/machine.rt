//! The whole run: from words and the bytes of a scenario with operations to the text that is due.

ghost use Rattle.std.specs.Prelude.{◌≡◌, ◌≢◌, ◌+◌, ◌∷◌, ◌^◌, ◌<◌, ◌≤◌, ◌++◌, List, ℕ, IfOk, Ok, Some, None, length, count_by};
ghost use Rattle.std.specs.String.{string_bytes};
ghost use Rattle.std.specs.Io.KnownBytes.{Appends, Keeps};
ghost use Rattle.byte_ports.specs.Faults.{HasRisen};
ghost use Rattle.byte_ports.specs.Whole.{AppendsFront};
ghost use Rattle.flat_state.specs.declared.events.Decl.{Decl};
ghost use Rattle.flat_state.specs.declared.events.Decl.TheVariants as declaration;
ghost use Rattle.flat_state.specs.declared.events.Machine.{Machine};
ghost use Rattle.flat_state.specs.Events.{AllFit};
ghost use Rattle.flat_state.specs.State.{nothing_declared};
ghost use Rattle.text_fields.specs.Lines.{is_feed};
ghost use Rattle.scenario_reader.specs.Openings.{opening};
ghost use Rattle.check_mode.specs.Parts.{journal_part, scenario_part};
ghost use Rattle.run_words.specs.Options.{steps_allowed};
ghost use Rattle.v_drive.specs.declared.endings.Ending.{Ending};
ghost use Rattle.due_text.specs.Inputs.{OnFailed, UnlessFailed, most_bytes};
ghost use Rattle.due_text.specs.Lines.{scenario_fault_line};
ghost use Rattle.v_drive.specs.Endings.{ComesOutOrNoMemory, IsAnswer, IsDue, IsDueBy, IsEnded, IsRefusal, OnNothingDue, OnReadFault, OnWriteFault, OnWritten, UnlessReadFault, UnlessWriteFault, first_number, operation_fault_line};

use crate::endings::Ending;
use crate::hand::Hand;
use board_opening::board_of;
use byte_ports::{Sink, Source, write_all};
use cache_board::Desk;
use check_mode::parts;
use due_text::{Input, NoText, read_input, scenario_fault_line, too_long_line};
use flat_state::Decl;
use run_words::{Words, WordsFault, read_steps};
use scenario_reader::{ScenarioFault, read_opening};
use std::alloc::{AllocError, Global};

const USAGE: &[u8] = b"usage: v_drive [--steps N]\n";

// A text that is due, and how the run came out.
#[derive(Drop)]
struct DueText {
    ending: Ending,
    text: Vec<u8>,
}

// A line that is due alone.
fn line(alloc: Global, ending: Ending, text: &[u8]) -> Result<DueText, AllocError>
    ensures ending { IfOk result (λ d. d.ending ≡ ending) }
    ensures text { IfOk result (λ d. d.text.items ≡ text.now) }
{
    let text = Vec::from_slice(alloc, text)?;
    Ok(DueText { ending, text })
}

fn operation_fault_line(alloc: Global, number: u64) -> Result<String, AllocError>
    ensures { IfOk result (λ line. string_bytes line ≡ operation_fault_line number) }
{
    format!(in alloc; "operation fault line {number}\n")
}

// The first fault of a text that declares no machine.
fn faulty(alloc: Global, number: u64, rule: u32) -> Result<DueText, AllocError>
    ensures ending { IfOk result (λ d. d.ending ≡ Ending.BadScenario number rule) }
    ensures text { IfOk result (λ d. d.text.items ≡ scenario_fault_line number rule) }
{
    let text = scenario_fault_line(alloc, number, rule)?;
    line(
        alloc,
        Ending::BadScenario { line: number, rule },
        text.as_bytes(),
    )
}

// How many lines a text ends.
fn feeds(text: &[u8]) -> u64
    ensures is { result ≡ count_by is_feed text.now }
    ensures few { result ≤ length text.now }
{
    let mut feeds = 0;
    for byte in text {
        if *byte == b'\n' {
            feeds += 1;
        }
    }
    feeds
}

// What is due for the answers so far, and the line that is no operation's, if there is one.
fn ended(alloc: Global, fault: Option<u64>, text: Vec<u8>) -> Result<DueText, AllocError>
    ensures { IfOk result (λ d. IsEnded fault text.items d.ending d.text.items) }
{
    match fault {
        None => Ok(DueText {
            ending: Ending::Done,
            text,
        }),
        Some(line) => {
            let mut text = text;
            let fault = operation_fault_line(alloc, line)?;
            text.extend_from_slice(fault.as_bytes())?;
            Ok(DueText {
                ending: Ending::BadOperation { line },
                text,
            })
        }
    }
}

// What is due for operations behind the declarations of an opening.
fn driven(
    alloc: Global,
    steps: u32,
    decls: &[Decl],
    lines: &[u8],
    number: u64,
) -> Result<DueText, AllocError>
    requires fit { AllFit nothing_declared decls.now }
    requires machine { (machine : Machine) × (rest : List Decl) × (decls.now ≡ declaration.Machine machine ∷ rest) }
    requires numbers { number + length lines.now < 2 ^ 64 }
    ensures { IfOk result (λ d. (input : List ℕ) → opening (scenario_part input) ≡ Ok decls.now → journal_part input ≡ lines.now → first_number input ≡ number
        → IsAnswer steps input d.ending d.text.items) }
{
    let board = board_of(alloc, decls, u64::from(steps))?;
    let desk = Desk::new(alloc)?;
    let text = Vec::new(alloc);
    let mut hand = Hand {
        alloc,
        board,
        desk,
        text,
    };
    let fault = hand.take_lines(lines, number)?;
    let Hand {
        alloc: _,
        board: _,
        desk: _,
        text,
    } = hand;
    ended(alloc, fault, text)
}

// What is due for the bytes of an input, read to their end.
fn due_for(alloc: Global, steps: u32, bytes: &[u8]) -> Result<DueText, NoText>
    ensures due { IfOk result (λ d. IsAnswer steps bytes.now d.ending d.text.items) }
    ensures unfailed { OnFailed result ⊥ }
{
    let (opening, rest) = parts(bytes);
    match read_opening(alloc, opening) {
        Ok(scenario) => {
            let number = feeds(opening) + 1;
            let due = driven(alloc, steps, scenario.decls(), rest, number)?;
            Ok(due)
        }
        Err(ScenarioFault::Bad { line, rule }) => Ok(faulty(alloc, line, rule)?),
        Err(ScenarioFault::NoMemory) => Err(NoText::NoMemory),
    }
}

// Reads the source to its end, and says what is due.
fn due_of<S: Source>(alloc: Global, steps: u32, source: &mut S) -> Result<DueText, NoText>
    ensures due { IfOk result (λ d. IsDueBy steps (S.bytes_left source.old) (S.bytes_left source.new) d.ending d.text.items) }
    ensures fault { OnFailed result (HasRisen (S.faults source.old) (S.faults source.new)) }
    ensures faultless { UnlessFailed result (S.faults source.new ≡ S.faults source.old) }
{
    match read_input(alloc, source)? {
        Input::Whole(bytes) => due_for(alloc, steps, &bytes),
        Input::TooLong => Ok(line(alloc, Ending::TooLong, too_long_line())?),
    }
}

// Reads the words and what they ask for, and says what is to be written.
fn due<S: Source>(alloc: Global, words: &Words, source: &mut S) -> Result<DueText, NoText>
    ensures due { IfOk result (λ d. IsDue words.now (S.bytes_left source.old) (S.bytes_left source.new) d.ending d.text.items) }
    ensures unread { steps_allowed words.now ≡ None → Keeps (S.bytes_left source.old) (S.bytes_left source.new) }
    ensures fault { OnFailed result (HasRisen (S.faults source.old) (S.faults source.new) × (steps_allowed words.now ≢ None)) }
    ensures faultless { UnlessFailed result (S.faults source.new ≡ S.faults source.old) }
{
    match read_steps(alloc, words) {
        Ok(steps) => due_of(alloc, steps, source),
        Err(WordsFault::Refused) => Ok(line(alloc, Ending::Usage, USAGE)?),
        Err(WordsFault::NoMemory) => Err(NoText::NoMemory),
    }
}

/// Reads a scenario, which needs no kernel, from the source up to its line `end`, and then operations, a line each, to the end
/// of the source; makes them on the board of that scenario, and writes the line of each answer to the sink. For a text that is
/// no scenario it writes its first fault, at the first line that is no operation's that line's number, and for words that
/// aren't taken the usage line. All text is made before the first write.
pub(crate) fn run_lines<S: Source, W: Sink>(
    alloc: Global,
    words: &Words,
    source: &mut S,
    sink: &mut W,
) -> Ending
    // What was written is the text that is due.
    ensures written { OnWritten result ((text : List ℕ)
        × IsDue words.now (S.bytes_left source.old) (S.bytes_left source.new) result text
        × Appends (W.bytes_held sink.old) (W.bytes_held sink.new) text) }

    // After a write fault it is the beginning of such a text.
    ensures write_fault { OnWriteFault result (HasRisen (W.faults sink.old) (W.faults sink.new)
        × ((ending : Ending) × (text : List ℕ)
        × IsDue words.now (S.bytes_left source.old) (S.bytes_left source.new) ending text
        × AppendsFront (W.bytes_held sink.old) (W.bytes_held sink.new) text)) }

    // The source is read only where the words are taken.
    ensures read_fault { OnReadFault result (HasRisen (S.faults source.old) (S.faults source.new)
        × (steps_allowed words.now ≢ None)) }
    ensures unread { steps_allowed words.now ≡ None → Keeps (S.bytes_left source.old) (S.bytes_left source.new) }
    ensures nothing_due { OnNothingDue result (Keeps (W.bytes_held sink.old) (W.bytes_held sink.new)) }
    ensures source_faults { UnlessReadFault result (S.faults source.new ≡ S.faults source.old) }
    ensures sink_faults { UnlessWriteFault result (W.faults sink.new ≡ W.faults sink.old) }

    // Words that aren't taken are refused.
    ensures refused { steps_allowed words.now ≡ None → IsRefusal result }

    // With words that are taken, what stands behind an opening is driven, and any other text that isn't too long is answered by
    // its first fault, unless an end fails or memory runs out.
    ensures complete { (limit : ℕ) → steps_allowed words.now ≡ Some limit → (input : List ℕ) → S.bytes_left source.old ≡ Some input → length input ≤ most_bytes
        → (HasRisen (S.faults source.old) (S.faults source.new) → ⊥)
        → (HasRisen (W.faults sink.old) (W.faults sink.new) → ⊥) → ComesOutOrNoMemory (opening (scenario_part input)) result }
{
    match due(alloc, words, source) {
        Err(NoText::ReadFault) => Ending::ReadFault,
        Err(NoText::NoMemory) => Ending::NoMemory,
        Ok(due) => match write_all(sink, &due.text) {
            Ok(()) => due.ending,
            Err(_) => Ending::WriteFault,
        },
    }
}
