//! The line of a declaration, and the lines of a scenario.

ghost use Rattle.std.specs.Prelude.{◌≡◌, ◌++◌, ◌<◌, map, length, IfOk, OnOk, Ok};
ghost use Rattle.std.specs.Fmt.{decimal};
ghost use Rattle.std.specs.List.{AllByRecursion};
ghost use Rattle.flat_state.specs.State.{nothing_declared};
ghost use Rattle.flat_state.specs.Events.{AllFit, after_declarations};
ghost use Rattle.text_fields.specs.Numbers.{word_text};
ghost use Rattle.journal_text.specs.Ranges.{AreCapsInRange, IsDeclInRange, IsReceiverInRange, IsSmall};
ghost use Rattle.scenario_reader.specs.Scenarios.{scenario as declared_by};
ghost use Rattle.scenario_print.specs.Texts.{amounts, decl_text, numbers, scenario_text, signal_text, spaced};

use cache_ident::{Caps, NoMemory, ThreadNo};
use flat_state::Decl;
use itoa::Buffer;
use journal_text::{put_flags, put_rights};
use scenario_reader::Scenario;
use std::alloc::Global;
use text_fields::put_word;

// A space and a field.
fn put(out: &mut Vec<u8>, field: &[u8]) -> Result<(), NoMemory>
    ensures { OnOk result (out.new.items ≡ out.old.items ++ spaced field.now) }
{
    out.push(b' ')?;
    out.extend_from_slice(field)
}

fn put_number(out: &mut Vec<u8>, value: u32) -> Result<(), NoMemory>
    ensures text { OnOk result (out.new.items ≡ out.old.items ++ spaced (decimal value)) }
{
    let mut buffer = Buffer::new();
    put(out, buffer.format(value).as_bytes())
}

// A word, and then numbers.
#[tactic(auto, unfolding(crate::specs::Texts::numbers))]
fn put_numbers(out: &mut Vec<u8>, word: &[u8], values: &[u32]) -> Result<(), NoMemory>
    ensures text { OnOk result (out.new.items ≡ out.old.items ++ numbers word.now values.now) }
    ensures small { OnOk result (AllByRecursion IsSmall values.now) }
{
    out.extend_from_slice(word)?;
    for value in values {
        put_number(out, *value)?;
    }
    Ok(())
}

fn put_amounts(out: &mut Vec<u8>, word: &[u8], caps: Caps) -> Result<(), NoMemory>
    ensures text { OnOk result (out.new.items ≡ out.old.items ++ numbers word.now (amounts caps)) }
    ensures small { OnOk result (AreCapsInRange caps) }
{
    put_numbers(
        out,
        word,
        &[caps.kernels, caps.spaces, caps.threads, caps.mappings],
    )
}

#[tactic(auto, unfolding(crate::specs::Texts::signal_text))]
fn put_signal(out: &mut Vec<u8>, receiver: Option<ThreadNo>) -> Result<(), NoMemory>
    ensures text { OnOk result (out.new.items ≡ out.old.items ++ signal_text receiver) }
    ensures small { OnOk result (IsReceiverInRange receiver) }
{
    match receiver {
        Some(thread) => put_numbers(out, b" signal", &[thread.0]),
        None => Ok(()),
    }
}

// A space and a word.
fn put_value(out: &mut Vec<u8>, value: u32) -> Result<(), NoMemory>
    ensures text { OnOk result (out.new.items ≡ out.old.items ++ spaced (word_text value)) }
    ensures small { IsSmall value }
{
    out.push(b' ')?;
    put_word(out, value)
}

#[tactic(auto, unfolding(crate::specs::Texts::decl_text))]
fn put_decl(out: &mut Vec<u8>, decl: &Decl) -> Result<(), NoMemory>
    ensures line { OnOk result (out.new.items ≡ out.old.items ++ decl_text decl.now) }
    ensures range { OnOk result (IsDeclInRange decl.now) }
{
    match *decl {
        Decl::Machine { machine } => {
            put_numbers(out, b"mem", &[machine.groups])?;
            put_amounts(out, b"\ncaps", machine.caps)?;
        }
        Decl::Kernel { no, limits } => {
            put_numbers(out, b"kernel", &[no.0])?;
            put_amounts(out, b" locks", limits)?;
        }
        Decl::Right {
            kernel,
            group,
            read,
            write,
        } => {
            put_numbers(out, b"right", &[kernel.0, group])?;
            out.push(b' ')?;
            put_rights(out, read, write)?;
        }
        Decl::Space { no, kernel } => put_numbers(out, b"space", &[no.0, kernel.0])?,
        Decl::Thread {
            no,
            space,
            pc,
            priority,
            a0,
            a1,
        } => {
            put_numbers(out, b"thread", &[no.0, space.0, pc])?;
            put_numbers(out, b" prio", &[priority])?;
            put_numbers(out, b" a0", &[a0])?;
            put_numbers(out, b" a1", &[a1])?;
        }
        Decl::Map {
            space,
            vpn,
            frame,
            flags,
            receiver,
        } => {
            put_numbers(out, b"map", &[space.0, vpn.0, frame.0])?;
            out.push(b' ')?;
            put_flags(out, flags)?;
            put_signal(out, receiver)?;
        }
        Decl::Word {
            frame,
            offset,
            value,
        } => {
            put_numbers(out, b"word", &[frame.0, offset])?;
            put_value(out, value)?;
        }
    }
    out.extend_from_slice(b"\n")
}

/// A text that declares the same: a line for each declaration, two for the machine, and the line `end` with its line feed
/// as the last. It costs one pass. Words that stood in one line, in code or in an executable have a line each.
pub fn print(alloc: Global, scenario: &Scenario) -> Result<Vec<u8>, NoMemory>
    ensures text { IfOk result (λ text. text.items ≡ scenario_text scenario.now) }
    ensures range { OnOk result (AllByRecursion IsDeclInRange scenario.now) }

    // What was read once is read again.
    ensures again { IfOk result (λ text. AllFit nothing_declared scenario.now → 0 < length (after_declarations nothing_declared scenario.now).kernels → declared_by text.items ≡ Ok scenario.now) }
{
    let mut text = Vec::new(alloc);
    for decl in scenario.decls() {
        put_decl(&mut text, decl)?;
    }
    text.extend_from_slice(b"end\n")?;
    Ok(text)
}
