//! The line of an answer.

ghost use Rattle.std.specs.Prelude.{◌≡◌, ◌++◌, IfOk, OnOk, OnErr};
ghost use Rattle.std.specs.String.{string_bytes};
ghost use Rattle.drive_text.specs.Answers.{thread_text, paused_text, answer_text, answer_line};

use crate::NoMemory;
use crate::refusals::refused_text;
use board_ops::Answer;
use cache_ident::ThreadNo;
use quantum::Paused;
use report_text::{access_text, reason_text, word_text};
use std::alloc::Global;

// The number of a thread, or `-` for none.
fn thread_text(alloc: Global, thread: Option<ThreadNo>) -> Result<String, NoMemory>
    ensures { IfOk result (λ text. string_bytes text ≡ thread_text thread) }
{
    match thread {
        Some(thread) => format!(in alloc; "{}", thread.0),
        None => String::from_str(alloc, "-"),
    }
}

// Why a quantum stands.
fn paused_text(alloc: Global, paused: Paused) -> Result<String, NoMemory>
    ensures { IfOk result (λ text. string_bytes text ≡ paused_text paused) }
{
    match paused {
        Paused::Limit => String::from_str(alloc, "limit"),
        Paused::Call => String::from_str(alloc, "call"),
        Paused::Stopped(reason) => reason_text(alloc, reason),
        Paused::Miss { va, access } => {
            let va = word_text(alloc, va)?;
            let access = access_text(access);
            format!(in alloc; "miss {va} {access}")
        }
        Paused::Signal => String::from_str(alloc, "signal"),
    }
}

fn answer_text(alloc: Global, answer: &Answer) -> Result<String, NoMemory>
    ensures { IfOk result (λ text. string_bytes text ≡ answer_text answer.now) }
{
    match *answer {
        Answer::Did => String::from_str(alloc, "did"),
        Answer::Loaded(ident) => format!(in alloc; "loaded {ident}"),
        Answer::Out(thread) => {
            let thread = thread_text(alloc, thread)?;
            format!(in alloc; "out {thread}")
        }
        Answer::Paused(paused) => {
            let paused = paused_text(alloc, paused)?;
            format!(in alloc; "paused {paused}")
        }
        Answer::Stepped(steps) => format!(in alloc; "stepped {steps}"),
        Answer::Refused(refused) => {
            let refused = refused_text(alloc, refused)?;
            format!(in alloc; "refused {refused}")
        }
        Answer::NoTicket => String::from_str(alloc, "no ticket"),
        Answer::NoView => String::from_str(alloc, "no view"),
        Answer::NoCpu => String::from_str(alloc, "no cpu"),
    }
}

/// Adds the line of an answer, with its line feed. Want of memory leaves the text. It takes time for that line alone,
/// but where the text moves to more memory.
pub fn put_answer(alloc: Global, out: &mut Vec<u8>, answer: &Answer) -> Result<(), NoMemory>
    ensures ok { OnOk result (out.new.items ≡ out.old.items ++ answer_line answer.now) }
    ensures err { OnErr result (out.new.items ≡ out.old.items) }
{
    let text = answer_text(alloc, answer)?;
    let line = format!(in alloc; "{text}\n")?;
    out.extend_from_slice(line.as_bytes())
}
