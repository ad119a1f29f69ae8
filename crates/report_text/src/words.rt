//! What a run, a thread and a fault are called.

ghost use Rattle.std.specs.Prelude.{◌≡◌, IfOk};
ghost use Rattle.std.specs.String.{string_bytes};
ghost use Rattle.report_text.specs.Reports.{word_text, settled_text, kind_text, access_text, misaligned_text, reason_text, state_text};

use flat_state::Settled;
use rv32_exec::{Access, FaultKind, Misaligned, Reason, Status};
use std::alloc::{AllocError, Global};

pub(crate) fn settled_text(settled: Settled) -> &'static str
    ensures { result.now ≡ settled_text settled }
{
    match settled {
        Settled::Done => "done",
        Settled::Stalled => "stalled",
        Settled::Spent => "spent",
        Settled::Running => "running",
    }
}

fn kind_text(kind: FaultKind) -> &'static str
    ensures { result.now ≡ kind_text kind }
{
    match kind {
        FaultKind::Page => "page",
        FaultKind::Flags => "flags",
        FaultKind::Rights => "rights",
    }
}

/// What an access is called: `fetch`, `read` or `write`.
pub fn access_text(access: Access) -> &'static str
    ensures { result.now ≡ access_text access }
{
    match access {
        Access::Fetch => "fetch",
        Access::Read => "read",
        Access::Write => "write",
    }
}

fn misaligned_text(what: Misaligned) -> &'static str
    ensures { result.now ≡ misaligned_text what }
{
    match what {
        Misaligned::Jump => "jump",
        Misaligned::Load => "load",
        Misaligned::Store => "store",
    }
}

/// A word or an address: `0x` and eight hexadecimal digits in lower case.
pub fn word_text(alloc: Global, word: u32) -> Result<String, AllocError>
    ensures { IfOk result (λ text. string_bytes text ≡ word_text word) }
{
    let digits = hex::encode(alloc, word.to_be_bytes())?;
    format!(in alloc; "0x{digits}")
}

/// Why a thread has ended, as `exit 0` or `fault page fetch 0x00004000`.
pub fn reason_text(alloc: Global, reason: Reason) -> Result<String, AllocError>
    ensures { IfOk result (λ text. string_bytes text ≡ reason_text reason) }
{
    match reason {
        Reason::Exited { code } => format!(in alloc; "exit {code}"),
        Reason::Fault { kind, access, va } => {
            let kind = kind_text(kind);
            let access = access_text(access);
            let va = word_text(alloc, va)?;
            format!(in alloc; "fault {kind} {access} {va}")
        }
        Reason::Illegal { word } => {
            let word = word_text(alloc, word)?;
            format!(in alloc; "illegal {word}")
        }
        Reason::Misaligned { what, va } => {
            let what = misaligned_text(what);
            let va = word_text(alloc, va)?;
            format!(in alloc; "misaligned {what} {va}")
        }
        Reason::Breakpoint => String::from_str(alloc, "break"),
        Reason::BadCall { number } => format!(in alloc; "badcall {number}"),
    }
}

/// Where a thread stands, and in which call where it is in one.
pub(crate) fn state_text(alloc: Global, status: Status, call: u32) -> Result<String, AllocError>
    ensures { IfOk result (λ text. string_bytes text ≡ state_text status call) }
{
    match status {
        Status::Ready => String::from_str(alloc, "ready"),
        Status::Trapped => format!(in alloc; "call {call}"),
        Status::Ended(reason) => reason_text(alloc, reason),
    }
}
