//! The text of a refusal.

ghost use Rattle.std.specs.Prelude.{◌≡◌, IfOk};
ghost use Rattle.std.specs.String.{string_bytes};
ghost use Rattle.drive_text.specs.Answers.{kind_text, status_text, named_text, cpu_text, refused_text};

use crate::NoMemory;
use board_ops::Refused;
use cache_ident::{Kind, Name};
use report_text::reason_text;
use rv32_exec::Status;
use std::alloc::Global;

fn kind_text(kind: Kind) -> &'static str
    ensures { result.now ≡ kind_text kind }
{
    match kind {
        Kind::Kernel => "kernel",
        Kind::Space => "space",
        Kind::Thread => "thread",
        Kind::Mapping => "row",
    }
}

fn status_text(alloc: Global, status: Status) -> Result<String, NoMemory>
    ensures { IfOk result (λ text. string_bytes text ≡ status_text status) }
{
    match status {
        Status::Ready => String::from_str(alloc, "ready"),
        Status::Trapped => String::from_str(alloc, "trapped"),
        Status::Ended(reason) => reason_text(alloc, reason),
    }
}

// A name, or `-` for none.
fn named_text(alloc: Global, name: Option<Name>) -> Result<String, NoMemory>
    ensures { IfOk result (λ text. string_bytes text ≡ named_text name) }
{
    match name {
        Some(name) => format!(in alloc; "{name}"),
        None => String::from_str(alloc, "-"),
    }
}

fn cpu_text(alloc: Global, cpu: Option<u32>) -> Result<String, NoMemory>
    ensures { IfOk result (λ text. string_bytes text ≡ cpu_text cpu) }
{
    match cpu {
        Some(cpu) => format!(in alloc; "{cpu}"),
        None => String::from_str(alloc, "-"),
    }
}

/// The name of the refusal in small words, and its fields.
pub(crate) fn refused_text(alloc: Global, refused: Refused) -> Result<String, NoMemory>
    ensures { IfOk result (λ text. string_bytes text ≡ refused_text refused) }
{
    match refused {
        Refused::NoMemory => String::from_str(alloc, "no memory"),
        Refused::Unknown { ident } => format!(in alloc; "unknown {ident}"),
        Refused::Stale { ident, at } => format!(in alloc; "stale {ident} {at}"),
        Refused::WrongKind { ident } => format!(in alloc; "wrong kind {ident}"),
        Refused::NotDeclared { name } => format!(in alloc; "not declared {name}"),
        Refused::NotOwner { given, owner } => {
            format!(in alloc; "not owner {} {}", given.0, owner.0)
        }
        Refused::WrongParent { given, declared } => {
            let given = named_text(alloc, given)?;
            let declared = named_text(alloc, declared)?;
            format!(in alloc; "wrong parent {given} {declared}")
        }
        Refused::AlreadyLoaded { ident } => format!(in alloc; "already loaded {ident}"),
        Refused::Rights { frame, group } => format!(in alloc; "rights {} {group}", frame.0),
        Refused::ReceiversAbsent { space, vpn } => {
            format!(in alloc; "receivers absent {} {}", space.0, vpn.0)
        }
        Refused::LimitReached {
            kernel,
            kind,
            limit,
        } => format!(in alloc; "limit reached {} {} {limit}", kernel.0, kind_text(kind)),
        Refused::FirstKernel => String::from_str(alloc, "first kernel"),
        Refused::NotTrapped { status } => {
            let status = status_text(alloc, status)?;
            format!(in alloc; "not trapped {status}")
        }
        Refused::WaitEmpty { thread } => format!(in alloc; "wait empty {}", thread.0),
        Refused::NotRunnable { status } => {
            let status = status_text(alloc, status)?;
            format!(in alloc; "not runnable {status}")
        }
        Refused::OnCpu { cpu } => format!(in alloc; "on cpu {cpu}"),
        Refused::Mapped { space, vpn } => format!(in alloc; "mapped {} {}", space.0, vpn.0),
        Refused::Moved { cpu } => {
            let cpu = cpu_text(alloc, cpu)?;
            format!(in alloc; "moved {cpu}")
        }
        Refused::NotLoaded { vpn } => format!(in alloc; "not loaded {}", vpn.0),
        Refused::Changed { frame } => format!(in alloc; "changed {}", frame.0),
        Refused::Over { left } => format!(in alloc; "over {left}"),
        Refused::Held { receiver } => format!(in alloc; "held {}", receiver.0),
        Refused::Sealed => String::from_str(alloc, "sealed"),
        Refused::NotSealed => String::from_str(alloc, "not sealed"),
        Refused::BadDecl { rule } => format!(in alloc; "bad declaration {rule}"),
    }
}
