//! The line of an operation.

ghost use Rattle.std.specs.Prelude.{◌≡◌, ◌++◌, OnOk};
ghost use Rattle.journal_text.specs.Lines.{field};
ghost use Rattle.drive_text.specs.Lines.{ident_field, receiver_text, op_text, said_text, line_text};

use crate::NoMemory;
use crate::lines::Line;
use board_ops::Op;
use cache_ident::Ident;
use journal_text::{put_decl, put_field, put_ident, put_number};

// A space and an identifier.
#[tactic(auto, unfolding(crate::specs::Lines::ident_field))]
fn put_ident_field(out: &mut Vec<u8>, ident: Ident) -> Result<(), NoMemory>
    ensures { OnOk result (out.new.items ≡ out.old.items ++ ident_field ident) }
{
    out.extend_from_slice(b" ")?;
    put_ident(out, ident)
}

fn put_receiver(out: &mut Vec<u8>, receiver: Option<Ident>) -> Result<(), NoMemory>
    ensures { OnOk result (out.new.items ≡ out.old.items ++ receiver_text receiver) }
{
    match receiver {
        Some(ident) => put_ident_field(out, ident),
        None => out.extend_from_slice(b" -"),
    }
}

// Words and a processor.
fn put_cpu(out: &mut Vec<u8>, words: &[u8], cpu: u32) -> Result<(), NoMemory>
    ensures { OnOk result (out.new.items ≡ out.old.items ++ (words.now ++ field cpu)) }
{
    out.extend_from_slice(words)?;
    put_field(out, cpu)
}

// Words, a processor and a number.
fn put_pair(out: &mut Vec<u8>, words: &[u8], cpu: u32, n: u32) -> Result<(), NoMemory>
    ensures { OnOk result (out.new.items ≡ out.old.items ++ (words.now ++ field cpu ++ field n)) }
{
    put_cpu(out, words, cpu)?;
    put_field(out, n)
}

// Words, a processor and the caller.
fn put_asked(out: &mut Vec<u8>, words: &[u8], cpu: u32, caller: Ident) -> Result<(), NoMemory>
    ensures { OnOk result (out.new.items ≡ out.old.items ++ (words.now ++ field cpu ++ ident_field caller)) }
{
    put_cpu(out, words, cpu)?;
    put_ident_field(out, caller)
}

// Words, a processor, the caller and a number.
fn put_numbered(
    out: &mut Vec<u8>,
    words: &[u8],
    cpu: u32,
    caller: Ident,
    n: u32,
) -> Result<(), NoMemory>
    ensures { OnOk result (out.new.items ≡ out.old.items ++ (words.now ++ field cpu ++ ident_field caller ++ field n)) }
{
    put_asked(out, words, cpu, caller)?;
    put_field(out, n)
}

// Words, a processor, the caller and an identifier.
fn put_call(
    out: &mut Vec<u8>,
    words: &[u8],
    cpu: u32,
    caller: Ident,
    ident: Ident,
) -> Result<(), NoMemory>
    ensures { OnOk result (out.new.items ≡ out.old.items ++ (words.now ++ field cpu ++ ident_field caller ++ ident_field ident)) }
{
    put_asked(out, words, cpu, caller)?;
    put_ident_field(out, ident)
}

#[tactic(auto, unfolding(crate::specs::Lines::op_text))]
fn put_op(out: &mut Vec<u8>, op: &Op) -> Result<(), NoMemory>
    ensures { OnOk result (out.new.items ≡ out.old.items ++ op_text op.now) }
{
    match *op {
        Op::Declare { decl } => {
            out.extend_from_slice(b"declare ")?;
            put_decl(out, &decl)
        }
        Op::Seal => out.extend_from_slice(b"seal"),
        Op::LoadKernel {
            cpu,
            caller,
            kernel,
        } => put_numbered(out, b"load kernel", cpu, caller, kernel.0),
        Op::LoadSpace { cpu, caller, space } => {
            put_numbered(out, b"load space", cpu, caller, space.0)
        }
        Op::LoadThread {
            cpu,
            caller,
            parent,
            thread,
        } => {
            put_call(out, b"load thread", cpu, caller, parent)?;
            put_field(out, thread.0)
        }
        Op::LoadMapping {
            cpu,
            caller,
            parent,
            vpn,
            receiver,
        } => {
            put_call(out, b"load row", cpu, caller, parent)?;
            put_field(out, vpn.0)?;
            put_receiver(out, receiver)
        }
        Op::Unload { cpu, caller, ident } => put_call(out, b"unload", cpu, caller, ident),
        Op::Lock { cpu, caller, ident } => put_call(out, b"lock", cpu, caller, ident),
        Op::Unlock { cpu, caller, ident } => put_call(out, b"unlock", cpu, caller, ident),
        Op::Checkout { cpu } => put_cpu(out, b"checkout", cpu),
        Op::View { cpu, vpn } => put_pair(out, b"view", cpu, vpn.0),
        Op::RunAhead { cpu, limit } => put_pair(out, b"ahead", cpu, limit),
        Op::Commit { cpu } => put_cpu(out, b"commit", cpu),
        Op::Leave { cpu } => put_cpu(out, b"leave", cpu),
        Op::Complete {
            cpu,
            caller,
            thread,
        } => put_call(out, b"complete", cpu, caller, thread),
        Op::ConfirmFault {
            cpu,
            caller,
            thread,
        } => put_call(out, b"confirm", cpu, caller, thread),
        Op::HealStep { cpu, thread } => put_pair(out, b"heal", cpu, thread.0),
        Op::Reserve { n } => {
            out.extend_from_slice(b"reserve ")?;
            put_number(out, n as u64)
        }
    }
}

fn put_said(out: &mut Vec<u8>, line: &Line) -> Result<(), NoMemory>
    ensures { OnOk result (out.new.items ≡ out.old.items ++ said_text line.now) }
{
    match line {
        Line::Operation(op) => put_op(out, op),
        Line::Journal => out.extend_from_slice(b"journal"),
    }
}

/// Adds a line, with its line feed.
#[tactic(auto, unfolding(crate::specs::Lines::line_text))]
pub(crate) fn put_line(out: &mut Vec<u8>, line: &Line) -> Result<(), NoMemory>
    ensures { OnOk result (out.new.items ≡ out.old.items ++ line_text line.now) }
{
    put_said(out, line)?;
    out.extend_from_slice(b"\n")
}
