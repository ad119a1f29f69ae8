//! The operation whose line stands at the front of the bytes. A line is taken for what it can only be: whether it
//! stands there in its one form is left to the comparison with the line of what was read.

ghost use Rattle.text_fields.specs.Reading.{Gives};
ghost use Rattle.drive_text.specs.Reading.{ident_field_at, asked_at, call_at, pair_at, cpu_at, receiver_at, load_kernel_at, load_space_at, load_thread_at, load_row_at, load_at, loaded_at, step_at, declare_at, reserve_at, other_at, op_at, line_at};

use crate::lines::Line;
use board_ops::Op;
use cache_ident::{Ident, KernelNo, SpaceNo, ThreadNo, Vpn};
use journal_text::{entry_at, field, ident, number};
use run_journal::Entry;
use text_fields::skip;

// A space and an identifier.
#[tactic(auto, unfolding(crate::specs::Reading::ident_field_at))]
fn ident_field(bytes: &[u8]) -> Option<(Ident, &[u8])>
    ensures { Gives (λ x. (x.0, x.1.now)) result (ident_field_at bytes.now) }
{
    ident(skip(bytes, b" ")?)
}

// A processor and the caller.
#[tactic(auto, unfolding(crate::specs::Reading::asked_at))]
fn asked(bytes: &[u8]) -> Option<(u32, Ident, &[u8])>
    ensures { Gives (λ x. (x.0, x.1, x.2.now)) result (asked_at bytes.now) }
{
    let (cpu, rest) = field(bytes)?;
    let (caller, rest) = ident_field(rest)?;
    Some((cpu, caller, rest))
}

// A processor, the caller and an identifier.
#[tactic(auto, unfolding(crate::specs::Reading::call_at))]
fn call(bytes: &[u8]) -> Option<(u32, Ident, Ident)>
    ensures { Gives (λ x. x) result (call_at bytes.now) }
{
    let (cpu, caller, rest) = asked(bytes)?;
    let (ident, _) = ident_field(rest)?;
    Some((cpu, caller, ident))
}

// A processor, and a number.
#[tactic(auto, unfolding(crate::specs::Reading::pair_at))]
fn pair(bytes: &[u8]) -> Option<(u32, u32)>
    ensures { Gives (λ x. x) result (pair_at bytes.now) }
{
    let (cpu, rest) = field(bytes)?;
    let (n, _) = field(rest)?;
    Some((cpu, n))
}

#[tactic(auto, unfolding(crate::specs::Reading::cpu_at))]
fn cpu(bytes: &[u8]) -> Option<u32>
    ensures { Gives (λ x. x) result (cpu_at bytes.now) }
{
    let (cpu, _) = field(bytes)?;
    Some(cpu)
}

// An identifier, or `-` for none.
#[tactic(auto, unfolding(crate::specs::Reading::receiver_at))]
fn receiver(bytes: &[u8]) -> Option<Option<Ident>>
    ensures { Gives (λ x. x) result (receiver_at bytes.now) }
{
    if skip(bytes, b" -").is_some() {
        return Some(None);
    }
    let (ident, _) = ident_field(bytes)?;
    Some(Some(ident))
}

#[tactic(auto, unfolding(crate::specs::Reading::load_kernel_at))]
fn load_kernel(bytes: &[u8]) -> Option<Op>
    ensures { Gives (λ x. x) result (load_kernel_at bytes.now) }
{
    let (cpu, caller, rest) = asked(bytes)?;
    let (kernel, _) = field(rest)?;
    Some(Op::LoadKernel {
        cpu,
        caller,
        kernel: KernelNo(kernel),
    })
}

#[tactic(auto, unfolding(crate::specs::Reading::load_space_at))]
fn load_space(bytes: &[u8]) -> Option<Op>
    ensures { Gives (λ x. x) result (load_space_at bytes.now) }
{
    let (cpu, caller, rest) = asked(bytes)?;
    let (space, _) = field(rest)?;
    Some(Op::LoadSpace {
        cpu,
        caller,
        space: SpaceNo(space),
    })
}

#[tactic(auto, unfolding(crate::specs::Reading::load_thread_at))]
fn load_thread(bytes: &[u8]) -> Option<Op>
    ensures { Gives (λ x. x) result (load_thread_at bytes.now) }
{
    let (cpu, caller, rest) = asked(bytes)?;
    let (parent, rest) = ident_field(rest)?;
    let (thread, _) = field(rest)?;
    Some(Op::LoadThread {
        cpu,
        caller,
        parent,
        thread: ThreadNo(thread),
    })
}

#[tactic(auto, unfolding(crate::specs::Reading::load_row_at))]
fn load_row(bytes: &[u8]) -> Option<Op>
    ensures { Gives (λ x. x) result (load_row_at bytes.now) }
{
    let (cpu, caller, rest) = asked(bytes)?;
    let (parent, rest) = ident_field(rest)?;
    let (vpn, rest) = field(rest)?;
    Some(Op::LoadMapping {
        cpu,
        caller,
        parent,
        vpn: Vpn(vpn),
        receiver: receiver(rest)?,
    })
}

// The load that the words at the front ask for.
#[tactic(auto, unfolding(crate::specs::Reading::load_at))]
fn load(bytes: &[u8]) -> Option<Op>
    ensures { Gives (λ x. x) result (load_at bytes.now) }
{
    if let Some(rest) = skip(bytes, b"load row") {
        return load_row(rest);
    }
    if let Some(rest) = skip(bytes, b"load thread") {
        return load_thread(rest);
    }
    if let Some(rest) = skip(bytes, b"load space") {
        return load_space(rest);
    }
    load_kernel(skip(bytes, b"load kernel")?)
}

// What asks for a loaded descriptor.
#[tactic(auto, unfolding(crate::specs::Reading::loaded_at))]
fn loaded(bytes: &[u8]) -> Option<Op>
    ensures { Gives (λ x. x) result (loaded_at bytes.now) }
{
    if let Some(rest) = skip(bytes, b"complete") {
        let (cpu, caller, thread) = call(rest)?;
        return Some(Op::Complete {
            cpu,
            caller,
            thread,
        });
    }
    if let Some(rest) = skip(bytes, b"confirm") {
        let (cpu, caller, thread) = call(rest)?;
        return Some(Op::ConfirmFault {
            cpu,
            caller,
            thread,
        });
    }
    if let Some(rest) = skip(bytes, b"unload") {
        let (cpu, caller, ident) = call(rest)?;
        return Some(Op::Unload { cpu, caller, ident });
    }
    if let Some(rest) = skip(bytes, b"lock") {
        let (cpu, caller, ident) = call(rest)?;
        return Some(Op::Lock { cpu, caller, ident });
    }
    let (cpu, caller, ident) = call(skip(bytes, b"unlock")?)?;
    Some(Op::Unlock { cpu, caller, ident })
}

// What asks for steps.
#[tactic(auto, unfolding(crate::specs::Reading::step_at))]
fn step(bytes: &[u8]) -> Option<Op>
    ensures { Gives (λ x. x) result (step_at bytes.now) }
{
    if let Some(rest) = skip(bytes, b"checkout") {
        return Some(Op::Checkout { cpu: cpu(rest)? });
    }
    if let Some(rest) = skip(bytes, b"view") {
        let (cpu, vpn) = pair(rest)?;
        let vpn = Vpn(vpn);
        return Some(Op::View { cpu, vpn });
    }
    if let Some(rest) = skip(bytes, b"ahead") {
        let (cpu, limit) = pair(rest)?;
        return Some(Op::RunAhead { cpu, limit });
    }
    if let Some(rest) = skip(bytes, b"commit") {
        return Some(Op::Commit { cpu: cpu(rest)? });
    }
    if let Some(rest) = skip(bytes, b"leave") {
        return Some(Op::Leave { cpu: cpu(rest)? });
    }
    let (cpu, thread) = pair(skip(bytes, b"heal")?)?;
    let thread = ThreadNo(thread);
    Some(Op::HealStep { cpu, thread })
}

#[tactic(auto, unfolding(crate::specs::Reading::declare_at))]
fn declare(bytes: &[u8]) -> Option<Op>
    ensures { Gives (λ x. x) result (declare_at bytes.now) }
{
    match entry_at(bytes)? {
        Entry::Declared { decl } => Some(Op::Declare { decl }),
        _ => None,
    }
}

#[tactic(auto, unfolding(crate::specs::Reading::reserve_at))]
fn reserve(bytes: &[u8]) -> Option<Op>
    ensures { Gives (λ x. x) result (reserve_at bytes.now) }
{
    let (n, _) = number(bytes)?;
    Some(Op::Reserve { n: n as usize })
}

// What no processor asks for.
#[tactic(auto, unfolding(crate::specs::Reading::other_at))]
fn other(bytes: &[u8]) -> Option<Op>
    ensures { Gives (λ x. x) result (other_at bytes.now) }
{
    if let Some(rest) = skip(bytes, b"declare ") {
        return declare(rest);
    }
    if let Some(rest) = skip(bytes, b"reserve ") {
        return reserve(rest);
    }
    skip(bytes, b"seal")?;
    Some(Op::Seal)
}

#[tactic(auto, unfolding(crate::specs::Reading::op_at))]
fn op(bytes: &[u8]) -> Option<Op>
    ensures { Gives (λ x. x) result (op_at bytes.now) }
{
    if let Some(op) = step(bytes) {
        return Some(op);
    }
    if let Some(op) = loaded(bytes) {
        return Some(op);
    }
    if let Some(op) = load(bytes) {
        return Some(op);
    }
    other(bytes)
}

/// The one operation whose line may stand at the front of the bytes, or else `journal`.
#[tactic(auto, unfolding(crate::specs::Reading::line_at))]
pub(crate) fn line_at(bytes: &[u8]) -> Option<Line>
    ensures { Gives (λ x. x) result (line_at bytes.now) }
{
    if let Some(op) = op(bytes) {
        return Some(Line::Operation(op));
    }
    skip(bytes, b"journal")?;
    Some(Line::Journal)
}
