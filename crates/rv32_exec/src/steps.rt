// One step of a thread, over any address space.

ghost use Rattle.std.specs.Prelude.{◌≡◌, ◌%◌, ◌<◌, IsTrue};
ghost use Rattle.rv32_exec.specs.Pages.{Page, translates};
ghost use Rattle.rv32_exec.specs.Actions.{HasRegister};
ghost use Rattle.rv32_exec.specs.Steps.{IsAfter, OnMiss, after_action, after_step, after_jump, after_load, after_store, after_atomic, ended, extended};

use crate::actions::{Action, action_for};
use crate::contexts::Context;
use crate::spaces::{Space, Width};
use crate::statuses::{Access, Misaligned, Reason};
use rv32_ma::{AmoOp, amo};

/// What a step came to.
#[derive(Clone, Copy, Debug, PartialEq, Eq)]
pub enum Stepped {
    /// The thread goes on.
    Next,
    /// The thread called the supervisor; its pc is past the call.
    Call,
    /// The thread ended; its context is as before.
    Stop(Reason),
    /// The space has no translation for this access, the first of the step that has none. Nothing happened.
    Miss { va: u32, access: Access },
}

/// Takes one step.
///
/// A few comparisons and the accesses of the instruction; no memory.
#[inline]
pub fn step<S: Space>(context: &mut Context, space: &mut S) -> Stepped
    requires { context.old.pc % 4 ≡ 0 }
    ensures aligned { context.new.pc % 4 ≡ 0 }
    ensures after { IsAfter context.new (S.pages space.new) result (after_step context.old (S.pages space.old)) }
    ensures kept { S.kept space.new ≡ S.kept space.old }
    ensures missed { OnMiss result ((context.new ≡ context.old) × (S.pages space.new ≡ S.pages space.old)) }
{
    fetch(context, space)
}

/// Fetches the word at pc, and does the instruction that it is.
#[inline]
#[tactic(auto, using(crate::proofs::Translations::translations), unfolding(crate::specs::Steps::after_step))]
fn fetch<S: Space>(context: &mut Context, space: &mut S) -> Stepped
    requires { context.old.pc % 4 ≡ 0 }
    ensures aligned { context.new.pc % 4 ≡ 0 }
    ensures after { IsAfter context.new (S.pages space.new) result (after_step context.old (S.pages space.old)) }
    ensures kept { S.kept space.new ≡ S.kept space.old }
{
    let pc = context.pc;
    let Ok(word) = space.fetch(pc) else {
        return Stepped::Miss {
            va: pc,
            access: Access::Fetch,
        };
    };
    match space.instruction(pc, word) {
        Some(instr) => act(context, space, action_for(context, instr)),
        None => end(context, space, Reason::Illegal { word }),
    }
}

/// Does what an instruction asks for, after its fetch.
#[inline(always)]
#[tactic(auto, unfolding(crate::specs::Steps::after_action))]
fn act<S: Space>(context: &mut Context, space: &mut S, action: Action) -> Stepped
    requires aligned { context.old.pc % 4 ≡ 0 }
    requires register { HasRegister action }
    requires fetched { IsTrue (translates (S.pages space.old) context.old.pc Access.Fetch) }
    ensures aligned { context.new.pc % 4 ≡ 0 }
    ensures after { IsAfter context.new (S.pages space.new) result (after_action action context.old (S.pages space.old)) }
    ensures kept { S.kept space.new ≡ S.kept space.old }
{
    match action {
        Action::Set { rd, value } => {
            space.touch(context.pc, Access::Fetch);
            context.set(rd, value);
            context.pc = context.pc.wrapping_add(4);
            Stepped::Next
        }
        Action::Pass => {
            space.touch(context.pc, Access::Fetch);
            context.pc = context.pc.wrapping_add(4);
            Stepped::Next
        }
        Action::Jump { rd, target } => jump(context, space, rd, target),
        Action::Load {
            rd,
            va,
            width,
            signed,
        } => load(context, space, rd, va, width, signed),
        Action::Store { va, width, value } => store(context, space, va, width, value),
        Action::Atomic {
            rd,
            va,
            op,
            operand,
        } => atomic(context, space, rd, va, op, operand),
        Action::Call => {
            space.touch(context.pc, Access::Fetch);
            context.pc = context.pc.wrapping_add(4);
            Stepped::Call
        }
        Action::Break => end(context, space, Reason::Breakpoint),
    }
}

/// Ends the thread: its fetch was its last access.
#[inline(always)]
fn end<S: Space>(context: &Context, space: &mut S, reason: Reason) -> Stepped
    requires { IsTrue (translates (S.pages space.old) context.now.pc Access.Fetch) }
    ensures after { IsAfter context.now (S.pages space.new) result (ended context.now (S.pages space.old) reason) }
    ensures kept { S.kept space.new ≡ S.kept space.old }
{
    space.touch(context.pc, Access::Fetch);
    Stepped::Stop(reason)
}

/// Jumps, or ends the thread where 4 does not divide the target.
#[inline(always)]
fn jump<S: Space>(context: &mut Context, space: &mut S, rd: u32, target: u32) -> Stepped
    requires aligned { context.old.pc % 4 ≡ 0 }
    requires register { rd < 32 }
    requires fetched { IsTrue (translates (S.pages space.old) context.old.pc Access.Fetch) }
    ensures aligned { context.new.pc % 4 ≡ 0 }
    ensures after { IsAfter context.new (S.pages space.new) result (after_jump context.old (S.pages space.old) rd target) }
    ensures kept { S.kept space.new ≡ S.kept space.old }
{
    if target % 4 != 0 {
        let what = Misaligned::Jump;
        return end(context, space, Reason::Misaligned { what, va: target });
    }
    space.touch(context.pc, Access::Fetch);
    context.set(rd, context.pc.wrapping_add(4));
    context.pc = target;
    Stepped::Next
}

/// Loads into a register. Each width has a path of its own, on which nothing asks for it.
#[inline(always)]
fn load<S: Space>(
    context: &mut Context,
    space: &mut S,
    rd: u32,
    va: u32,
    width: Width,
    signed: bool,
) -> Stepped
    requires aligned { context.old.pc % 4 ≡ 0 }
    requires register { rd < 32 }
    requires fetched { IsTrue (translates (S.pages space.old) context.old.pc Access.Fetch) }
    ensures aligned { context.new.pc % 4 ≡ 0 }
    ensures after { IsAfter context.new (S.pages space.new) result (after_load context.old (S.pages space.old) rd va width signed) }
    ensures kept { S.kept space.new ≡ S.kept space.old }
{
    match width {
        Width::Word => load_of(context, space, rd, va, Width::Word, signed),
        Width::Half => load_of(context, space, rd, va, Width::Half, signed),
        Width::Byte => load_of(context, space, rd, va, Width::Byte, signed),
    }
}

/// The same of one width.
#[inline(always)]
#[tactic(auto, using(crate::proofs::Translations::translations))]
fn load_of<S: Space>(
    context: &mut Context,
    space: &mut S,
    rd: u32,
    va: u32,
    width: Width,
    signed: bool,
) -> Stepped
    requires aligned { context.old.pc % 4 ≡ 0 }
    requires register { rd < 32 }
    requires fetched { IsTrue (translates (S.pages space.old) context.old.pc Access.Fetch) }
    ensures aligned { context.new.pc % 4 ≡ 0 }
    ensures after { IsAfter context.new (S.pages space.new) result (after_load context.old (S.pages space.old) rd va width signed) }
    ensures kept { S.kept space.new ≡ S.kept space.old }
{
    if va % width.size() != 0 {
        let what = Misaligned::Load;
        return end(context, space, Reason::Misaligned { what, va });
    }
    let Ok(number) = space.load(va, width) else {
        return Stepped::Miss {
            va,
            access: Access::Read,
        };
    };
    space.touch(context.pc, Access::Fetch);
    space.touch(va, Access::Read);
    context.set(rd, extended(signed, width, number));
    context.pc = context.pc.wrapping_add(4);
    Stepped::Next
}

/// Stores the low bytes of a value. Each width has a path of its own, on which nothing asks for it.
#[inline(always)]
fn store<S: Space>(
    context: &mut Context,
    space: &mut S,
    va: u32,
    width: Width,
    value: u32,
) -> Stepped
    requires aligned { context.old.pc % 4 ≡ 0 }
    requires fetched { IsTrue (translates (S.pages space.old) context.old.pc Access.Fetch) }
    ensures aligned { context.new.pc % 4 ≡ 0 }
    ensures after { IsAfter context.new (S.pages space.new) result (after_store context.old (S.pages space.old) va width value) }
    ensures kept { S.kept space.new ≡ S.kept space.old }
{
    match width {
        Width::Word => store_of(context, space, va, Width::Word, value),
        Width::Half => store_of(context, space, va, Width::Half, value),
        Width::Byte => store_of(context, space, va, Width::Byte, value),
    }
}

/// The same of one width.
#[inline(always)]
#[tactic(auto, using(crate::proofs::Translations::translations))]
fn store_of<S: Space>(
    context: &mut Context,
    space: &mut S,
    va: u32,
    width: Width,
    value: u32,
) -> Stepped
    requires aligned { context.old.pc % 4 ≡ 0 }
    requires fetched { IsTrue (translates (S.pages space.old) context.old.pc Access.Fetch) }
    ensures aligned { context.new.pc % 4 ≡ 0 }
    ensures after { IsAfter context.new (S.pages space.new) result (after_store context.old (S.pages space.old) va width value) }
    ensures kept { S.kept space.new ≡ S.kept space.old }
{
    if va % width.size() != 0 {
        let what = Misaligned::Store;
        return end(context, space, Reason::Misaligned { what, va });
    }
    let Ok(()) = space.store(va, width, value) else {
        return Stepped::Miss {
            va,
            access: Access::Write,
        };
    };
    space.touch(context.pc, Access::Fetch);
    space.touch(va, Access::Write);
    context.pc = context.pc.wrapping_add(4);
    Stepped::Next
}

/// Reads a word, and writes what the operation makes of it.
#[inline(always)]
#[tactic(auto, using(crate::proofs::Translations::translations))]
fn atomic<S: Space>(
    context: &mut Context,
    space: &mut S,
    rd: u32,
    va: u32,
    op: AmoOp,
    operand: u32,
) -> Stepped
    requires aligned { context.old.pc % 4 ≡ 0 }
    requires register { rd < 32 }
    requires fetched { IsTrue (translates (S.pages space.old) context.old.pc Access.Fetch) }
    ensures aligned { context.new.pc % 4 ≡ 0 }
    ensures after { IsAfter context.new (S.pages space.new) result (after_atomic context.old (S.pages space.old) rd va op operand) }
    ensures kept { S.kept space.new ≡ S.kept space.old }
{
    if va % 4 != 0 {
        let what = Misaligned::Store;
        return end(context, space, Reason::Misaligned { what, va });
    }
    let Ok(old) = space.load(va, Width::Word) else {
        return Stepped::Miss {
            va,
            access: Access::Read,
        };
    };
    let Ok(()) = space.store(va, Width::Word, amo(op, old, operand)) else {
        return Stepped::Miss {
            va,
            access: Access::Write,
        };
    };
    space.touch(context.pc, Access::Fetch);
    space.touch(va, Access::Read);
    space.touch(va, Access::Write);
    context.set(rd, old);
    context.pc = context.pc.wrapping_add(4);
    Stepped::Next
}

/// A byte or a half as a word, filled with its sign where that is asked.
fn extended(signed: bool, width: Width, number: u32) -> u32
    ensures { result ≡ extended signed width number }
{
    match width {
        Width::Byte if signed && number >> 7 == 1 => number.wrapping_add(0xffff_ff00),
        Width::Half if signed && number >> 15 == 1 => number.wrapping_add(0xffff_0000),
        _ => number,
    }
}
