//! What the call that a thread is in asks for, beyond that thread.

ghost use Rattle.std.specs.Prelude.{◌≡◌, ℕ, ◌<◌, List, Some, true, length};
ghost use Rattle.fault_forward.specs.declared.effects.Effect.TheVariants as effects;
ghost use Rattle.fault_forward.specs.Calls.{completion_of};
ghost use Rattle.flat_state.specs.Call.{after_completion, is_completable};
ghost use Rattle.flat_rules.specs.Readings.{OfThread};
ghost use Rattle.flat_events.specs.Asked.{CanBeDone, after_asked, asked_of, asked_so, asks_if};
ghost use Rattle.flat_events.specs.Readings.{rule_if_formed};

use arrayvec::ArrayVec;
use cache_ident::{Frame, KernelNo, SpaceNo, ThreadNo, Vpn};
use fault_forward::{Effect, effect};
use flat_rules::{Records, admit, thread_at};
use flat_state::Decl;
use flat_thread::{are_flags, bit, flags_of, receiver_of};
use rv32_exec::Context;

/// What a call asks of the machine, beyond the thread that is in it.
#[derive(Clone, Copy)]
pub enum Asked {
    /// Nothing: the call is the thread's own affair.
    Nothing,
    /// Something that breaks this rule. The thread is told which, and that is all.
    Refused { rule: u32 },
    /// A declaration that breaks no rule, and what the thread is answered once it is made.
    Declares { decl: Decl, answer: u32 },
    /// That a row goes which is there. The thread is answered 0.
    Unmaps { space: SpaceNo, vpn: Vpn },
}

/// What the call that a thread is in asks for, where it can be completed. It costs a look at the thread, and the test of
/// a declaration where it asks for one.
pub fn asks<T: Records>(tables: &T, no: ThreadNo) -> Asked
    requires there { no.0 < length (T.state tables.now).threads }
    requires completable { OfThread (T.state tables.now) no.0 (λ t. is_completable t ≡ true) }
    ensures asked { OfThread (T.state tables.now) no.0 (λ t. result ≡ asked_of (T.state tables.now) t) }
    ensures can_be_done { CanBeDone (T.state tables.now) result }
    ensures comes_of_it { OfThread (T.state tables.now) no.0 (λ t. after_completion (T.state tables.now) no.0 ≡ Some (after_asked (T.state tables.now) no.0 t result)) }
{
    let thread = thread_at(tables, no);
    asked_for(tables, thread, effect_of(no, T::context_of(thread)))
}

// The effect of the call that a thread with that context is in. Only call 3 looks at the queue, and its effect is the same
// whatever it takes.
fn effect_of(no: ThreadNo, context: &Context) -> Effect
    ensures { (number : ThreadNo) (queue : List ℕ) → result ≡ (completion_of number context.now queue).effect }
{
    let mut left = *context;
    let mut queue = ArrayVec::new();
    queue.push(0);
    effect(no, &mut left, &mut queue)
}

// What a call of the thread with that effect asks for.
fn asked_for<T: Records>(tables: &T, thread: &T::Thread, effect: Effect) -> Asked
    ensures asked { result ≡ asked_so (T.state tables.now) (T.shown thread.now) effect }
    ensures can_be_done { CanBeDone (T.state tables.now) result }
{
    match effect {
        Effect::Ready | Effect::Put(_) | Effect::Decimal(_) | Effect::End(_) => Asked::Nothing,
        Effect::Map {
            vpn,
            frame,
            flags,
            receiver,
        } => mapping(tables, thread, vpn, frame, flags, receiver),
        Effect::Unmap { vpn } => unmapping(tables, thread, vpn),
        Effect::Spawn { pc, a0, priority } => spawning(tables, thread, pc, a0, priority),
        Effect::Grant {
            kernel,
            group,
            bits,
        } => granting(tables, thread, kernel, group, bits),
    }
}

// A declaration, if it breaks no rule. `formed` says whether the call's bits have the form of a field.
fn declaring<T: Records>(tables: &T, decl: Decl, formed: bool, answer: u32) -> Asked
    ensures asked { result ≡ asks_if (rule_if_formed (T.state tables.now) decl formed) decl answer }
    ensures can_be_done { CanBeDone (T.state tables.now) result }
{
    if !formed {
        return Asked::Refused { rule: 4 };
    }
    match admit(tables, &decl) {
        Ok(()) => Asked::Declares { decl, answer },
        Err(rule) => Asked::Refused { rule },
    }
}

fn mapping<T: Records>(
    tables: &T,
    thread: &T::Thread,
    vpn: u32,
    frame: u32,
    flags: u32,
    receiver: u32,
) -> Asked
    ensures asked { result ≡ asked_so (T.state tables.now) (T.shown thread.now) (effects.Map vpn frame flags receiver) }
    ensures can_be_done { CanBeDone (T.state tables.now) result }
{
    let decl = Decl::Map {
        space: T::space_of(thread),
        vpn: Vpn(vpn),
        frame: Frame(frame),
        flags: flags_of(flags),
        receiver: receiver_of(receiver),
    };
    declaring(tables, decl, are_flags(flags), 0)
}

fn unmapping<T: Records>(tables: &T, thread: &T::Thread, vpn: u32) -> Asked
    ensures asked { result ≡ asked_so (T.state tables.now) (T.shown thread.now) (effects.Unmap vpn) }
    ensures can_be_done { CanBeDone (T.state tables.now) result }
{
    let space = T::space_of(thread);
    let vpn = Vpn(vpn);
    if tables.row(space, vpn).is_some() {
        Asked::Unmaps { space, vpn }
    } else {
        Asked::Refused { rule: 1 }
    }
}

fn spawning<T: Records>(tables: &T, thread: &T::Thread, pc: u32, a0: u32, priority: u32) -> Asked
    ensures asked { result ≡ asked_so (T.state tables.now) (T.shown thread.now) (effects.Spawn pc a0 priority) }
    ensures can_be_done { CanBeDone (T.state tables.now) result }
{
    let spawned = tables.thread_count();
    let decl = Decl::Thread {
        no: ThreadNo(spawned),
        space: T::space_of(thread),
        pc,
        priority,
        a0,
        a1: 0,
    };
    declaring(tables, decl, true, spawned)
}

fn granting<T: Records>(tables: &T, thread: &T::Thread, kernel: u32, group: u32, bits: u32) -> Asked
    ensures asked { result ≡ asked_so (T.state tables.now) (T.shown thread.now) (effects.Grant kernel group bits) }
    ensures can_be_done { CanBeDone (T.state tables.now) result }
{
    if tables.kernel_of(T::space_of(thread)) != Some(KernelNo(0)) {
        return Asked::Refused { rule: 1 };
    }
    let decl = Decl::Right {
        kernel: KernelNo(kernel),
        group,
        read: bit(bits, 1),
        write: bit(bits, 2),
    };
    declaring(tables, decl, bits <= 3, 0)
}
