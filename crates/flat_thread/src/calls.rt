//! What a call does to the thread that is in it, and how a thread gets an answer or a signal.
//!
//! A thread is taken by its parts, so that whoever keeps it may keep it in a record of their own.

ghost use Rattle.std.specs.Prelude.{◌≡◌, ◌<◌, ◌++◌, false, IfOk, OnOk, OnErr, length};
ghost use Rattle.std.specs.Fmt.{decimal};
ghost use Rattle.rv32_exec.specs.declared.statuses.Status.TheVariants.{Ready};
ghost use Rattle.fault_forward.specs.Calls.{IsCompletable, completion_of, with_answer};
ghost use Rattle.flat_state.specs.State.{is_ended};
ghost use Rattle.flat_thread.specs.Calls.{Keeps, Leaves, queue_with};

use arrayvec::ArrayVec;
use cache_ident::{NoMemory, ThreadNo};
use fault_forward::{Effect, effect};
use rv32_exec::{Context, Output, Status};

/// The thread goes on with an answer in a0. Constant time.
pub fn answer(context: &mut Context, status: &mut Status, answer: u32)
    ensures context { context.new ≡ with_answer context.old answer }
    ensures status { status.new ≡ Ready }
{
    context.regs[10] = answer;
    *status = Status::Ready;
}

/// Appends the address of a signal to the queue of a thread that does that, unless the thread has ended. Constant time.
pub fn give(status: Status, queue: &mut ArrayVec<u32, 64>, va: u32)
    requires { is_ended status ≡ false → length queue.old.items < 64 }
    ensures { queue.new ≡ queue_with va status queue.old }
{
    if !matches!(status, Status::Ended(_)) {
        queue.push(va);
    }
}

/// Does what a call does to the thread of that number alone, and answers what the call brings about. For want of memory
/// nothing happens.
///
/// A call that is the thread's alone is done with: the thread goes on, or has ended. One that asks for a row, a thread or
/// rights leaves the thread as it is, in its call, for the caller to answer. Constant time, but that the output may have
/// to grow.
pub fn carry_out(
    no: ThreadNo,
    context: &mut Context,
    status: &mut Status,
    queue: &mut ArrayVec<u32, 64>,
    output: &mut Output,
) -> Result<Effect, NoMemory>
    requires { IsCompletable context.old queue.old.items }
    ensures effect { IfOk result (λ effect. effect ≡ (completion_of no context.old queue.old.items).effect) }
    ensures ok { OnOk result (Leaves no context.old status.old queue.old output.old context.new status.new queue.new output.new) }
    ensures err { OnErr result (Keeps context.old status.old queue.old output.old context.new status.new queue.new output.new) }
{
    let mut left = *context;
    let effect = effect(no, &mut left, queue);
    match effect {
        Effect::Ready => resume(context, status, left),
        Effect::Put(byte) => {
            output.append(&[byte])?;
            resume(context, status, left);
        }
        Effect::Decimal(number) => {
            put_decimal(output, number)?;
            resume(context, status, left);
        }
        Effect::End(reason) => *status = Status::Ended(reason),
        _ => {}
    }
    Ok(effect)
}

// The thread goes on as its completed call leaves its context.
fn resume(context: &mut Context, status: &mut Status, left: Context)
    ensures context { context.new ≡ left }
    ensures status { status.new ≡ Ready }
{
    *context = left;
    *status = Status::Ready;
}

// Appends a number in decimal.
fn put_decimal(output: &mut Output, number: u32) -> Result<(), NoMemory>
    ensures ok { OnOk result (output.new ≡ output.old ++ decimal number) }
    ensures err { OnErr result (output.new ≡ output.old) }
{
    let mut buffer = itoa::Buffer::new();
    output.append(buffer.format(number).as_bytes())
}
