//! What is asked of threads one by one.

ghost use Rattle.std.specs.Prelude.{◌≡◌, ◌<◌, Some, length, slice_get};
ghost use Rattle.flat_state.specs.State.{is_ended as is_ended_def, is_ready as is_ready_def};
ghost use Rattle.flat_state.specs.Signals.{has_ended as has_ended_def, queued as queued_def};
ghost use Rattle.flat_state.specs.Call.{is_completable as is_completable_def, waits as waits_def};
ghost use Rattle.flat_rules.specs.Readings.{IsThreadOf};

use crate::records::Records;
use cache_ident::ThreadNo;
use rv32_exec::Status;

/// Whether the thread takes steps.
pub fn is_ready<T: Records>(thread: &T::Thread) -> bool
    ensures { result ≡ is_ready_def (T.shown thread.now).status }
{
    matches!(T::status_of(thread), Status::Ready)
}

// Whether the thread has ended.
fn is_ended<T: Records>(thread: &T::Thread) -> bool
    ensures { result ≡ is_ended_def (T.shown thread.now).status }
{
    matches!(T::status_of(thread), Status::Ended(_))
}

/// Whether the thread waits for a signal: it is in call 3, and its queue is empty.
pub fn waits<T: Records>(thread: &T::Thread) -> bool
    ensures { result ≡ waits_def (T.shown thread.now) }
{
    matches!(T::status_of(thread), Status::Trapped)
        && T::context_of(thread).regs[17] == 3
        && T::queued_of(thread) == 0
}

/// Whether the call that the thread is in can be completed.
pub fn is_completable<T: Records>(thread: &T::Thread) -> bool
    ensures { result ≡ is_completable_def (T.shown thread.now) }
{
    matches!(T::status_of(thread), Status::Trapped) && !waits::<T>(thread)
}

/// How many addresses a thread's queue holds; 0 where there is no such thread.
pub fn queued<T: Records>(tables: &T, no: ThreadNo) -> u32
    ensures { result ≡ queued_def (T.state tables.now).threads no }
{
    match tables.thread(no) {
        Some(thread) => T::queued_of(thread),
        None => 0,
    }
}

/// Whether there is such a thread, and it has ended.
pub fn has_ended<T: Records>(tables: &T, no: ThreadNo) -> bool
    ensures { result ≡ has_ended_def (T.state tables.now).threads no }
{
    match tables.thread(no) {
        Some(thread) => is_ended::<T>(thread),
        None => false,
    }
}

/// The record of a thread that there is.
pub fn thread_at<T: Records>(tables: &T, no: ThreadNo) -> &T::Thread
    requires { no.0 < length (T.state tables.now).threads }
    ensures thread { slice_get (T.state tables.now).threads no.0 ≡ Some (T.shown result.now) }
    ensures of { IsThreadOf (T.state tables.now) (T.shown result.now) }
{
    tables.holds();
    match tables.thread(no) {
        Some(thread) => thread,
        None => unreachable!(),
    }
}
