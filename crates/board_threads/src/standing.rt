//! Who is to be served next, and whether the run is over.

ghost use Rattle.std.specs.Prelude.{◌≡◌, slice_get};
ghost use Rattle.std.specs.List.{list_all, list_any};
ghost use Rattle.std.specs.Option.{option_map};
ghost use Rattle.number_set.specs.First.{IsFirstFrom};
ghost use Rattle.flat_state.specs.Signals.{is_runnable as is_runnable_def};
ghost use Rattle.flat_state.specs.State.{is_ended};
ghost use Rattle.flat_state.specs.Settling.{settled_of};
ghost use Rattle.board_core.specs.cached_machine.specs.Cached.{state_of};
ghost use Rattle.board_threads.specs.Tests.{completes, passes, wants_load as wants_load_def, IsWanted};

use crate::known::{is_loaded, is_runnable, next_ready};
use board_core::Core;
use cache_ident::{Name, ThreadNo};
use flat_rules::Records;
use flat_state::Settled;
use rv32_exec::Status;

/// The lowest-numbered thread whose call can be completed; else the lowest-numbered runnable thread that isn't loaded; else
/// none.
///
/// It looks at no thread but those that are ready, and at the next step only of those that aren't loaded.
pub fn want(core: &Core) -> Option<ThreadNo>
    ensures { IsWanted core.now result }
{
    match next_completable(core) {
        Some(no) => Some(no),
        None => first_absent(core),
    }
}

/// Whether the run is over.
///
/// It looks at the threads that are ready until one is runnable, and only where none can go on at all threads, until one
/// hasn't ended.
pub fn settled(core: &Core) -> Settled
    ensures { result ≡ settled_of (state_of core.now.machine) core.now.steps core.now.limit }
{
    if next_completable(core).is_some() {
        return Settled::Running;
    }
    if is_one_runnable(core) {
        return if core.steps_left() == 0 {
            Settled::Spent
        } else {
            Settled::Running
        };
    }
    if have_all_ended(core) {
        Settled::Done
    } else {
        Settled::Stalled
    }
}

// The first thread whose call can be completed.
fn next_completable(core: &Core) -> Option<ThreadNo>
    ensures { IsFirstFrom (completes core.now) 0 (option_map (λ no. no.0) result) }
{
    let number = core.machine().sets().next_completable(0)?;
    Some(ThreadNo(number))
}

// The lowest-numbered runnable thread that isn't loaded.
fn first_absent(core: &Core) -> Option<ThreadNo>
    ensures { IsFirstFrom (wants_load_def core.now) 0 (option_map (λ no. no.0) result) }
{
    let mut from = 0;
    while let Some(no) = next_ready(core, from) {
        if wants_load(core, no) {
            return Some(no);
        }
        from = no.0 + 1;
    }
    None
}

// Whether there is such a thread, it isn't loaded and its next step can be taken.
fn wants_load(core: &Core, no: ThreadNo) -> bool
    ensures { result ≡ wants_load_def core.now no.0 }
{
    !is_loaded(core, Name::Thread(no)) && is_runnable(core, no, None)
}

// Whether some thread is runnable.
fn is_one_runnable(core: &Core) -> bool
    ensures { result ≡ list_any (is_runnable_def (state_of core.now.machine)) (state_of core.now.machine).threads }
{
    let mut from = 0;
    while let Some(no) = next_ready(core, from) {
        if is_runnable(core, no, None) {
            return true;
        }
        from = no.0 + 1;
    }
    false
}

// Whether each thread has ended.
fn have_all_ended(core: &Core) -> bool
    ensures { result ≡ list_all (λ t. is_ended t.status) (state_of core.now.machine).threads }
{
    for number in 0..core.machine().thread_count() {
        if !has_ended(core, ThreadNo(number)) {
            return false;
        }
    }
    true
}

// Whether there is such a thread and it has ended.
fn has_ended(core: &Core, no: ThreadNo) -> bool
    ensures { result ≡ passes (λ t. is_ended t.status) (slice_get (state_of core.now.machine).threads no.0) }
{
    match core.machine().thread(no) {
        Some(thread) => matches!(thread.status, Status::Ended(_)),
        None => false,
    }
}
