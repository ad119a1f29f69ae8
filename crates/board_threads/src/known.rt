//! What holds of every core, and what is read of it.

ghost use Rattle.std.specs.Prelude.{◌≡◌, ◌-◌, ◌<◌, ◌^◌, None, Some, IfNone, IfSome, is_some, slice_get};
ghost use Rattle.std.specs.Option.{option_copied, option_map};
ghost use Rattle.number_set.specs.First.{IsFirstFrom};
ghost use Rattle.flat_state.specs.Signals.{full_receiver as full_receiver_def, is_runnable as is_runnable_def};
ghost use Rattle.flat_state.specs.WellFormed.{IsWellFormed};
ghost use Rattle.flat_rules.specs.Readings.{IsThreadOf};
ghost use Rattle.board_checks.specs.desc_stores.specs.declared.items.Item.{Item};
ghost use Rattle.board_checks.specs.desc_stores.specs.Contents.{content_of};
ghost use Rattle.board_checks.specs.desc_stores.specs.Sound.{IsExactlyOne};
ghost use Rattle.board_checks.specs.shown_state.specs.Found.{AreFound};
ghost use Rattle.board_checks.specs.shown_state.specs.Shown.{flat_thread};
ghost use Rattle.board_core.specs.store_residents.specs.Slots.{HasSlots};
ghost use Rattle.board_core.specs.cached_machine.specs.Cached.{is_loaded as is_loaded_def, state_of};
ghost use Rattle.board_core.specs.Core.{contents_of, IsSound};
ghost use Rattle.board_threads.specs.Tests.{goes_on, is_ready_at};

use board_core::{CachedMachine, Core, ItemRef};
use cache_ident::{Ident, Name, ThreadNo};
use flat_rules::{Records, full_receiver, is_ready};
use thread_cache::ThreadRec;

// Does nothing. A proof has from it what holds of every core.
pub(crate) fn known(core: &Core)
    ensures sound { IsSound core.now }
    ensures one { IsExactlyOne (contents_of core.now) }
    ensures formed { IsWellFormed (state_of core.now.machine) }
    ensures found { AreFound (state_of core.now.machine) (contents_of core.now) }
    ensures slots { HasSlots core.now.machine.machine.caps (contents_of core.now) }
{
    core.holds();
    core.machine().holds();
    core.machine().tables().are_sound();
}

// Whether there is such a thread and its next step can be taken. `near` may be the identifier that it is loaded with.
pub(crate) fn is_runnable(core: &Core, no: ThreadNo, near: Option<Ident>) -> bool
    ensures { result ≡ goes_on core.now no.0 }
{
    known(core);
    match core.machine().thread_near(no, near) {
        Some(thread) => can_step(core.machine(), thread),
        None => false,
    }
}

// Whether the next step of a thread can be taken. It costs less than all that can be said of that step.
fn can_step(machine: &CachedMachine, thread: &ThreadRec) -> bool
    requires { IsThreadOf (state_of machine.now) (flat_thread thread.now) }
    ensures { result ≡ is_runnable_def (state_of machine.now) (flat_thread thread.now) }
{
    if is_ready::<CachedMachine>(thread) {
        !has_full_receiver(machine, thread)
    } else {
        false
    }
}

// Whether some receiver has no room for what the thread's next step sends. Where no row has a receiver none can, and
// nothing of that step is looked at.
fn has_full_receiver(machine: &CachedMachine, thread: &ThreadRec) -> bool
    requires { IsThreadOf (state_of machine.now) (flat_thread thread.now) }
    ensures { result ≡ is_some (full_receiver_def (state_of machine.now) (flat_thread thread.now)) }
{
    if !machine.tables().has_signal_rows() {
        return false;
    }
    full_receiver(machine, thread).is_some()
}

// Whether a name is loaded.
pub(crate) fn is_loaded(core: &Core, name: Name) -> bool
    ensures { result ≡ is_loaded_def (contents_of core.now) name }
{
    core.machine().tables().resident(name).is_some()
}

// The first thread from a number on that is ready.
pub(crate) fn next_ready(core: &Core, from: u32) -> Option<ThreadNo>
    ensures first { IsFirstFrom (is_ready_at core.now) from (option_map (λ no. no.0) result) }
    ensures small { IfSome result (λ no. no.0 < 2 ^ 32 - 1) }
{
    let sets = core.machine().sets();
    // There are fewer than 2 ^ 32 threads.
    let _ = sets.len();
    let number = sets.next_ready(from)?;
    Some(ThreadNo(number))
}

/// The record of a thread, wherever it is, and none where there is none of that number.
pub fn record_of(core: &Core, no: ThreadNo) -> Option<&ThreadRec>
    ensures state { option_map flat_thread (option_copied result) ≡ slice_get (state_of core.now.machine).threads no.0 }
    ensures found { IfSome result (λ found. content_of (contents_of core.now) (Name.Thread no) ≡ Some (Item.Thread found.now)) }
    ensures absent { IfNone result (content_of (contents_of core.now) (Name.Thread no) ≡ None) }
{
    known(core);
    match core.machine().tables().item(Name::Thread(no)) {
        Some(ItemRef::Thread(found)) => Some(found),
        _ => None,
    }
}
