//! What steps that were taken ahead leave of a machine.

ghost use Rattle.std.specs.Prelude.{◌≡◌, ◌<◌, length, slice_get, true, Some};
ghost use Rattle.phys_groups.specs.Memory.{HasFrame};
ghost use Rattle.flat_rules.specs.Readings.{OfThread};
ghost use Rattle.cached_machine.specs.quantum.specs.LocalRun.{committed, status_by as status_by_def, touched_views, CouldRun, IsLocalRun};
ghost use Rattle.cached_machine.specs.shown_state.specs.Shown.{flat_thread};
ghost use Rattle.cached_machine.specs.Aside.{aside_of};
ghost use Rattle.cached_machine.specs.Cached.{state_of};
ghost use Rattle.board_core.specs.Growth.{with_all_views, with_view, AreHeld, AreInMemory, HoldAlike, IsAsCopiedOrNow, IsPutIn};
ghost use Rattle.board_ops.specs.page_views.specs.Views.{AreCopies};
ghost use Rattle.board_core.specs.Stamps.{AreStamped, HaveStamps};

use crate::core_record::put_stamp;
use cache_ident::{Ident, SpaceNo, ThreadNo};
use cached_machine::{CachedMachine, PageView, Paused, Quantum};
use flat_rules::Records;
use rv32_exec::Status;
use thread_cache::ThreadRec;

// The thread, its rows and memory are as the quantum left them. Each frame that changed has a new stamp. `near` may be the
// identifier that the thread is loaded with.
pub(crate) fn take_over(
    machine: &mut CachedMachine,
    stamps: &mut Vec<u64>,
    no: ThreadNo,
    near: Option<Ident>,
    quantum: &Quantum,
    at: u64,
)
    requires there { no.0 < length (state_of machine.old).threads }
    requires could { OfThread (state_of machine.old) no.0 (λ t. CouldRun (state_of machine.old) t quantum.now) }
    requires local_run { IsLocalRun quantum.now }
    requires places { HaveStamps machine.old.memory stamps.old.items }
    ensures state { OfThread (state_of machine.old) no.0 (λ t. state_of machine.new ≡ committed (state_of machine.old) no.0 t quantum.now) }
    ensures held { AreHeld machine.new.memory (touched_views quantum.now.views) }
    ensures rest { aside_of machine.new ≡ aside_of machine.old }
    ensures stamps { AreStamped at machine.old.memory stamps.old.items machine.new.memory stamps.new.items }
{
    machine.holds();
    let space = CachedMachine::space_of(thread_at(machine, no, near));
    take_views(machine, stamps, space, quantum.views(), at);
    machine.put_near(no, near, quantum.context(), status_by(quantum.paused()));
}

// The thread of a number that there is. `near` may be the identifier that it is loaded with.
fn thread_at(machine: &CachedMachine, no: ThreadNo, near: Option<Ident>) -> &ThreadRec
    requires { no.0 < length (state_of machine.now).threads }
    ensures thread { slice_get (state_of machine.now).threads no.0 ≡ Some (flat_thread result.now) }
{
    match machine.thread_near(no, near) {
        Some(thread) => thread,
        None => unreachable!(),
    }
}

// The rows and frames of views are as these are.
fn take_views(
    machine: &mut CachedMachine,
    stamps: &mut Vec<u64>,
    space: SpaceNo,
    views: &[PageView],
    at: u64,
)
    requires frames { AreInMemory machine.old.memory (touched_views views.now) }
    requires found { AreCopies machine.old.memory (touched_views views.now) }
    requires alike { HoldAlike (touched_views views.now) }
    requires places { HaveStamps machine.old.memory stamps.old.items }
    ensures state { state_of machine.new ≡ with_all_views space (state_of machine.old) views.now }
    ensures held { AreHeld machine.new.memory (touched_views views.now) }
    ensures rest { aside_of machine.new ≡ aside_of machine.old }
    ensures stamps { AreStamped at machine.old.memory stamps.old.items machine.new.memory stamps.new.items }
{
    for view in views {
        if view.touched() {
            take_view(machine, stamps, space, view, at);
        }
    }
}

// The row of a view is marked as the view is, and its frame has the view's bytes. Where nothing was stored to the view, the frame
// has them already, and keeps its stamp.
fn take_view(
    machine: &mut CachedMachine,
    stamps: &mut Vec<u64>,
    space: SpaceNo,
    view: &PageView,
    at: u64,
)
    requires touched { view.now.touched ≡ true }
    requires frame { HasFrame machine.old.memory view.now.frame }
    requires found { IsAsCopiedOrNow machine.old.memory view.now }
    requires places { HaveStamps machine.old.memory stamps.old.items }
    ensures state { state_of machine.new ≡ with_view space (state_of machine.old) view.now }
    ensures bytes { IsPutIn view.now machine.old.memory machine.new.memory }
    ensures rest { aside_of machine.new ≡ aside_of machine.old }
    ensures stamps { AreStamped at machine.old.memory stamps.old.items machine.new.memory stamps.new.items }
{
    machine.mark_near(space, view.vpn(), Some(view.row()), view.written());
    if !view.is_as_copied() {
        machine.copy_part_in(view.frame(), view.changed(), view.present());
        put_stamp(stamps, Some(view.frame()), at);
    }
}

// What a thread does where its quantum stands.
fn status_by(paused: Option<Paused>) -> Status
    ensures { result ≡ status_by_def paused }
{
    match paused {
        Some(Paused::Call) => Status::Trapped,
        Some(Paused::Stopped(reason)) => Status::Ended(reason),
        Some(Paused::Limit) | Some(Paused::Miss { .. }) | Some(Paused::Signal) | None => {
            Status::Ready
        }
    }
}
