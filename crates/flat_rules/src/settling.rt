//! Whether a run is over.

ghost use Rattle.std.specs.Prelude.{◌≡◌};
ghost use Rattle.flat_state.specs.Settling.{settled_of};
ghost use Rattle.flat_rules.specs.Readings.{IsThreadOf};
ghost use Rattle.flat_rules.specs.Settling.{settled_by as settled_by_def};

use crate::records::Records;
use crate::signals::full_receiver;
use crate::threads::{thread_at, waits};
use cache_ident::ThreadNo;
use flat_state::Settled;
use rv32_exec::Status;

/// How a run stands as far as that thread goes; `spent` says that all steps are taken. It looks at the next step where
/// the thread is ready.
pub fn settled_by<T: Records>(tables: &T, thread: &T::Thread, spent: bool) -> Settled
    requires { IsThreadOf (T.state tables.now) (T.shown thread.now) }
    ensures { result ≡ settled_by_def (T.state tables.now) (T.shown thread.now) spent }
{
    match T::status_of(thread) {
        Status::Ended(_) => Settled::Done,
        Status::Trapped if waits::<T>(thread) => Settled::Stalled,
        Status::Trapped => Settled::Running,
        Status::Ready if full_receiver(tables, thread).is_some() => Settled::Stalled,
        Status::Ready if spent => Settled::Spent,
        Status::Ready => Settled::Running,
    }
}

/// Whether a run of so many steps is over, at that limit. It goes over the threads once at most, and no further than to
/// one that can go on. Of each it looks at the status, of one that is ready at the next step, and of one in a call at
/// the queue.
#[tactic(auto, unfolding(flat_state::specs::Settling::settled_of))]
pub fn settled<T: Records>(tables: &T, steps: u64, limit: u64) -> Settled
    ensures { result ≡ settled_of (T.state tables.now) steps limit }
{
    // How the run stands as far as the threads before go: as the least settled of them.
    let mut settled = Settled::Done;
    for at in 0..tables.thread_count() {
        match settled_by(tables, thread_at(tables, ThreadNo(at)), steps == limit) {
            Settled::Done => {}
            Settled::Stalled if matches!(settled, Settled::Done) => settled = Settled::Stalled,
            Settled::Stalled => {}
            Settled::Spent => settled = Settled::Spent,
            Settled::Running => return Settled::Running,
        }
    }
    settled
}
