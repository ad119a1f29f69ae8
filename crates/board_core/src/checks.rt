//! Why a thread doesn't go on.

ghost use Rattle.std.specs.Prelude.{◌≡◌};
ghost use Rattle.std.specs.Option.{option_map};
ghost use Rattle.std.specs.Result.{result_err};
ghost use Rattle.board_ops.specs.declared.refusals.Refused.TheVariants as why;
ghost use Rattle.cached_machine.specs.shown_state.specs.Shown.{flat_thread};
ghost use Rattle.cached_machine.specs.Posts.{mark_of};
ghost use Rattle.board_core.specs.Refusals.{not_ready, not_waiting, over};

use crate::core_record::Core;
use board_ops::Refused;
use cache_ident::ThreadNo;
use cached_machine::CachedMachine;
use flat_rules::is_ready;
use thread_cache::ThreadRec;

/// Refuses a thread that takes no steps (`NotRunnable`).
pub fn check_ready(thread: &ThreadRec) -> Result<(), Refused>
    ensures { result_err result ≡ not_ready (flat_thread thread.now) }
{
    if is_ready::<CachedMachine>(thread) {
        return Ok(());
    }
    Err(Refused::NotRunnable {
        status: thread.status,
    })
}

/// Refuses a thread that a processor has (`OnCpu`). One search.
pub fn check_away(machine: &CachedMachine, no: ThreadNo) -> Result<(), Refused>
    ensures { result_err result ≡ option_map why.OnCpu (mark_of machine.now.held.contents no) }
{
    match machine.processor_of(no, None) {
        Some(cpu) => Err(Refused::OnCpu { cpu }),
        None => Ok(()),
    }
}

/// Refuses a thread that takes no steps (`NotRunnable`), or is on a processor (`OnCpu`). One search.
#[tactic(auto, unfolding(crate::specs::Refusals::not_waiting))]
pub fn check_waiting(machine: &CachedMachine, thread: &ThreadRec) -> Result<(), Refused>
    ensures { result_err result ≡ not_waiting machine.now.held.contents (flat_thread thread.now) }
{
    check_ready(thread)?;
    check_away(machine, thread.no)
}

/// Refuses more steps than are left (`Over`).
#[tactic(auto, unfolding(crate::specs::Refusals::over))]
pub fn check_steps(core: &Core, steps: u64) -> Result<(), Refused>
    ensures { result_err result ≡ over core.now steps }
{
    let left = core.steps_left();
    if steps > left {
        return Err(Refused::Over { left });
    }
    Ok(())
}
