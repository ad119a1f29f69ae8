//! The healing step.

ghost use Rattle.std.specs.Prelude.{◌≡◌, ◌≢◌, ◌<◌, None, Some, IfErr, OnOk, IsSome};
ghost use Rattle.flat_state.specs.NextSteps.{next_step as next_step_def};
ghost use Rattle.board_core.specs.cached_machine.specs.Cached.{state_of};
ghost use Rattle.board_core.specs.board_ops.specs.declared.refusals.Refused.TheVariants.{NoMemory};
ghost use Rattle.board_core.specs.Answers.{HasCallRoom, IsRefused};
ghost use Rattle.board_heal.specs.Healed.{IsHealed};
ghost use Rattle.board_heal.specs.Promise.{HasStepped, IsHealable};
ghost use Rattle.board_heal.specs.Refusals.{refusal_of_heal};

use crate::checks::check_heal;
use crate::loads::{load_missing, machine_of};
use board_chains::chain_of;
use board_core::{Core, Refused};
use cache_ident::ThreadNo;
use flat_state::{MOST_WANTED, NextStep};

/// Loads what is missing of the chain of a thread's next step, and takes that step: at most 21 loads, and nothing of the chain
/// leaves for them. They come in this order: kernels, spaces and threads, each by their numbers; the signal rows that the row of
/// the data depends on, in declared order; the row of the fetch; and the row of the data.
///
/// It is refused where there is no such thread (`NotDeclared`), the thread isn't ready (`NotRunnable`), a processor has it
/// (`OnCpu`), no step is left (`Over`), a receiver of what the step signals has no room (`Held`), and before the seal
/// (`NotSealed`). So on a sealed board with a step left it does this, or wants memory (`NoMemory`), for each thread that there is
/// and that is ready, on no processor and not held, whatever is loaded. It costs some searches for each descriptor of the chain, and as many for each that leaves.
#[tactic(auto, unfolding(board_core::specs::Refusals::over))]
pub fn heal_step(core: &mut Core, cpu: u32, no: ThreadNo) -> Result<(), Refused>
    requires processor { cpu < 8 }
    ensures refused { IfErr result (IsRefused (refusal_of_heal core.old no) core.old core.new) }
    ensures done { OnOk result (refusal_of_heal core.old no ≡ None) }
    ensures healed { OnOk result (IsHealed cpu no core.old core.new) }
    ensures promised { IsHealable core.old no → IfErr result (λ why. why ≡ NoMemory) × OnOk result (HasStepped no core.old core.new) }
    ensures enough { HasCallRoom core.old → IfErr result (λ why. why ≢ NoMemory) }
{
    let checked = check_heal(core, no);
    core.make_room(MOST_WANTED, 1)?;
    checked?;
    let next = known_step(core, no);
    let chain = chain_of(machine_of(core), no, &next);
    let names = chain.as_slice();
    for name in names {
        load_missing(core, cpu, *name, names);
    }
    core.holds();
    core.step(cpu, no, &next);
    Ok(())
}

// What can be said of the next step of a thread that there is.
fn known_step(core: &Core, no: ThreadNo) -> NextStep
    requires { IsSome (next_step_def (state_of core.now.machine) no.0) }
    ensures { next_step_def (state_of core.now.machine) no.0 ≡ Some result }
{
    match core.next_step(no) {
        Some(next) => next,
        None => unreachable!(),
    }
}
