//! Steps that fault.

ghost use Rattle.std.specs.Prelude.{◌≡◌, ◌≢◌, ◌<◌, None, Some, if◌then◌else◌, IfErr, IfOk, OnOk};
ghost use Rattle.std.specs.Result.{result_err};
ghost use Rattle.cache_ident.specs.Residents.{IsResident};
ghost use Rattle.board_checks.specs.desc_stores.specs.Contents.{residents_of};
ghost use Rattle.board_checks.specs.board_ops.specs.declared.refusals.Refused.TheVariants.{NoMemory, NotLoaded};
ghost use Rattle.board_core.specs.cached_machine.specs.Cached.{is_loaded as is_loaded_def};
ghost use Rattle.board_core.specs.Answers.{HasCallRoom, IsRefused};
ghost use Rattle.board_core.specs.Core.{contents_of};
ghost use Rattle.board_threads.specs.Faults.{HasEnded, IsFaulting};
ghost use Rattle.board_threads.specs.Refusals.{not_faulting, refusal_of_fault, row_absent};

use crate::known::{is_loaded, known};
use board_checks::check_thread;
use board_core::{Core, Refused, check_steps, check_waiting};
use cache_ident::{Ident, Name, SpaceNo, ThreadNo, Vpn};
use flat_state::NextStep;

/// Takes the next step of a loaded thread, which faults and so ends it, for the kernel `caller`.
///
/// Refused are, in this order: want of memory (`NoMemory`); an identifier that isn't that of something loaded (`Unknown`,
/// `Stale`), or of another kind (`WrongKind`), the caller's first; a thread of another kernel (`NotOwner`); one that takes no
/// steps (`NotRunnable`), or is on a processor (`OnCpu`); one whose step doesn't fault (`Mapped`), or fetches through a row that isn't
/// loaded (`NotLoaded`); and where no step is left (`Over`).
///
/// It takes a few searches, and looks at the step once.
pub fn confirm_fault(core: &mut Core, cpu: u32, caller: Ident, thread: Ident) -> Result<(), Refused>
    requires processor { cpu < 8 }
    ensures refused { IfErr result (IsRefused (refusal_of_fault core.old caller thread) core.old core.new) }
    ensures done { OnOk result (refusal_of_fault core.old caller thread ≡ None) }
    ensures enough { HasCallRoom core.old → IfErr result (λ r. r ≢ NoMemory) }
    ensures ended { OnOk result (HasEnded thread cpu core.old core.new) }
{
    known(core);
    let checked = check_fault(core, caller, thread);
    core.make_entries(1)?;
    let (no, next) = checked?;
    core.step(cpu, no, &next);
    Ok(())
}

// The number of a loaded thread, with its next step, where that faults and may be taken.
fn check_fault(core: &Core, caller: Ident, thread: Ident) -> Result<(ThreadNo, NextStep), Refused>
    ensures exact { result_err result ≡ refusal_of_fault core.now caller thread }
    ensures named { IfOk result (λ found. IsResident (residents_of (contents_of core.now)) thread (Name.Thread found.0)) }
    ensures faults { IfOk result (λ found. IsFaulting core.now found.0 found.1) }
{
    known(core);
    let found = check_thread(core.machine().tables(), caller, thread)?;
    check_waiting(core.machine(), found)?;
    let no = found.no;
    let Some(next) = core.next_step(no) else {
        unreachable!()
    };
    check_faulting(&next)?;
    check_fetch(core, &next)?;
    check_steps(core, 1)?;
    Ok((no, next))
}

// Refuses a step whose accesses all go through rows (`Mapped`), by the page of its data, or of its fetch where it makes none.
fn check_faulting(next: &NextStep) -> Result<(), Refused>
    ensures { result_err result ≡ not_faulting next.now }
{
    if next.faults {
        return Ok(());
    }
    match next.data_row.or(next.fetch_row) {
        Some(Name::Mapping(space, vpn)) => Err(Refused::Mapped { space, vpn }),
        _ => Ok(()),
    }
}

// Refuses a step whose fetch goes through a row that isn't loaded (`NotLoaded`).
#[tactic(auto, unfolding(crate::specs::Refusals::row_absent))]
fn check_fetch(core: &Core, next: &NextStep) -> Result<(), Refused>
    ensures { result_err result ≡ row_absent (contents_of core.now) next.now.fetch_row }
{
    match next.fetch_row {
        Some(Name::Mapping(space, vpn)) => check_row(core, space, vpn),
        _ => Ok(()),
    }
}

// Refuses a row that isn't loaded.
fn check_row(core: &Core, space: SpaceNo, vpn: Vpn) -> Result<(), Refused>
    ensures { result_err result ≡ (if is_loaded_def (contents_of core.now) (Name.Mapping space vpn) then None else Some (NotLoaded vpn)) }
{
    if is_loaded(core, Name::Mapping(space, vpn)) {
        Ok(())
    } else {
        Err(Refused::NotLoaded { vpn })
    }
}
