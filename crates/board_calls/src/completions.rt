//! Completions of thread calls.

ghost use Rattle.std.specs.Prelude.{◌≡◌, ◌≢◌, ◌+◌, ◌<◌, ◌≤◌, ◌⊎◌, [], true, None, Some, Contains, IfErr, IfOk, OnOk};
ghost use Rattle.cache_ident.specs.declared.idents.Kind.TheVariants.{Mapping};
ghost use Rattle.flat_state.specs.WellFormed.{IsWellFormed};
ghost use Rattle.board_checks.specs.run_journal.specs.Legal.{AreGood};
ghost use Rattle.board_checks.specs.board_ops.specs.declared.refusals.Refused.TheVariants.{NoMemory};
ghost use Rattle.board_checks.specs.desc_stores.specs.Contents.{residents_of};
ghost use Rattle.board_checks.specs.desc_groups.specs.Whole.{IsWhole};
ghost use Rattle.board_core.specs.cached_machine.specs.Cached.{state_of};
ghost use Rattle.board_core.specs.cached_machine.specs.Posts.{OnlyLoadedAreOut};
ghost use Rattle.board_checks.specs.Refusals.{refusal_of_complete};
ghost use Rattle.board_core.specs.Answers.{IsRefused};
ghost use Rattle.board_core.specs.Core.{contents_of};
ghost use Rattle.board_core.specs.Growth.{count_loaded};
ghost use Rattle.board_calls.specs.Calls.{IsCompletion, IsPlanned};
ghost use Rattle.board_calls.specs.Departures.{HasLeftIf, HaveLeft};

use crate::leaving::leaving;
use board_checks::check_complete;
use board_core::{Core, Refused};
use cache_ident::{Ident, Standing, ThreadNo};
use flat_rules::Records;
use std::alloc::Global;

/// Completes the call that a loaded thread is in, for the kernel `caller`. What is loaded and would then no longer stand, not
/// be fit or depend on what isn't loaded leaves first, in order of serial, each with what depends on it.
///
/// Refused where `caller` is none of a loaded kernel (`Unknown`, `Stale`, `WrongKind`), then where `thread` is none of a loaded
/// thread (the same), then where the thread is of another kernel (`NotOwner`), is in no call (`NotTrapped`) or waits for a
/// signal (`WaitEmpty`). All memory is taken before the first descriptor leaves.
///
/// Where a signal row is asked for it looks at the loaded message rows of its frame. Where rights are asked for it looks at the
/// signal rows of the group and at the message rows that leave; only where the kernel loses a right, at each loaded row of the
/// group.
pub fn complete(
    core: &mut Core,
    alloc: Global,
    cpu: u32,
    caller: Ident,
    thread: Ident,
) -> Result<(), Refused>
    requires processor { cpu < 8 }
    ensures refused { IfErr result (IsRefused (refusal_of_complete (contents_of core.old) caller thread) core.old core.new) }
    ensures done { OnOk result (refusal_of_complete (contents_of core.old) caller thread ≡ None) }
    ensures completed { OnOk result (IsCompletion cpu thread core.old core.new) }
{
    known(core);
    let checked = planned(core, alloc, caller, thread);
    core.make_room(0, 1)?;
    core.make_declarable()?;
    let (no, idents) = checked?;
    unload_each(core, cpu, &idents);
    // Where something left, the call is no output, and there is room for all that it asks for.
    core.complete(cpu, no)?;
    Ok(())
}

// The number of the thread, and the identifiers of what leaves first, where its call may be completed. It takes memory for them.
fn planned(
    core: &Core,
    alloc: Global,
    caller: Ident,
    thread: Ident,
) -> Result<(ThreadNo, Vec<Ident>), Refused>
    ensures refused { IfErr result (λ why. (why ≡ NoMemory) ⊎ (refusal_of_complete (contents_of core.now) caller thread ≡ Some why)) }
    ensures done { OnOk result (refusal_of_complete (contents_of core.now) caller thread ≡ None) }
    ensures planned { IfOk result (λ plan. IsPlanned core.now thread plan.0 plan.1.items) }
{
    known(core);
    let no = check_complete(core.machine().tables(), caller, thread)?.no;
    let idents = leaving(alloc, core.machine(), no)?;
    Ok((no, idents))
}

// Unloads each of the rows that is still loaded: one may have left with another before it.
fn unload_each(core: &mut Core, cpu: u32, idents: &[Ident])
    requires processor { cpu < 8 }
    requires sealed { core.old.sealed ≡ true }
    requires rows { (ident : Ident) → Contains idents.now ident → ident.kind ≡ Mapping }
    requires room { count_loaded core.old + 1 ≤ core.old.journal.spare }
    ensures left { HaveLeft cpu idents.now core.old core.new }
    ensures none { idents.now ≡ [] → core.new ≡ core.old }
{
    known(core);
    for ident in idents {
        unload_loaded(core, cpu, *ident);
    }
}

// Unloads a row, if it is loaded.
fn unload_loaded(core: &mut Core, cpu: u32, ident: Ident)
    requires processor { cpu < 8 }
    requires sealed { core.old.sealed ≡ true }
    requires row { ident.kind ≡ Mapping }
    requires room { count_loaded core.old + 1 ≤ core.old.journal.spare }
    ensures left { HasLeftIf cpu ident core.old core.new }
{
    known(core);
    if let Standing::Live = core.machine().tables().standing(ident) {
        core.unload(cpu, ident);
    }
}

// Does nothing. A proof has from it what holds of every core and of its tables.
fn known(core: &Core)
    ensures whole { IsWhole (contents_of core.now) }
    ensures formed { IsWellFormed (state_of core.now.machine) }
    ensures good { AreGood (state_of core.now.machine) (residents_of (contents_of core.now)) }
    ensures sealed { 0 < count_loaded core.now → core.now.sealed ≡ true }
    ensures out { OnlyLoadedAreOut (contents_of core.now) }
{
    core.holds();
    core.machine().holds();
    core.machine().tables_are_sound();
}
