//! Unloads and locks.

ghost use Rattle.std.specs.Prelude.{◌≡◌, ◌≢◌, ◌<◌, false, true, None, IfErr, OnOk};
ghost use Rattle.board_checks.specs.board_ops.specs.declared.refusals.Refused.TheVariants.{NoMemory};
ghost use Rattle.board_checks.specs.Refusals.{refusal_of_lock, refusal_of_unload, refusal_of_unlock};
ghost use Rattle.board_core.specs.Answers.{HasCallRoom, IsRefused};
ghost use Rattle.board_core.specs.Core.{contents_of};
ghost use Rattle.board_loads.specs.Holds.{IsLockedAs, IsUnloadedAs};

use board_checks::{check_lock, check_unload, check_unlock};
use board_core::{Core, Refused};
use cache_ident::Ident;

/// Unloads what is loaded with an identifier for the kernel `caller`, which has to own it, and before it all that depends on it.
/// It may be locked.
///
/// It is refused where `caller` isn't the identifier of a loaded kernel (`Unknown`, `Stale`, `WrongKind`), where nothing is loaded
/// with `ident` (`Unknown`, `Stale`), where another kernel owns that (`NotOwner`), and where it is the first kernel
/// (`FirstKernel`). It costs some searches for each descriptor that leaves.
pub fn unload(core: &mut Core, cpu: u32, caller: Ident, ident: Ident) -> Result<(), Refused>
    requires processor { cpu < 8 }
    ensures refused { IfErr result (IsRefused (refusal_of_unload (contents_of core.old) caller ident) core.old core.new) }
    ensures done { OnOk result (refusal_of_unload (contents_of core.old) caller ident ≡ None) }
    ensures unloaded { OnOk result (IsUnloadedAs cpu ident core.old core.new) }
    ensures enough { HasCallRoom core.old → IfErr result (λ why. why ≢ NoMemory) }
{
    let checked = check_unload(core.tables(), caller, ident);
    core.make_room(0, 0)?;
    checked?;
    core.unload(cpu, ident);
    Ok(())
}

/// Locks what is loaded with an identifier for the kernel `caller`, which has to own it. What is locked stays so, without an
/// entry.
///
/// It is refused where `caller` isn't the identifier of a loaded kernel (`Unknown`, `Stale`, `WrongKind`), where nothing is loaded
/// with `ident` (`Unknown`, `Stale`), where another kernel owns that (`NotOwner`), and where it isn't locked and its owner has as
/// many locked of the kind as it may have (`LimitReached`). It costs a logarithm of what is loaded.
pub fn lock(core: &mut Core, cpu: u32, caller: Ident, ident: Ident) -> Result<(), Refused>
    requires processor { cpu < 8 }
    ensures refused { IfErr result (IsRefused (refusal_of_lock (contents_of core.old) caller ident) core.old core.new) }
    ensures done { OnOk result (refusal_of_lock (contents_of core.old) caller ident ≡ None) }
    ensures locked { OnOk result (IsLockedAs cpu ident true core.old core.new) }
    ensures enough { HasCallRoom core.old → IfErr result (λ why. why ≢ NoMemory) }
{
    let checked = check_lock(core.tables(), caller, ident);
    core.make_entries(1)?;
    checked?;
    core.lock(cpu, ident);
    Ok(())
}

/// Ends the lock of what is loaded with an identifier for the kernel `caller`, which has to own it. What isn't locked stays so,
/// without an entry.
///
/// It is refused where `caller` isn't the identifier of a loaded kernel (`Unknown`, `Stale`, `WrongKind`), where nothing is loaded
/// with `ident` (`Unknown`, `Stale`), where another kernel owns that (`NotOwner`), and where it is the first kernel
/// (`FirstKernel`). It costs some searches.
pub fn unlock(core: &mut Core, cpu: u32, caller: Ident, ident: Ident) -> Result<(), Refused>
    requires processor { cpu < 8 }
    ensures refused { IfErr result (IsRefused (refusal_of_unlock (contents_of core.old) caller ident) core.old core.new) }
    ensures done { OnOk result (refusal_of_unlock (contents_of core.old) caller ident ≡ None) }
    ensures unlocked { OnOk result (IsLockedAs cpu ident false core.old core.new) }
    ensures enough { HasCallRoom core.old → IfErr result (λ why. why ≢ NoMemory) }
{
    let checked = check_unlock(core.tables(), caller, ident);
    core.make_entries(1)?;
    checked?;
    core.unlock(cpu, ident);
    Ok(())
}
