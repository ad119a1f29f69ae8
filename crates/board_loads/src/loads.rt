//! Loads.
//!
//! None is refused because a cache is full: another descriptor leaves then.

ghost use Rattle.std.specs.Prelude.{◌≡◌, ◌≢◌, ◌<◌, true, None, Some, IfErr, IfOk, OnOk};
ghost use Rattle.std.specs.Result.{result_err};
ghost use Rattle.cache_ident.specs.declared.names.Name.{Name};
ghost use Rattle.cache_ident.specs.declared.names.SpaceNo.{SpaceNo};
ghost use Rattle.board_checks.specs.board_ops.specs.declared.refusals.Refused.TheVariants.{NoMemory};
ghost use Rattle.board_checks.specs.Identifiers.{space_as};
ghost use Rattle.board_checks.specs.Keeps.{IsLoadableBeside};
ghost use Rattle.board_checks.specs.Refusals.{refusal_of_load_kernel, refusal_of_load_mapping, refusal_of_load_space, refusal_of_load_thread};
ghost use Rattle.board_core.specs.Answers.{HasCallRoom, IsRefused};
ghost use Rattle.board_core.specs.Core.{contents_of};
ghost use Rattle.board_loads.specs.Loads.{IsLoadedAs};

use board_checks::{
    Loadable, check_load_kernel, check_load_mapping, check_load_space, check_load_thread,
};
use board_core::{Core, Refused};
use cache_ident::{Ident, KernelNo, SpaceNo, ThreadNo, Vpn};

/// Loads a kernel for the kernel `caller`, which has to be the first one, and answers the new identifier.
///
/// It is refused where `caller` isn't the identifier of a loaded kernel (`Unknown`, `Stale`, `WrongKind`), and where there is no
/// kernel of that number (`NotDeclared`), the caller isn't the first one (`NotOwner`) or the kernel is loaded (`AlreadyLoaded`).
/// It costs some searches, and as many for each descriptor that leaves.
pub fn load_kernel(
    core: &mut Core,
    cpu: u32,
    caller: Ident,
    kernel: KernelNo,
) -> Result<Ident, Refused>
    requires processor { cpu < 8 }
    ensures refused { IfErr result (IsRefused (refusal_of_load_kernel (contents_of core.old) caller kernel) core.old core.new) }
    ensures done { OnOk result (refusal_of_load_kernel (contents_of core.old) caller kernel ≡ None) }
    ensures loaded { IfOk result (λ ident. IsLoadedAs cpu (Name.Kernel kernel) ident core.old core.new) }
    ensures enough { HasCallRoom core.old → IfErr result (λ why. why ≢ NoMemory) }
{
    let checked = check_load_kernel(core.tables(), caller, kernel);
    load(core, cpu, checked)
}

/// Loads a space for the kernel `caller`, which has to own it, and answers the new identifier.
///
/// It is refused where `caller` isn't the identifier of a loaded kernel (`Unknown`, `Stale`, `WrongKind`), and where there is no
/// space of that number (`NotDeclared`), another kernel owns it (`NotOwner`) or it is loaded (`AlreadyLoaded`). It costs some
/// searches, and as many for each descriptor that leaves.
pub fn load_space(
    core: &mut Core,
    cpu: u32,
    caller: Ident,
    space: SpaceNo,
) -> Result<Ident, Refused>
    requires processor { cpu < 8 }
    ensures refused { IfErr result (IsRefused (refusal_of_load_space (contents_of core.old) caller space) core.old core.new) }
    ensures done { OnOk result (refusal_of_load_space (contents_of core.old) caller space ≡ None) }
    ensures loaded { IfOk result (λ ident. IsLoadedAs cpu (Name.Space space) ident core.old core.new) }
    ensures enough { HasCallRoom core.old → IfErr result (λ why. why ≢ NoMemory) }
{
    let checked = check_load_space(core.tables(), caller, space);
    load(core, cpu, checked)
}

/// Loads a thread into the loaded space `parent` for the kernel `caller`, which has to own it, and answers the new identifier.
///
/// It is refused where `caller` isn't the identifier of a loaded kernel, or `parent` that of a loaded space (`Unknown`, `Stale`,
/// `WrongKind`), and where there is no thread of that number (`NotDeclared`), another kernel owns it (`NotOwner`), it is of
/// another space (`WrongParent`) or it is loaded (`AlreadyLoaded`). It costs some searches, and as many for each descriptor that
/// leaves.
pub fn load_thread(
    core: &mut Core,
    cpu: u32,
    caller: Ident,
    parent: Ident,
    thread: ThreadNo,
) -> Result<Ident, Refused>
    requires processor { cpu < 8 }
    ensures refused { IfErr result (IsRefused (refusal_of_load_thread (contents_of core.old) caller parent thread) core.old core.new) }
    ensures done { OnOk result (refusal_of_load_thread (contents_of core.old) caller parent thread ≡ None) }
    ensures loaded { IfOk result (λ ident. IsLoadedAs cpu (Name.Thread thread) ident core.old core.new) }
    ensures enough { HasCallRoom core.old → IfErr result (λ why. why ≢ NoMemory) }
{
    let checked = check_load_thread(core.tables(), caller, parent, thread);
    load(core, cpu, checked)
}

/// Loads the row of a page into the loaded space `parent` for the kernel `caller`, which has to own it, with the loaded thread
/// that receives its signals, if it has one; and answers the new identifier.
///
/// It is refused where `caller` isn't the identifier of a loaded kernel, `parent` that of a loaded space or `receiver` that of a
/// loaded thread (`Unknown`, `Stale`, `WrongKind`), and where the space has no row of that page (`NotDeclared`), another kernel
/// owns it (`NotOwner`), it has another receiver (`WrongParent`), it is loaded (`AlreadyLoaded`), the rights of its kernel don't
/// cover it (`Rights`) or, of a message row, a signal row of its frame isn't loaded (`ReceiversAbsent`). It costs some searches,
/// and as many for each descriptor that leaves; a message row costs some for each signal row of its frame.
pub fn load_mapping(
    core: &mut Core,
    cpu: u32,
    caller: Ident,
    parent: Ident,
    vpn: Vpn,
    receiver: Option<Ident>,
) -> Result<Ident, Refused>
    requires processor { cpu < 8 }
    ensures refused { IfErr result (IsRefused (refusal_of_load_mapping (contents_of core.old) caller parent vpn receiver) core.old core.new) }
    ensures done { OnOk result (refusal_of_load_mapping (contents_of core.old) caller parent vpn receiver ≡ None) }
    ensures loaded { IfOk result (λ ident. (space : SpaceNo) × (space_as (contents_of core.old) parent ≡ Some space) × IsLoadedAs cpu (Name.Mapping space vpn) ident core.old core.new) }
    ensures enough { HasCallRoom core.old → IfErr result (λ why. why ≢ NoMemory) }
{
    let checked = check_load_mapping(core.tables(), caller, parent, vpn, receiver);
    load(core, cpu, checked)
}

// Loads what a test found to be loadable, while all that it depends on stays; and else answers what the test did.
fn load(core: &mut Core, cpu: u32, checked: Result<Loadable, Refused>) -> Result<Ident, Refused>
    requires processor { cpu < 8 }
    requires may { IfOk checked (λ found. IsLoadableBeside (contents_of core.old) found.name found.keep.items) }
    requires sealed { OnOk checked (core.old.sealed ≡ true) }
    requires tested { IfErr checked (λ why. why ≢ NoMemory) }
    ensures refused { IfErr result (IsRefused (result_err checked) core.old core.new) }
    ensures done { OnOk result (result_err checked ≡ None) }
    ensures loaded { IfOk result (λ ident. IfOk checked (λ found. IsLoadedAs cpu found.name ident core.old core.new)) }
    ensures enough { HasCallRoom core.old → IfErr result (λ why. why ≢ NoMemory) }
{
    core.holds();
    core.make_room(1, 0)?;
    core.holds();
    let found = checked?;
    Ok(core.load(cpu, found.name, found.keep.as_slice()))
}
