//! What is tested before a descriptor is unloaded, locked or unlocked.

ghost use Rattle.std.specs.Prelude.{◌≡◌, ◌≢◌, true, Some, None, OnOk, IfNone, IfOk, IfSome};
ghost use Rattle.std.specs.Option.{option_or};
ghost use Rattle.std.specs.Result.{result_err};
ghost use Rattle.cache_ident.specs.declared.idents.Kind.TheVariants as kind;
ghost use Rattle.cache_ident.specs.declared.idents.Standing.TheVariants.{Live};
ghost use Rattle.cache_ident.specs.Names.{first_name};
ghost use Rattle.cache_ident.specs.Residents.{IsResident};
ghost use Rattle.cache_ident.specs.Rolls.{standing_in};
ghost use Rattle.desc_tables.specs.desc_stores.specs.declared.items.Item.{Item};
ghost use Rattle.desc_tables.specs.desc_stores.specs.Contents.{content_of, item_as, residents_of};
ghost use Rattle.desc_tables.specs.desc_stores.specs.Items.{shown};
ghost use Rattle.cache_ident.specs.declared.names.Name.{Name};
ghost use Rattle.board_ops.specs.flat_state.specs.Names.{stands};
ghost use Rattle.desc_tables.specs.desc_parents.specs.Seen.{seen};
ghost use Rattle.desc_tables.specs.desc_groups.specs.Moves.{MayBeLocked};
ghost use Rattle.board_checks.specs.Identifiers.{not_a, not_live};
ghost use Rattle.board_checks.specs.Refusals.{at_limit, is_first_kernel, limit_reached, not_owned_as, refusal_of_lock, refusal_of_unload, refusal_of_unlock};

use crate::idents::{kernel_as, live};
use crate::owners::{check_owner, owner_of};
use board_ops::Refused;
use cache_ident::{Ident, KernelNo, Kind, Name};
use desc_tables::{ItemRef, Tables};
use kernel_cache::KernelRec;

/// Whether what is loaded with an identifier may be unloaded for the kernel `caller`; its name, if so. It may be locked.
pub fn check_unload(tables: &Tables, caller: Ident, ident: Ident) -> Result<Name, Refused>
    ensures exact { result_err result ≡ refusal_of_unload tables.now.contents caller ident }
    ensures live { OnOk result (standing_in tables.now.contents.issued ident ≡ Live) }
    ensures named { IfOk result (IsResident (residents_of tables.now.contents) ident) }
    ensures not_first { IfOk result (λ name. name ≢ first_name) }
{
    tables.are_sound();
    let name = owned_as(tables, caller, ident)?.name();
    check_first(name)?;
    Ok(name)
}

/// Whether what is loaded with an identifier may be unlocked for the kernel `caller`; its name, if so. It needn't be locked.
pub fn check_unlock(tables: &Tables, caller: Ident, ident: Ident) -> Result<Name, Refused>
    ensures exact { result_err result ≡ refusal_of_unlock tables.now.contents caller ident }
    ensures live { OnOk result (standing_in tables.now.contents.issued ident ≡ Live) }
    ensures named { IfOk result (IsResident (residents_of tables.now.contents) ident) }
    ensures not_first { IfOk result (λ name. name ≢ first_name) }
{
    check_unload(tables, caller, ident)
}

/// Whether what is loaded with an identifier may be locked for the kernel `caller`; its name, if so. What is locked may be.
pub fn check_lock(tables: &Tables, caller: Ident, ident: Ident) -> Result<Name, Refused>
    ensures exact { result_err result ≡ refusal_of_lock tables.now.contents caller ident }
    ensures live { OnOk result (standing_in tables.now.contents.issued ident ≡ Live) }
    ensures named { IfOk result (IsResident (residents_of tables.now.contents) ident) }
    ensures may { OnOk result (MayBeLocked tables.now.contents ident) }
{
    tables.are_sound();
    let item = owned_as(tables, caller, ident)?;
    check_limit(tables, ident, item)?;
    Ok(item.name())
}

// What is loaded with an identifier, and is the caller's.
fn owned_as(tables: &Tables, caller: Ident, ident: Ident) -> Result<ItemRef<'_>, Refused>
    ensures exact { result_err result ≡ option_or (not_a kind.Kernel tables.now.contents caller) (option_or (not_live tables.now.contents ident) (not_owned_as tables.now.contents caller ident)) }
    ensures its { IfOk result (λ item. item_as tables.now.contents ident ≡ Some (shown item)) }
{
    tables.are_sound();
    let given = kernel_as(tables, caller)?.no;
    let item = live(tables, ident)?;
    check_owner(tables, given, item, None)?;
    Ok(item)
}

// Refuses what would unload or unlock the first kernel (`FirstKernel`).
fn check_first(name: Name) -> Result<(), Refused>
    ensures { result_err result ≡ is_first_kernel name }
{
    if name == Name::Kernel(KernelNo(0)) {
        return Err(Refused::FirstKernel);
    }
    Ok(())
}

// Refuses a lock where what is loaded isn't locked, and its owner may lock no more of the kind (`LimitReached`).
fn check_limit(tables: &Tables, ident: Ident, item: ItemRef<'_>) -> Result<(), Refused>
    requires { item_as tables.now.contents ident ≡ Some (shown item) }
    ensures { result_err result ≡ limit_reached tables.now.contents ident }
{
    tables.are_sound();
    if tables.is_locked(ident) {
        return Ok(());
    }
    match owner_of(tables, item, None) {
        Some(kernel) => check_locks_left(tables, kernel, ident.kind),
        None => Ok(()),
    }
}

// Refuses a lock of a kernel that has locked as many of a kind as it may.
fn check_locks_left(tables: &Tables, kernel: KernelNo, kind: Kind) -> Result<(), Refused>
    requires { stands (seen tables.now.contents) (Name.Kernel kernel) ≡ true }
    ensures { result_err result ≡ at_limit tables.now.contents kind kernel }
{
    tables.are_sound();
    let Some(found) = kernel_at(tables, kernel) else {
        unreachable!()
    };
    let limit = found.limits.of(kind);
    if found.locked.of(kind) < limit {
        return Ok(());
    }
    Err(Refused::LimitReached {
        kernel,
        kind,
        limit,
    })
}

// The record of a kernel; `None` where there is none of that number.
fn kernel_at(tables: &Tables, kernel: KernelNo) -> Option<&KernelRec>
    ensures found { IfSome result (λ found. content_of tables.now.contents (Name.Kernel kernel) ≡ Some (Item.Kernel found.now)) }
    ensures absent { IfNone result (content_of tables.now.contents (Name.Kernel kernel) ≡ None) }
{
    match tables.item(Name::Kernel(kernel)) {
        Some(ItemRef::Kernel(found)) => Some(found),
        _ => None,
    }
}
