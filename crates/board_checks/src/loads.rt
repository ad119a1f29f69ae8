//! What is tested before a load, and what has to stay for it.

ghost use Rattle.std.specs.Prelude.{◌≡◌, ◌<◌, Some, IfNone, IfOk, IfSome};
ghost use Rattle.std.specs.Option.{option_map};
ghost use Rattle.std.specs.Result.{result_err};
ghost use Rattle.cache_ident.specs.declared.names.Name.{Name};
ghost use Rattle.cache_ident.specs.Residents.{IsNameResident, IsResident};
ghost use Rattle.desc_tables.specs.desc_stores.specs.Contents.{content_of, residents_of};
ghost use Rattle.desc_tables.specs.desc_stores.specs.Items.{shown};
ghost use Rattle.desc_tables.specs.desc_stores.specs.declared.items.Item.{Item};
ghost use Rattle.board_ops.specs.declared.refusals.Refused.{Refused};
ghost use Rattle.board_checks.specs.Facts.{IsFormed};
ghost use Rattle.board_checks.specs.Identifiers.{space_as as space_number};
ghost use Rattle.board_checks.specs.Keeps.{IsLoadableBeside};
ghost use Rattle.board_checks.specs.Refusals.{not_declared, refusal_of_load_kernel, refusal_of_load_mapping, refusal_of_load_space, refusal_of_load_thread, wrong_parent};

use crate::fits::{check_receivers, check_rights};
use crate::idents::{kernel_as, receiver_as, space_as};
use crate::keeps::{Keep, keep_kernel, keep_of_row, keep_space_and_kernel};
use crate::owners::check_owner;
use board_ops::Refused;
use cache_ident::{Ident, KernelNo, Name, SpaceNo, ThreadNo, Vpn};
use desc_tables::{FoundItem, ItemRef, Tables};
use kind_store::Found;
use phys_groups::Row;
use thread_cache::ThreadRec;

/// What may be loaded, and what has to stay in the caches for it.
#[derive(Drop)]
pub struct Loadable {
    pub name: Name,
    /// The identifiers of all that it depends on, over any number of steps.
    pub keep: Keep,
}

/// Whether a kernel may be loaded for the kernel `caller`, and what has to stay for it: nothing.
pub fn check_load_kernel(
    tables: &Tables,
    caller: Ident,
    kernel: KernelNo,
) -> Result<Loadable, Refused>
    requires formed { IsFormed tables.now.contents }
    ensures exact { result_err result ≡ refusal_of_load_kernel tables.now.contents caller kernel }
    ensures named { IfOk result (λ found. found.name ≡ Name.Kernel kernel) }
    ensures may { IfOk result (λ found. IsLoadableBeside tables.now.contents found.name found.keep.items) }
{
    tables.are_sound();
    let given = kernel_as(tables, caller)?.no;
    let name = Name::Kernel(kernel);
    let declared = declared_item(tables, name)?;
    check_owner(tables, given, declared.item, None)?;
    check_absent(declared.ident)?;
    Ok(Loadable {
        name,
        keep: Keep::new(),
    })
}

/// Whether a space may be loaded for the kernel `caller`, and what has to stay for it: its kernel, which is the caller.
pub fn check_load_space(tables: &Tables, caller: Ident, space: SpaceNo) -> Result<Loadable, Refused>
    requires formed { IsFormed tables.now.contents }
    ensures exact { result_err result ≡ refusal_of_load_space tables.now.contents caller space }
    ensures named { IfOk result (λ found. found.name ≡ Name.Space space) }
    ensures may { IfOk result (λ found. IsLoadableBeside tables.now.contents found.name found.keep.items) }
{
    tables.are_sound();
    let given = kernel_as(tables, caller)?.no;
    let name = Name::Space(space);
    let declared = declared_item(tables, name)?;
    check_owner(tables, given, declared.item, None)?;
    check_absent(declared.ident)?;
    Ok(Loadable {
        name,
        keep: keep_kernel(caller),
    })
}

/// Whether a thread may be loaded into the space `parent` for the kernel `caller`, and what has to stay for it: these two. One
/// search where the thread is of that space.
pub fn check_load_thread(
    tables: &Tables,
    caller: Ident,
    parent: Ident,
    thread: ThreadNo,
) -> Result<Loadable, Refused>
    requires formed { IsFormed tables.now.contents }
    ensures exact { result_err result ≡ refusal_of_load_thread tables.now.contents caller parent thread }
    ensures named { IfOk result (λ found. found.name ≡ Name.Thread thread) }
    ensures may { IfOk result (λ found. IsLoadableBeside tables.now.contents found.name found.keep.items) }
{
    tables.are_sound();
    let given = kernel_as(tables, caller)?.no;
    let space = space_as(tables, parent)?.no;
    let declared = declared_thread(tables, thread)?;
    let record = declared.value;
    let name = Name::Thread(thread);
    check_owner(tables, given, ItemRef::Thread(record), Some(parent))?;
    check_parent(Some(Name::Space(space)), Some(Name::Space(record.space)))?;
    check_absent(declared.ident)?;
    Ok(Loadable {
        name,
        keep: keep_space_and_kernel(parent, caller),
    })
}

/// Whether the row of a page may be loaded into the space `parent` for the kernel `caller`, with the thread `receiver`, and what
/// has to stay for it: these, and for a message row the fit signal rows of its frame, with what they depend on. It takes one
/// search, and for a message row some for each signal row of the frame.
pub fn check_load_mapping(
    tables: &Tables,
    caller: Ident,
    parent: Ident,
    vpn: Vpn,
    receiver: Option<Ident>,
) -> Result<Loadable, Refused>
    requires formed { IsFormed tables.now.contents }
    ensures exact { result_err result ≡ refusal_of_load_mapping tables.now.contents caller parent vpn receiver }
    ensures named { IfOk result (λ found. option_map (λ space. Name.Mapping space vpn) (space_number tables.now.contents parent) ≡ Some found.name) }
    ensures may { IfOk result (λ found. IsLoadableBeside tables.now.contents found.name found.keep.items) }
{
    tables.are_sound();
    let given = kernel_as(tables, caller)?;
    let space = space_as(tables, parent)?.no;
    let receiver = receiver_as(tables, receiver)?;
    let declared = declared_row(tables, space, vpn)?;
    let row = declared.value;
    let name = Name::Mapping(space, vpn);
    check_owner(tables, given.no, ItemRef::Mapping(row), Some(parent))?;
    check_parent(receiver, receiver_of(row))?;
    check_absent(declared.ident)?;
    check_rights(&given.rights, row)?;
    check_receivers(tables, row)?;
    Ok(Loadable {
        name,
        keep: keep_of_row(tables, row, parent, caller),
    })
}

// What stands under a name, and the identifier that it is loaded with. Refused where nothing does (`NotDeclared`).
fn declared_item(tables: &Tables, name: Name) -> Result<FoundItem<'_>, Refused>
    ensures exact { result_err result ≡ not_declared tables.now.contents name }
    ensures its { IfOk result (λ found. content_of tables.now.contents name ≡ Some (shown found.item)) }
    ensures resident { IfOk result (λ found. IfSome found.ident (λ ident. IsResident (residents_of tables.now.contents) ident name)) }
    ensures absent { IfOk result (λ found. IfNone found.ident (IsNameResident (residents_of tables.now.contents) name → ⊥)) }
{
    tables.are_sound();
    match tables.found(name) {
        Some(found) => Ok(found),
        None => Err(Refused::NotDeclared { name }),
    }
}

// The thread of a number, and the identifier that it is loaded with. Refused where there is none (`NotDeclared`).
fn declared_thread(tables: &Tables, thread: ThreadNo) -> Result<Found<'_, ThreadRec>, Refused>
    ensures exact { result_err result ≡ not_declared tables.now.contents (Name.Thread thread) }
    ensures its { IfOk result (λ found. content_of tables.now.contents (Name.Thread thread) ≡ Some (Item.Thread found.value.now)) }
    ensures resident { IfOk result (λ found. IfSome found.ident (λ ident. IsResident (residents_of tables.now.contents) ident (Name.Thread thread))) }
    ensures absent { IfOk result (λ found. IfNone found.ident (IsNameResident (residents_of tables.now.contents) (Name.Thread thread) → ⊥)) }
{
    let found = declared_item(tables, Name::Thread(thread))?;
    let ident = found.ident;
    match found.item {
        ItemRef::Thread(value) => Ok(Found { value, ident }),
        _ => unreachable!(),
    }
}

// The row of a page, and the identifier that it is loaded with. Refused where there is none (`NotDeclared`).
fn declared_row(tables: &Tables, space: SpaceNo, vpn: Vpn) -> Result<Found<'_, Row>, Refused>
    ensures exact { result_err result ≡ not_declared tables.now.contents (Name.Mapping space vpn) }
    ensures its { IfOk result (λ found. content_of tables.now.contents (Name.Mapping space vpn) ≡ Some (Item.Mapping found.value.now)) }
    ensures framed { IfOk result (λ found. found.value.now.frame.0 < 2048) }
    ensures resident { IfOk result (λ found. IfSome found.ident (λ ident. IsResident (residents_of tables.now.contents) ident (Name.Mapping space vpn))) }
    ensures absent { IfOk result (λ found. IfNone found.ident (IsNameResident (residents_of tables.now.contents) (Name.Mapping space vpn) → ⊥)) }
{
    tables.are_sound();
    let found = declared_item(tables, Name::Mapping(space, vpn))?;
    let ident = found.ident;
    match found.item {
        ItemRef::Mapping(value) => Ok(Found { value, ident }),
        _ => unreachable!(),
    }
}

// The name of a row's receiver, if it has one.
fn receiver_of(row: &Row) -> Option<Name>
    ensures { result ≡ option_map Name.Thread row.now.receiver }
{
    let thread = row.receiver?;
    Some(Name::Thread(thread))
}

// Refuses a load where something else was given than is declared (`WrongParent`).
fn check_parent(given: Option<Name>, declared: Option<Name>) -> Result<(), Refused>
    ensures { result_err result ≡ wrong_parent given declared }
{
    if given == declared {
        return Ok(());
    }
    Err(Refused::WrongParent { given, declared })
}

// Refuses a load of what is loaded with an identifier (`AlreadyLoaded`).
fn check_absent(loaded: Option<Ident>) -> Result<(), Refused>
    ensures { result_err result ≡ option_map Refused.AlreadyLoaded loaded }
{
    match loaded {
        Some(ident) => Err(Refused::AlreadyLoaded { ident }),
        None => Ok(()),
    }
}
