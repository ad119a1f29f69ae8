//! Whether the rights of a kernel cover a row, and which rows it waits for.

ghost use Rattle.std.specs.Prelude.{◌≡◌, ℕ, ◌<◌, ◌/◌, ◌&&◌, if◌then◌else◌, filter, find, None, Some};
ghost use Rattle.std.specs.Option.{option_map};
ghost use Rattle.std.specs.Result.{result_err};
ghost use Rattle.cache_ident.specs.declared.names.Name.{Name};
ghost use Rattle.phys_groups.specs.Rows.{row_name};
ghost use Rattle.phys_groups.specs.Translation.{is_fit, right_on};
ghost use Rattle.board_ops.specs.signal_pages.specs.Signals.{is_signal_row_of};
ghost use Rattle.board_ops.specs.flat_state.specs.Translation.{is_fit_row, rights_of};
ghost use Rattle.desc_tables.specs.desc_parents.specs.Seen.{seen};
ghost use Rattle.board_checks.specs.Refusals.{is_absent, receivers_absent};
ghost use Rattle.board_checks.specs.Facts.{is_missing as is_missing_in};

use crate::owners::kernel_of;
use board_ops::Refused;
use cache_ident::{Frame, Name, SpaceNo};
use desc_tables::{ItemRef, Tables};
use phys_groups::{GROUP_FRAMES, Rights, Row};

/// Refuses a load of a row that the rights of its kernel don't cover (`Rights`).
pub(crate) fn check_rights(rights: &Rights, row: &Row) -> Result<(), Refused>
    requires frame { row.now.frame.0 < 2048 }
    ensures { result_err result ≡ (if is_fit rights.now row.now then None else Some (Refused.Rights row.now.frame (row.now.frame.0 / 128))) }
{
    if rights.covers(row.frame, row.flags) {
        return Ok(());
    }
    Err(Refused::Rights {
        frame: row.frame,
        group: row.frame.0 / GROUP_FRAMES,
    })
}

// Whether the rights of the kernel that owns a row's space cover the row's flags on its frame. Two searches.
fn is_fit(tables: &Tables, row: &Row) -> bool
    requires frame { row.now.frame.0 < 2048 }
    ensures { result ≡ is_fit_row (seen tables.now.contents) row.now }
{
    rights_over(tables, row.space).covers(row.frame, row.flags)
}

// The rights of the kernel that owns a space; none where there is no such space.
fn rights_over(tables: &Tables, space: SpaceNo) -> Rights
    ensures { (group : ℕ) → right_on result group ≡ right_on (rights_of (seen tables.now.contents) space) group }
{
    tables.are_sound();
    let none = Rights::none();
    let Some(kernel) = kernel_of(tables, space, None) else {
        return none;
    };
    match tables.item(Name::Kernel(kernel)) {
        Some(ItemRef::Kernel(found)) => found.rights,
        _ => none,
    }
}

/// Refuses a load of a message row where a fit signal row of its frame isn't loaded (`ReceiversAbsent`).
pub(crate) fn check_receivers(tables: &Tables, row: &Row) -> Result<(), Refused>
    ensures { result_err result ≡ receivers_absent tables.now.contents row.now }
{
    if !row.flags.m {
        return Ok(());
    }
    match first_missing(tables, row.frame) {
        Some(Name::Mapping(space, vpn)) => Err(Refused::ReceiversAbsent { space, vpn }),
        _ => Ok(()),
    }
}

// The first fit signal row of a frame, in declared order, that isn't loaded.
fn first_missing(tables: &Tables, frame: Frame) -> Option<Name>
    ensures { result ≡ option_map row_name (find (is_absent tables.now.contents) (filter (λ other. is_signal_row_of frame other && is_fit_row (seen tables.now.contents) other) (seen tables.now.contents).rows)) }
{
    tables.are_sound();
    for name in tables.signal_rows(frame) {
        if is_missing(tables, name) {
            return Some(name);
        }
    }
    None
}

// Whether a name is that of a fit row that isn't loaded.
fn is_missing(tables: &Tables, name: Name) -> bool
    ensures { result ≡ is_missing_in tables.now.contents name }
{
    tables.are_sound();
    match tables.item(name) {
        Some(ItemRef::Mapping(row)) => is_fit(tables, row) && tables.resident(name).is_none(),
        _ => false,
    }
}
