//! How an address of a space translates.

ghost use Rattle.std.specs.Prelude.{◌≡◌, ◌<◌, IfOk, length};
ghost use Rattle.phys_groups.specs.Translation.{row_of};
ghost use Rattle.flat_state.specs.Translation.{is_fit_row as is_fit_row_def, reached as reached_def, rights_of as rights_of_def, wants as wants_def};
ghost use Rattle.flat_rules.specs.Readings.{IsInMemory, Reaches, is_fit_page};

use crate::records::Records;
use cache_ident::{SpaceNo, Vpn};
use phys_groups::{Flags, PAGE_BYTES, Rights, Row};
use rv32_exec::{Access, FaultKind};

/// The rights of the kernel that owns a space.
pub fn rights_of<T: Records>(tables: &T, space: SpaceNo) -> Rights
    requires { space.0 < length (T.state tables.now).spaces }
    ensures { result ≡ rights_of_def (T.state tables.now) space }
{
    tables.holds();
    match tables.kernel_of(space) {
        Some(kernel) => match tables.rights(kernel) {
            Some(rights) => rights,
            None => unreachable!(),
        },
        None => unreachable!(),
    }
}

/// Whether the rights of the kernel that owns the row's space cover its flags on its frame.
pub fn is_fit_row<T: Records>(tables: &T, row: &Row) -> bool
    requires space { row.now.space.0 < length (T.state tables.now).spaces }
    requires frame { row.now.frame.0 < 2048 }
    ensures { result ≡ is_fit_row_def (T.state tables.now) row.now }
{
    rights_of(tables, row.space).covers(row.frame, row.flags)
}

/// Whether there is a row of that page and it is fit: the rights of its space's kernel cover its flags on its frame. It
/// costs a look at the row.
pub fn is_fit<T: Records>(tables: &T, space: SpaceNo, vpn: Vpn) -> bool
    ensures { result ≡ is_fit_page (T.state tables.now) (row_of (T.state tables.now).rows space vpn.0) }
{
    tables.holds();
    match tables.row(space, vpn) {
        Some(row) => is_fit_row(tables, row),
        None => false,
    }
}

/// Whether the flags have the one that the access asks for: x for a fetch, r for a load, w for a store.
#[inline]
pub fn wants(access: Access, flags: Flags) -> bool
    ensures { result ≡ wants_def access flags }
{
    match access {
        Access::Fetch => flags.x,
        Access::Read => flags.r,
        Access::Write => flags.w,
    }
}

/// The row that an access at an address of the space goes through, and why it doesn't translate where it doesn't. The
/// first that holds is the reason: `Page` where the page has no row, `Flags` where the row lacks the flag of the access,
/// and `Rights` where the rights of the kernel that owns the space don't cover the row's flags on its frame. It costs a
/// look at the row.
pub fn reached<T: Records>(
    tables: &T,
    access: Access,
    space: SpaceNo,
    va: u32,
) -> Result<Row, FaultKind>
    ensures reaches { Reaches result (reached_def (T.state tables.now) access space va) }
    ensures in_memory { IfOk result (λ row. IsInMemory (T.state tables.now).memory row.frame) }
{
    tables.holds();
    let Some(row) = tables.row(space, Vpn(va / PAGE_BYTES)) else {
        return Err(FaultKind::Page);
    };
    if !wants(access, row.flags) {
        return Err(FaultKind::Flags);
    }
    if !rights_of(tables, space).covers(row.frame, row.flags) {
        return Err(FaultKind::Rights);
    }
    Ok(*row)
}
