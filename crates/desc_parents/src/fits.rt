//! Whether the rights of a kernel cover a row.

ghost use Rattle.std.specs.Prelude.{◌≡◌, ℕ, ◌<◌};
ghost use Rattle.cache_ident.specs.declared.names.Name.{Name};
ghost use Rattle.phys_groups.specs.Translation.{right_on};
ghost use Rattle.group_laws.specs.flat_state.specs.Dependence.{owner};
ghost use Rattle.group_laws.specs.flat_state.specs.Names.{is_fit_found};
ghost use Rattle.group_laws.specs.flat_state.specs.Translation.{is_fit_row, rights_of};
ghost use Rattle.store_residents.specs.desc_stores.specs.Contents.{content_of};
ghost use Rattle.shown_state.specs.Shown.{row_of_item};
ghost use Rattle.desc_parents.specs.Seen.{seen, HasPlainRows};

use cache_ident::{KernelNo, Name, SpaceNo};
use phys_groups::{Rights, Row};
use store_residents::{ItemRef, Stores};

/// The kernel of a space; `None` where there is no such space. One search.
pub fn kernel_of(stores: &Stores, space: SpaceNo) -> Option<KernelNo>
    ensures { result ≡ owner (seen stores.now) (Name.Space space) }
{
    stores.each_is_one();
    match stores.item(Name::Space(space)) {
        Some(ItemRef::Space(found)) => Some(found.kernel),
        _ => None,
    }
}

// Whether the rights of the kernel that owns a row's space cover the row's flags on its frame. A row of a space that isn't
// there has no rights. Two searches.
fn is_fit(stores: &Stores, row: &Row) -> bool
    requires frame { row.now.frame.0 < 2048 }
    ensures { result ≡ is_fit_row (seen stores.now) row.now }
{
    rights_over(stores, row.space).covers(row.frame, row.flags)
}

// The rights of the kernel that owns a space; none where there is no such space.
fn rights_over(stores: &Stores, space: SpaceNo) -> Rights
    ensures { (group : ℕ) → right_on result group ≡ right_on (rights_of (seen stores.now) space) group }
{
    stores.each_is_one();
    let none = Rights::none();
    let Some(kernel) = kernel_of(stores, space) else {
        return none;
    };
    match stores.item(Name::Kernel(kernel)) {
        Some(ItemRef::Kernel(found)) => found.rights,
        _ => none,
    }
}

/// Whether a name is that of a fit row. Three searches.
pub(crate) fn names_fit_row(stores: &Stores, name: Name) -> bool
    requires rows { HasPlainRows (seen stores.now) }
    ensures { result ≡ is_fit_found (seen stores.now) (row_of_item (content_of stores.now name)) }
{
    stores.each_is_one();
    match stores.item(name) {
        Some(ItemRef::Mapping(row)) => is_fit(stores, row),
        _ => false,
    }
}
