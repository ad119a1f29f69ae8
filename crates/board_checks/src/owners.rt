//! Who owns what a call names.

ghost use Rattle.std.specs.Prelude.{◌≡◌, Some};
ghost use Rattle.std.specs.Option.{option_and_then};
ghost use Rattle.std.specs.Result.{result_err};
ghost use Rattle.cache_ident.specs.declared.names.Name.{Name};
ghost use Rattle.board_ops.specs.flat_state.specs.Dependence.{owner as owner_in};
ghost use Rattle.desc_tables.specs.desc_stores.specs.Contents.{content_of};
ghost use Rattle.desc_tables.specs.desc_stores.specs.Items.{name_of, shown};
ghost use Rattle.desc_tables.specs.desc_parents.specs.Seen.{seen};
ghost use Rattle.board_checks.specs.Refusals.{not_owner};

use board_ops::Refused;
use cache_ident::{Ident, KernelNo, Name, SpaceNo};
use desc_tables::{ItemRef, Tables};

/// The kernel that owns a descriptor that stands. The first kernel owns kernels, a kernel its spaces and what is in them. For a
/// thread and a row it takes a search for their space, and constant time where `near` is the identifier that it is loaded with.
pub(crate) fn owner_of(tables: &Tables, item: ItemRef<'_>, near: Option<Ident>) -> Option<KernelNo>
    requires there { content_of tables.now.contents (name_of (shown item)) ≡ Some (shown item) }
    ensures { result ≡ owner_in (seen tables.now.contents) (name_of (shown item.entry)) }
{
    tables.are_sound();
    match item {
        ItemRef::Kernel(_) => Some(KernelNo(0)),
        ItemRef::Space(space) => Some(space.kernel),
        ItemRef::Thread(thread) => kernel_of(tables, thread.space, near),
        ItemRef::Mapping(row) => kernel_of(tables, row.space, near),
    }
}

/// The kernel of a space; `None` where there is no such space. Constant time where `near` is the identifier that it is loaded
/// with.
pub(crate) fn kernel_of(tables: &Tables, space: SpaceNo, near: Option<Ident>) -> Option<KernelNo>
    ensures { result ≡ owner_in (seen tables.now.contents) (Name.Space space) }
{
    tables.are_sound();
    match tables.item_near(Name::Space(space), near) {
        Some(ItemRef::Space(found)) => Some(found.kernel),
        _ => None,
    }
}

/// Refuses what a kernel asks of a descriptor that another one owns (`NotOwner`). It costs what `owner_of` does.
pub(crate) fn check_owner(
    tables: &Tables,
    given: KernelNo,
    item: ItemRef<'_>,
    near: Option<Ident>,
) -> Result<(), Refused>
    requires there { content_of tables.now.contents (name_of (shown item)) ≡ Some (shown item) }
    ensures { result_err result ≡ option_and_then (not_owner given) (owner_in (seen tables.now.contents) (name_of (shown item.entry))) }
{
    match owner_of(tables, item, near) {
        Some(owner) => are_same(given, owner),
        None => Ok(()),
    }
}

fn are_same(given: KernelNo, owner: KernelNo) -> Result<(), Refused>
    ensures { result_err result ≡ not_owner given owner }
{
    if given.0 == owner.0 {
        Ok(())
    } else {
        Err(Refused::NotOwner { given, owner })
    }
}
