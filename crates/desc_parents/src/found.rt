//! The identifiers of what a descriptor depends on.

ghost use Rattle.std.specs.Prelude.{◌≡◌, ◌≢◌, ◌<◌, ◌≤◌, [], ◌∷◌, length, AllPairs, Contains, Some};
ghost use Rattle.depend_lists.specs.declared.nodes.TheConstants.{MOST_PARENTS};
ghost use Rattle.group_laws.specs.flat_state.specs.Dependence.{parents_of_row};
ghost use Rattle.store_residents.specs.desc_stores.specs.Contents.{content_of, residents_of};
ghost use Rattle.store_residents.specs.desc_stores.specs.Items.{name_of, shown};
ghost use Rattle.store_residents.specs.resident_pairs.specs.Among.{AreParents};
ghost use Rattle.desc_parents.specs.Idents.{fit_signal_names, idents_of, HasAlsoIdentsOf};
ghost use Rattle.desc_parents.specs.Seen.{seen, HasPlainRows};

use crate::fits::names_fit_row;
use arrayvec::ArrayVec;
use cache_ident::{Frame, Ident, Name};
use depend_lists::MOST_PARENTS;
use phys_groups::Row;
use store_residents::{ItemRef, Stores};

/// The identifiers of what a descriptor depends on: a message row depends on its space and at most four signal rows, any
/// other row on its space and its receiver.
pub type Parents = ArrayVec<Ident, MOST_PARENTS>;

/// The identifiers of all that a content that stands depends on, as far as it is loaded, each once. A search for each, and
/// for a message row four more for each signal row of its frame.
pub fn parents_of(stores: &Stores, item: ItemRef<'_>) -> Parents
    requires rows { HasPlainRows (seen stores.now) }
    requires stands { content_of stores.now (name_of (shown item)) ≡ Some (shown item) }
    ensures parents { AreParents (seen stores.now) (residents_of stores.now) (name_of (shown item.entry)) result.items }
    ensures apart { AllPairs ◌≢◌ result.items }
{
    stores.each_is_one();
    let mut parents = Parents::new();
    match item {
        // A kernel depends on nothing.
        ItemRef::Kernel(_) => {}
        ItemRef::Space(space) => add(stores, Name::Kernel(space.kernel), &mut parents),
        ItemRef::Thread(thread) => add(stores, Name::Space(thread.space), &mut parents),
        ItemRef::Mapping(row) => add_those_of_row(stores, row, &mut parents),
    }
    parents
}

// Adds the identifiers of what a row depends on, where there are none yet.
fn add_those_of_row(stores: &Stores, row: &Row, parents: &mut Parents)
    requires rows { HasPlainRows (seen stores.now) }
    requires there { Contains (seen stores.now).rows row.now }
    requires empty { parents.old.items ≡ [] }
    ensures { parents.new.items ≡ idents_of (residents_of stores.now) (parents_of_row (seen stores.now) row.now) }
{
    add(stores, Name::Space(row.space), parents);
    if let Some(thread) = row.receiver {
        add(stores, Name::Thread(thread), parents);
    }
    if row.flags.m {
        add_fit_signal_rows(stores, row.frame, parents);
    }
}

// Adds the identifiers of the fit signal rows of a frame.
fn add_fit_signal_rows(stores: &Stores, frame: Frame, parents: &mut Parents)
    requires rows { HasPlainRows (seen stores.now) }
    requires room { length parents.old.items ≤ 1 }
    ensures { HasAlsoIdentsOf (residents_of stores.now) parents.old.items parents.new.items (fit_signal_names (seen stores.now) frame) }
{
    stores.each_is_one();
    for name in stores.signal_rows(frame) {
        if names_fit_row(stores, name) {
            add(stores, name, parents);
        }
    }
}

// Adds the identifier with which a name is loaded, if it is.
fn add(stores: &Stores, name: Name, parents: &mut Parents)
    requires room { length parents.old.items < MOST_PARENTS }
    ensures { HasAlsoIdentsOf (residents_of stores.now) parents.old.items parents.new.items (name ∷ []) }
{
    stores.each_is_one();
    if let Some(ident) = stores.resident(name) {
        parents.push(ident);
    }
}
