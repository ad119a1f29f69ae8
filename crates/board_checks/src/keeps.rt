//! What a load keeps in the caches.

ghost use Rattle.std.specs.Prelude.{◌≡◌, ◌↔◌, ◌<◌, ◌∷◌, ◌&&◌, [], false, is_none, length, not, slice_get, Contains, IsTrue, None, Some};
ghost use Rattle.cache_ident.specs.declared.idents.Ident.{Ident};
ghost use Rattle.phys_groups.specs.Rows.{row_name};
ghost use Rattle.desc_tables.specs.Keeps.{KeepsParentsAs, KeepsParentsOf};
ghost use Rattle.board_checks.specs.Facts.{IsFormed, IsLoadable};
ghost use Rattle.board_checks.specs.Keeps.{HasAlso, IsAboveSome, IsKept, IsKeptForSome, IsLoadableBeside, IsOrIsAbove, StartsWith};

use arrayvec::ArrayVec;
use cache_ident::{Ident, Name};
use desc_tables::Tables;
use flat_state::MOST_WANTED;
use phys_groups::Row;
use slot_cache::Descriptor;

/// The identifiers that a load keeps: with the new descriptor no more than one step wants.
pub type Keep = ArrayVec<Ident, MOST_WANTED>;

/// A kernel alone.
pub(crate) fn keep_kernel(kernel: Ident) -> Keep
    ensures { result.items ≡ kernel ∷ [] }
{
    let mut keep = Keep::new();
    keep.push(kernel);
    keep
}

/// A space and its kernel.
pub(crate) fn keep_space_and_kernel(space: Ident, kernel: Ident) -> Keep
    ensures { result.items ≡ space ∷ kernel ∷ [] }
{
    let mut keep = Keep::new();
    keep.push(space);
    keep.push(kernel);
    keep
}

/// The identifiers of all that a row depends on, over any number of steps, where it may be loaded: its space and its kernel, and
/// of a signal row or a message row what `keep_of` finds.
pub(crate) fn keep_of_row(tables: &Tables, row: &Row, space: Ident, kernel: Ident) -> Keep
    requires formed { IsFormed tables.now.contents }
    requires may { IsLoadable tables.now.contents (row_name row.now) }
    requires plain { row.now.flags.m ≡ false → row.now.receiver ≡ None → IsLoadableBeside tables.now.contents (row_name row.now) (space ∷ kernel ∷ []) }
    ensures { IsLoadableBeside tables.now.contents (row_name row.now) result.items }
{
    if is_plain(row) {
        return keep_space_and_kernel(space, kernel);
    }
    keep_of(tables, row.name())
}

// Whether a row depends on its space alone.
fn is_plain(row: &Row) -> bool
    ensures { result ≡ (not row.now.flags.m && is_none row.now.receiver) }
{
    !row.flags.m && row.receiver.is_none()
}

// The identifiers of all that a descriptor depends on, over any number of steps, where it may be loaded. It takes a search
// for each of them, and for a message row four more for each signal row of its frame.
fn keep_of(tables: &Tables, name: Name) -> Keep
    requires formed { IsFormed tables.now.contents }
    requires may { IsLoadable tables.now.contents name }
    ensures { IsLoadableBeside tables.now.contents name result.items }
{
    tables.are_sound();
    let mut keep = Keep::new();
    add_parents(tables, name, &mut keep);
    let mut at = 0;
    while at < keep.len() {
        let ident = ident_at(keep.as_slice(), at);
        add_parents_as(tables, ident, &mut keep);
        at += 1;
    }
    keep
}

fn ident_at(keep: &[Ident], at: usize) -> Ident
    requires { at < length keep.now }
    ensures { slice_get keep.now at ≡ Some result }
{
    keep[at]
}

// Adds all that what is loaded with an identifier depends on.
fn add_parents_as(tables: &Tables, ident: Ident, keep: &mut Keep)
    requires formed { IsFormed tables.now.contents }
    requires kept { IsKeptForSome tables.now.contents keep.old.items }
    requires its { Contains keep.old.items ident }
    ensures kept { (root : Name) → IsKept tables.now.contents root keep.old.items → IsKept tables.now.contents root keep.new.items }
    ensures starts { StartsWith keep.old.items keep.new.items }
    ensures has { KeepsParentsAs tables.now.contents keep.new.items ident }
{
    tables.are_sound();
    if let Some(item) = tables.get(ident) {
        add_parents(tables, item.name(), keep);
    }
}

// Adds all that a descriptor depends on, as far as it is loaded.
fn add_parents(tables: &Tables, name: Name, keep: &mut Keep)
    requires formed { IsFormed tables.now.contents }
    requires above { IsAboveSome tables.now.contents keep.old.items name }
    ensures kept { (root : Name) → IsKept tables.now.contents root keep.old.items → IsOrIsAbove tables.now.contents root name → IsKept tables.now.contents root keep.new.items }
    ensures starts { StartsWith keep.old.items keep.new.items }
    ensures has { KeepsParentsOf tables.now.contents keep.new.items name }
{
    tables.are_sound();
    let found = tables.parents(name);
    let parents = found.as_slice();
    for parent in parents {
        add(*parent, keep);
    }
}

// Adds an identifier, if it isn't there.
fn add(ident: Ident, keep: &mut Keep)
    requires room { length keep.old.items < MOST_WANTED }
    ensures { HasAlso keep.old.items keep.new.items ident }
{
    if is_kept(keep, ident) {
        return;
    }
    keep.push(ident);
}

fn is_kept(keep: &[Ident], ident: Ident) -> bool
    ensures { IsTrue result ↔ Contains keep.now ident }
{
    keep.contains(&ident)
}
