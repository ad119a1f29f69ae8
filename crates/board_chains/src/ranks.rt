//! Names of kernels, spaces and threads, in this order and each by their numbers.

ghost use Rattle.std.specs.Prelude.{◌≡◌, ◌≢◌, ◌↔◌, ◌⊎◌, ◌+◌, ◌<◌, ◌≤◌, false, length, Contains, IsTrue};
ghost use Rattle.cache_ident.specs.declared.names.Name.{Name};
ghost use Rattle.board_chains.specs.Lists.{AreAllOnce};
ghost use Rattle.board_chains.specs.Ranks.{is_row as is_row_def, number_of, rank_of, AreInOrder, IsBefore};

use crate::names::{Chain, name_at};
use cache_ident::Name;
use flat_state::MOST_WANTED;

fn rank(name: Name) -> u32
    ensures { result ≡ rank_of name }
{
    match name {
        Name::Kernel(_) => 0,
        Name::Space(_) => 1,
        Name::Thread(_) => 2,
        Name::Mapping(_, _) => 3,
    }
}

fn number(name: Name) -> u32
    ensures { result ≡ number_of name }
{
    match name {
        Name::Kernel(kernel) => kernel.0,
        Name::Space(space) => space.0,
        Name::Thread(thread) => thread.0,
        Name::Mapping(_, vpn) => vpn.0,
    }
}

// Whether a name is that of a row.
pub(crate) fn is_row(name: Name) -> bool
    ensures { result ≡ is_row_def name }
{
    matches!(name, Name::Mapping(_, _))
}

fn is_before(one: Name, other: Name) -> bool
    ensures { IsTrue result ↔ IsBefore one other }
{
    if rank(one) == rank(other) {
        return number(one) < number(other);
    }
    rank(one) < rank(other)
}

// The names of the list that are no row's, in order.
pub(crate) fn numbered_among(names: &[Name]) -> Chain
    requires few { length names.now ≤ MOST_WANTED }
    requires apart { AreAllOnce names.now }
    ensures order { AreInOrder result.items }
    ensures exact { (name : Name) → Contains result.items name ↔ (Contains names.now name × (is_row_def name ≡ false)) }
{
    let mut numbered = Chain::new();
    for name in names {
        if !is_row(*name) {
            insert(*name, &mut numbered);
        }
    }
    numbered
}

// Puts a name that isn't there at its place.
fn insert(name: Name, numbered: &mut Chain)
    requires room { length numbered.old.items < MOST_WANTED }
    requires order { AreInOrder numbered.old.items }
    requires plain { (other : Name) → Contains numbered.old.items other → is_row_def other ≡ false }
    requires its { is_row_def name ≡ false }
    requires fresh { Contains numbered.old.items name → ⊥ }
    ensures order { AreInOrder numbered.new.items }
    ensures exact { (other : Name) → Contains numbered.new.items other ↔ (Contains numbered.old.items other ⊎ (name ≡ other)) }
    ensures len { length numbered.new.items ≡ length numbered.old.items + 1 }
{
    let mut at = 0;
    while at < numbered.len() && is_before(name_at(numbered.as_slice(), at), name) {
        at += 1;
    }
    numbered.insert(at, name);
}
