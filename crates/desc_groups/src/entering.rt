//! A descriptor comes to its cache.

ghost use Rattle.std.specs.Prelude.{◌≡◌, ◌+◌, ◌<◌, ◌≤◌, ◌∷◌, [], ◌++◌, ℕ, length, List, Option};
ghost use Rattle.cache_ident.specs.Rolls.{just_issued};
ghost use Rattle.cache_ident.specs.Names.{kind_of};
ghost use Rattle.cache_ident.specs.Residents.{with_loaded};
ghost use Rattle.desc_parents.specs.flat_state.specs.declared.events.Machine.{Machine};
ghost use Rattle.desc_parents.specs.desc_stores.specs.Contents.{residents_of, IsLowestFreeOf};
ghost use Rattle.desc_parents.specs.desc_stores.specs.Changes.{KeepsContents, room_of};
ghost use Rattle.desc_parents.specs.shown_state.specs.Shown.{shown};
ghost use Rattle.desc_groups.specs.Whole.{AreWhole};
ghost use Rattle.desc_groups.specs.Moves.{MayEnter};

use crate::owners::{class_by, parents_by};
use cache_ident::{Ident, Name};
use depend_lists::Node;
use desc_parents::{ResidentPairs, Stores};

/// Loads a descriptor from the shelf into the lowest free slot of its kind, with an identifier that is issued now. It isn't
/// locked, and depends on what it depended on on the shelf, which is loaded.
///
/// It takes no memory, and a time logarithmic in what is there: the name is looked for once, on the shelf.
pub fn enter(stores: &mut Stores, pairs: &mut ResidentPairs, name: Name) -> Ident
    requires whole { AreWhole pairs.old.caps stores.old pairs.old.pairs }
    requires may { MayEnter stores.old name }
    requires spare { 0 < stores.old.spare }
    ensures caps { pairs.new.caps ≡ pairs.old.caps }
    ensures whole { AreWhole pairs.new.caps stores.new pairs.new.pairs }
    ensures ident { result ≡ record { kind = kind_of name; slot = result.slot; serial = length stores.old.issued } }
    ensures lowest { IsLowestFreeOf stores.old (kind_of name) result.slot }
    ensures residents { residents_of stores.new ≡ with_loaded result name (residents_of stores.old) }
    ensures issued { stores.new.issued ≡ stores.old.issued ++ just_issued result ∷ [] }
    ensures contents { KeepsContents stores.old stores.new }
    ensures shows { (machine : Option Machine) (memory : List ℕ) → shown machine memory stores.new ≡ shown machine memory stores.old }
    ensures room { room_of stores.new ≡ room_of stores.old }
    ensures spare { stores.old.spare ≡ stores.new.spare + 1 }
{
    let ident = stores.load(name);
    stores.each_is_one();
    let class = class_by(stores, ident);
    let parents = parents_by(stores, ident);
    pairs.load(Node { ident, class }, &parents);
    ident
}
