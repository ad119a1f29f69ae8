//! What of a list of names is loaded.

ghost use Rattle.std.specs.Prelude.{◌≡◌, ◌≤◌, length};
ghost use Rattle.cached_machine.specs.desc_parents.specs.Idents.{idents_of};
ghost use Rattle.cached_machine.specs.desc_stores.specs.Contents.{residents_of};

use arrayvec::ArrayVec;
use cache_ident::{Ident, Name};
use cached_machine::CachedMachine;
use flat_state::MOST_WANTED;

/// Identifiers of what stays while something is loaded.
pub type Keep = ArrayVec<Ident, MOST_WANTED>;

/// The identifiers of those of the names that are loaded. It takes a search for each name.
pub fn loaded_among(machine: &CachedMachine, names: &[Name]) -> Keep
    requires { length names.now ≤ MOST_WANTED }
    ensures { result.items ≡ idents_of (residents_of machine.now.held.contents) names.now }
{
    machine.tables_are_sound();
    let mut idents = Keep::new();
    for name in names {
        if let Some(ident) = machine.tables().resident(*name) {
            idents.push(ident);
        }
    }
    idents
}
