//! All that names depend on, over any number of steps.

ghost use Rattle.std.specs.Prelude.{◌≡◌, ◌<◌, ◌⊎◌, ℕ, length, Contains};
ghost use Rattle.cache_ident.specs.declared.names.Name.{Name};
ghost use Rattle.flat_state.specs.Dependence.{Depends};
ghost use Rattle.cached_machine.specs.Cached.{state_of};
ghost use Rattle.board_chains.specs.Chains.{chain_at, HasParents, HoldsAllParents, IsPart, IsPartOfSome, StartsWith};

use crate::names::{Chain, add, name_at};
use cache_ident::Name;
use cached_machine::CachedMachine;
use flat_rules::{Records, parents};

// Adds all that the names depend on, which are of the chain of one thread's step.
pub(crate) fn add_all_above(machine: &CachedMachine, names: &mut Chain)
    requires { IsPartOfSome (state_of machine.now) names.old.items }
    ensures part { (n : ℕ) → IsPart (state_of machine.now) n names.old.items → IsPart (state_of machine.now) n names.new.items }
    ensures starts { StartsWith names.old.items names.new.items }
    ensures closed { HoldsAllParents (state_of machine.now) names.new.items }
{
    machine.holds();
    let mut at = 0;
    while at < names.len() {
        let name = name_at(names.as_slice(), at);
        add_parents(machine, name, names);
        at += 1;
    }
}

// Adds what one of the names depends on.
fn add_parents(machine: &CachedMachine, name: Name, names: &mut Chain)
    requires part { IsPartOfSome (state_of machine.now) names.old.items }
    requires its { Contains names.old.items name }
    ensures part { (n : ℕ) → IsPart (state_of machine.now) n names.old.items → IsPart (state_of machine.now) n names.new.items }
    ensures starts { StartsWith names.old.items names.new.items }
    ensures has { HasParents (state_of machine.now) names.new.items name }
{
    machine.holds();
    let found = parents(machine, name);
    let above = found.as_slice();
    for parent in above {
        add(*parent, names);
    }
}
