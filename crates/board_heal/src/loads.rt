//! Loads of what is missing of a chain.

ghost use Rattle.std.specs.Prelude.{◌≡◌, ◌<◌, ◌≤◌, List, length, true};
ghost use Rattle.cache_ident.specs.declared.idents.Ident.{Ident};
ghost use Rattle.board_core.specs.depend_lists.specs.declared.nodes.Node.{Node};
ghost use Rattle.board_core.specs.desc_tables.specs.Tables.{AreSound};
ghost use Rattle.board_core.specs.Core.{IsSound};
ghost use Rattle.board_heal.specs.Loads.{IsThereNow, MayComeNext};

use board_chains::loaded_among;
use board_core::{CachedMachine, Core};
use cache_ident::Name;
use flat_state::MOST_WANTED;

// Loads a descriptor of a chain, if it isn't loaded, while what is loaded of the chain stays.
pub(crate) fn load_missing(core: &mut Core, cpu: u32, name: Name, chain: &[Name])
    requires processor { cpu < 8 }
    requires sealed { core.old.sealed ≡ true }
    requires short { length chain.now ≤ MOST_WANTED }
    requires next { MayComeNext core.old chain.now name }
    ensures { IsThereNow cpu chain.now name core.old core.new }
{
    if machine_of(core).tables().resident(name).is_some() {
        return;
    }
    let keep = loaded_among(machine_of(core), chain);
    core.load(cpu, name, keep.as_slice());
}

// The machine. Whoever asks for it learns what holds of its tables, and of the whole board.
pub(crate) fn machine_of(core: &Core) -> &CachedMachine
    ensures machine { result.now ≡ core.now.machine }
    ensures known { IsSound core.now }
    ensures sound { (pairs : List (Ident × Node)) × AreSound core.now.machine.held pairs }
{
    core.holds();
    let machine = core.machine();
    machine.tables_are_sound();
    machine
}
