//! The machine with caches.

ghost use Rattle.std.specs.Prelude.{◌≡◌, ◌*◌, [], None, Some, IfOk, replicate};
ghost use Rattle.flat_state.specs.State.{nothing_declared};
ghost use Rattle.flat_state.specs.Declaration.{rule_of_machine};
ghost use Rattle.board_laws.specs.desc_stores.specs.Changes.{IsNothing};
ghost use Rattle.cached_machine.specs.Cached.{state_of};

use board_laws::Tables;
use cache_ident::{Caps, NoMemory};
use flat_state::Machine;
use phys_groups::Memory;
use std::alloc::Global;
use std::marker::Model;
use thread_sets::ThreadSets;

/// A machine with its memory, its descriptors in caches or with their owners, and the sets of threads that can go on.
///
/// A contract sees these four. The machine with unlimited tables that they show (`state_of`) is well-formed, the sets are those
/// of its threads, and only a loaded thread is on a processor.
#[derive(Drop)]
pub struct CachedMachine {
    pub(crate) alloc: Global,
    pub(crate) machine: Machine,
    pub(crate) memory: Memory,
    pub(crate) tables: Tables,
    pub(crate) sets: ThreadSets,
    // The lock limits of all kernels, summed.
    pub(crate) granted: Caps,
}

impl Model for CachedMachine {
    ghost use Rattle.cached_machine.specs.Cached.{Cached, IsSoundMachine};
    ghost use Rattle.cached_machine.specs.Posts.{OnlyLoadedAreOut};

    ghost Value = { Cached };

    ghost view = { λ m. record { machine = m.machine; memory = m.memory; held = m.tables; sets = m.sets } };

    ghost invariant = { λ m. IsSoundMachine (record { machine = m.machine; memory = m.memory; held = m.tables; sets = m.sets }) m.granted × OnlyLoadedAreOut m.tables.contents };
}

impl CachedMachine {
    /// The machine once it is declared, and nothing else: with memory of its groups, and caches of its capacities.
    pub fn new(alloc: Global, machine: Machine) -> Result<CachedMachine, NoMemory>
        requires { rule_of_machine machine ≡ None }
        ensures state { IfOk result (λ m. state_of m ≡ record nothing_declared { machine = Some machine; memory = replicate (524288 * machine.groups) 0 }) }
        ensures nothing { IfOk result (λ m. (m.machine ≡ machine) × (m.held.gone ≡ []) × IsNothing machine.caps m.held.contents) }
    {
        let memory = Memory::new(alloc, machine.groups)?;
        let tables = Tables::new(alloc, machine.caps)?;
        Ok(CachedMachine {
            alloc,
            machine,
            memory,
            tables,
            sets: ThreadSets::new(alloc),
            granted: Caps::default(),
        })
    }
}
