//! A store that never fails, and a run over it.

ghost use Rattle.std.specs.Prelude.{◌≡◌, ◌*◌, ◌∷◌, ◌≤◌, [], List, Some, IfOk};
ghost use Rattle.flat_rules.specs.flat_state.specs.declared.events.Decl.{Decl};
ghost use Rattle.flat_rules.specs.flat_state.specs.declared.events.Decl.TheVariants as declaration;
ghost use Rattle.flat_rules.specs.flat_state.specs.declared.events.Machine.{Machine};
ghost use Rattle.flat_rules.specs.flat_state.specs.Events.{flat, AllFit};
ghost use Rattle.flat_rules.specs.flat_state.specs.State.{nothing_declared};
ghost use Rattle.run_journal.specs.Entries.{erase};
ghost use Rattle.page_store.specs.MemStores.{new_stock};
ghost use Rattle.paged_run.specs.Runs.{IsPagedRun};

use crate::fault::PagedFault;
use crate::run::{PagedRun, run_paged};
use cache_ident::{Frame, NoMemory};
use flat_machine::Decl;
use flat_rules::first_machine;
use page_store::{Failed, MemStore, Store};
use std::alloc::{AllocError, Global};
use std::marker::Model;

// A store over memory of which no call fails, which its type says: a run over it can't end with a fault of the store.
#[derive(Drop)]
struct SureStore {
    store: MemStore,
}

impl Model for SureStore {
    ghost use Rattle.std.specs.Prelude.{◌≡◌, []};
    ghost use Rattle.page_store.specs.MemStores.{Stock};

    ghost Value = { Stock };

    ghost view = { λ s. s.store };

    ghost invariant = { λ s. s.store.failing ≡ [] };
}

impl SureStore {
    // Zeros, of so many page groups.
    fn new(alloc: Global, groups: u32) -> Result<SureStore, NoMemory>
        requires least { 1 ≤ groups }
        requires most { groups ≤ 16 }
        ensures { IfOk result (λ store. store ≡ new_stock groups []) }
    {
        Ok(SureStore {
            store: MemStore::new(alloc, groups, &[])?,
        })
    }
}

impl Store for SureStore {
    ghost frames = { λ stock. 128 * stock.groups };

    ghost bytes_held = { λ stock. Some stock.bytes };

    // No call fails.
    ghost faults = { λ stock. 0 };

    fn read(&mut self, frame: Frame, into: &mut [u8]) -> Result<(), Failed> {
        self.store.read(frame, into)
    }

    fn write(&mut self, frame: Frame, from: &[u8]) -> Result<(), Failed> {
        self.store.write(frame, from)
    }
}

/// Runs the scenario of these declarations as `run_paged` does, over a store in memory. Want of memory is its one other answer.
pub fn run_in_memory(
    alloc: Global,
    decls: &[Decl],
    frames: u32,
    steps: u64,
) -> Result<PagedRun, NoMemory>
    // The declarations are those of a scenario: they fit, and the machine is the first of them.
    requires fit { AllFit nothing_declared decls.now }
    requires machine { (machine : Machine) × (rest : List Decl) × (decls.now ≡ declaration.Machine machine ∷ rest) }
    requires least { 2 ≤ frames }
    requires most { frames ≤ 2048 }

    // The run is one of the machine with unlimited tables, with that machine's memory.
    ensures { IfOk result (λ run. IsPagedRun decls.now steps run.journal.entries run.settled run.report.items (Some (flat (erase run.journal.entries)).memory)) }
{
    let machine = first_machine(decls);
    let mut store = SureStore::new(alloc, machine.groups)?;
    match run_paged(alloc, decls, frames, steps, &mut store) {
        Ok(run) => Ok(run),
        Err(PagedFault::NoMemory) => Err(AllocError),
        Err(PagedFault::StoreFault) => unreachable!(),
    }
}
