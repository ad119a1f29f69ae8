//! A whole run.

ghost use Rattle.std.specs.Prelude.{◌≡◌, ◌∷◌, ◌≤◌, List, ℕ, Some, IfOk, OnOk, IsErrOf};
ghost use Rattle.byte_ports.specs.Faults.{HasRisen};
ghost use Rattle.flat_rules.specs.flat_state.specs.declared.events.Decl.{Decl};
ghost use Rattle.flat_rules.specs.flat_state.specs.declared.events.Decl.TheVariants as declaration;
ghost use Rattle.flat_rules.specs.flat_state.specs.declared.events.Machine.{Machine};
ghost use Rattle.flat_rules.specs.flat_state.specs.Events.{AllFit};
ghost use Rattle.flat_rules.specs.flat_state.specs.State.{nothing_declared};
ghost use Rattle.paged_run.specs.Openings.{frames_of, IsZeros};
ghost use Rattle.paged_run.specs.Runs.{IsPagedRun};
ghost use Rattle.paged_run.specs.declared.fault.PagedFault.TheVariants as faults;

use crate::fault::PagedFault;
use crate::opening::opened;
use crate::pager::Pager;
use flat_machine::{Decl, Settled};
use flat_report::report;
use page_store::Store;
use run_journal::Journal;
use std::alloc::Global;

/// A run that is over.
#[derive(Drop)]
pub struct PagedRun {
    pub journal: Journal,
    /// Done, Stalled or Spent.
    pub settled: Settled,
    /// The report of it, as of any machine.
    pub report: Vec<u8>,
}

/// Runs the scenario of these declarations with as many frames of its own as are given, 2 to 2,048, until all its threads have
/// ended, none can go on, or it has taken `steps` steps. The other pages are in the store, which in the end holds all of memory.
///
/// `StoreFault` comes only where a call of the store failed, and else it ends so or with `NoMemory`. After either the store's pages are
/// left open. A step that stays on pages that were copied costs what it costs in a quantum, a page that isn't kept a read and at
/// most a write of the store, and each entry of the journal a pass over the threads. A held one that comes first is looked at
/// again only behind a call, a signal, an end, or a store to a page that told it. Such an entry costs a pass over the frames too,
/// where a thread was found held since the last one.
pub fn run_paged<K: Store>(
    alloc: Global,
    decls: &[Decl],
    frames: u32,
    steps: u64,
    store: &mut K,
) -> Result<PagedRun, PagedFault>
    // The declarations are those of a scenario: they fit, and the machine is the first of them.
    requires fit { AllFit nothing_declared decls.now }
    requires machine { (machine : Machine) × (rest : List Decl) × (decls.now ≡ declaration.Machine machine ∷ rest) }
    requires least { 2 ≤ frames }
    requires most { frames ≤ 2048 }

    // The store has the machine's frames, and holds zeros, where it tells what it holds.
    requires store { K.frames store.old ≡ frames_of decls.now }
    requires zeros { (bytes : List ℕ) → K.bytes_held store.old ≡ Some bytes → IsZeros (frames_of decls.now) bytes }

    // Where the store tells what it holds, the run is one of the machine with unlimited tables, and the store holds that machine's
    // memory.
    ensures run { IfOk result (λ run. (bytes : List ℕ) → K.bytes_held store.old ≡ Some bytes → IsPagedRun decls.now steps run.journal.entries run.settled run.report.items (K.bytes_held store.new)) }
    ensures faultless { OnOk result (K.faults store.new ≡ K.faults store.old) }
    ensures fault { IsErrOf result faults.StoreFault → HasRisen (K.faults store.old) (K.faults store.new) }
{
    let mut pager = opened(alloc, decls, frames, store)?;
    let settled = pager.run_on(store, steps)?;
    pager.paged.write_back(store)?;
    let report = report(alloc, &pager.tables, settled, pager.steps)?;
    let Pager { journal, .. } = pager;
    Ok(PagedRun {
        journal,
        settled,
        report,
    })
}
