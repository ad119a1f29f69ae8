//! The machine of a run with few frames, and its turns.

ghost use Rattle.std.specs.Prelude.{◌≡◌, ◌<◌, ◌≤◌, List, false, IfOk, IfSome, IfNone, OnOk, IsErrOf};
ghost use Rattle.std.specs.List.{list_all, list_any};
ghost use Rattle.byte_ports.specs.Faults.{HasRisen};
ghost use Rattle.flat_rules.specs.flat_state.specs.Call.{is_completable};
ghost use Rattle.flat_rules.specs.flat_state.specs.State.{is_ended};
ghost use Rattle.paged_run.specs.Pagers.{left, stuck_as, Ends, Grew, IsOver, IsReady};
ghost use Rattle.paged_run.specs.declared.fault.PagedFault.TheVariants as faults;

use crate::fault::PagedFault;
use crate::turns::{advance, complete};
use cache_ident::ThreadNo;
use flat_machine::{Flat, Settled};
use flat_rules::has_ended;
use page_store::{Paged, Store};
use paged_steps::{Order, find, first_completable};
use quantum::Quantum;
use run_journal::Journal;

// How many steps one entry stands for at most.
const MOST_STEPS: u64 = 1_024;

/// The machine. Its tables are those of a machine with unlimited ones whose memory is zeros: nothing is stored there, so that no page
/// of it is ever taken. Memory is what the pages that are kept and the store are together.
#[derive(Drop)]
pub(crate) struct Pager {
    pub(crate) tables: Flat,
    pub(crate) paged: Paged,
    pub(crate) quantum: Quantum,
    pub(crate) journal: Journal,
    pub(crate) order: Order,
    pub(crate) steps: u64,
}

impl Pager {
    /// Runs until the run is over at the limit, and answers how it is settled.
    pub(crate) fn run_on<K: Store>(
        &mut self,
        store: &mut K,
        limit: u64,
    ) -> Result<Settled, PagedFault>
        requires { IsReady self.old (K.frames store.old) limit }
        ensures over { IfOk result (λ settled. Ends self.old (K.bytes_held store.old) self.new (K.bytes_held store.new) limit settled) }
        ensures ready { OnOk result (IsReady self.new (K.frames store.new) limit) }
        ensures faultless { OnOk result (K.faults store.new ≡ K.faults store.old) }
        ensures fault { IsErrOf result faults.StoreFault → HasRisen (K.faults store.old) (K.faults store.new) }
    {
        loop {
            if let Some(settled) = self.turn(store, limit)? {
                return Ok(settled);
            }
        }
    }

    // Completes a call, or else makes happen what the thread does next whose turn it is. Where there is neither, or no step is left,
    // it answers how the run is settled.
    fn turn<K: Store>(&mut self, store: &mut K, limit: u64) -> Result<Option<Settled>, PagedFault>
        requires { IsReady self.old (K.frames store.old) limit }
        ensures grew { IfOk result (λ r. IfNone r (Grew self.old (K.bytes_held store.old) self.new (K.bytes_held store.new))) }
        ensures over { IfOk result (λ r. IfSome r (λ settled. IsOver self.old (K.bytes_held store.old) self.new (K.bytes_held store.new) limit settled)) }
        ensures less { IfOk result (λ r. IfNone r (left self.new limit < left self.old limit)) }
        ensures ready { OnOk result (IsReady self.new (K.frames store.new) limit) }
        ensures faultless { OnOk result (K.faults store.new ≡ K.faults store.old) }
        ensures fault { IsErrOf result faults.StoreFault → HasRisen (K.faults store.old) (K.faults store.new) }
    {
        if let Some(no) = first_completable(&self.tables) {
            complete(&mut self.tables, &mut self.order, &mut self.journal, no)?;
            return Ok(None);
        }
        self.step(store, limit)
    }

    // Makes happen what the thread does next whose turn it is, where no call can be completed.
    fn step<K: Store>(&mut self, store: &mut K, limit: u64) -> Result<Option<Settled>, PagedFault>
        requires ready { IsReady self.old (K.frames store.old) limit }
        requires calls { list_any is_completable self.old.tables.threads ≡ false }
        ensures grew { IfOk result (λ r. IfNone r (Grew self.old (K.bytes_held store.old) self.new (K.bytes_held store.new))) }
        ensures over { IfOk result (λ r. IfSome r (λ settled. IsOver self.old (K.bytes_held store.old) self.new (K.bytes_held store.new) limit settled)) }
        ensures less { IfOk result (λ r. IfNone r (left self.new limit < left self.old limit)) }
        ensures ready { OnOk result (IsReady self.new (K.frames store.new) limit) }
        ensures faultless { OnOk result (K.faults store.new ≡ K.faults store.old) }
        ensures fault { IsErrOf result faults.StoreFault → HasRisen (K.faults store.old) (K.faults store.new) }
    {
        self.order.grow(self.tables.threads(), self.paged.frames())?;
        let most = most_steps(limit - self.steps);
        let found = find(
            &self.tables,
            &mut self.order,
            &mut self.paged,
            store,
            &mut self.quantum,
            most,
        )?;
        let Some((no, next)) = found else {
            return Ok(Some(stuck(&self.tables)));
        };
        if self.steps == limit {
            return Ok(Some(Settled::Spent));
        }
        let steps = advance(
            &mut self.tables,
            &mut self.paged,
            store,
            &self.quantum,
            &mut self.order,
            &mut self.journal,
            no,
            next,
        )?;
        self.steps += u64::from(steps);
        self.order.choose(no);
        Ok(None)
    }
}

// How many steps a thread is taken ahead for where so many are left: one at least, since who can go on is told by a step.
fn most_steps(left: u64) -> u32
    ensures some { 0 < result }
    ensures within { 0 < left → result ≤ left }
{
    left.min(MOST_STEPS).max(1) as u32
}

// How a run is settled in which nobody can go on.
fn stuck(tables: &Flat) -> Settled
    ensures { result ≡ stuck_as tables.now.threads }
{
    if have_all_ended(tables) {
        Settled::Done
    } else {
        Settled::Stalled
    }
}

// Whether each thread has ended.
fn have_all_ended(tables: &Flat) -> bool
    ensures { result ≡ list_all (λ t. is_ended t.status) tables.now.threads }
{
    for number in 0..tables.threads() {
        if !has_ended(tables, ThreadNo(number)) {
            return false;
        }
    }
    true
}
