//! What happens, with its entry.

ghost use Rattle.std.specs.Prelude.{◌≡◌, ◌+◌, ◌<◌, ◌≤◌, List, ℕ, Option, Some, false, IfOk, OnOk, IsErrOf, length, slice_get};
ghost use Rattle.byte_ports.specs.Faults.{HasRisen};
ghost use Rattle.page_store.specs.Kept.{Kept, Means};
ghost use Rattle.paged_steps.specs.Pages.{HasFrames};
ghost use Rattle.quantum.specs.page_views.specs.Views.{AreCopies};
ghost use Rattle.paged_steps.specs.Nexts.{GoesSo};
ghost use Rattle.paged_steps.specs.Orders.{HasCall};
ghost use Rattle.paged_steps.specs.declared.looking.Next.TheVariants as nexts;
ghost use Rattle.paged_run.specs.Runs.{trapped_count, GoesFrom, GoesOn};
ghost use Rattle.paged_run.specs.declared.fault.PagedFault.TheVariants as faults;

use crate::fault::PagedFault;
use cache_ident::{NoMemory, ThreadNo};
use flat_events::complete as complete_call;
use flat_machine::Flat;
use flat_rules::Records;
use page_store::{Paged, Store};
use paged_steps::{Next, Order, commit, end, send};
use quantum::Quantum;
use run_journal::{Entry, Journal};

/// Completes the call that a thread is in.
pub(crate) fn complete(
    tables: &mut Flat,
    order: &mut Order,
    journal: &mut Journal,
    no: ThreadNo,
) -> Result<(), NoMemory>
    requires { HasCall tables.old no.0 }
    ensures goes { OnOk result ((pages : Kept) (held : Option (List ℕ)) → GoesOn tables.old order.old pages held journal.old.entries tables.new order.new pages held journal.new.entries 0) }
    ensures calls { OnOk result (trapped_count tables.new + 1 ≤ trapped_count tables.old) }
    ensures memory { OnOk result (length tables.new.memory ≡ length tables.old.memory) }
{
    complete_call(tables, no)?;
    order.forget();
    journal.push(Entry::Completed { thread: no, cpu: 0 })?;
    Ok(())
}

/// Makes the steps ahead of a thread happen, and answers how many they are.
pub(crate) fn take<K: Store>(
    tables: &mut Flat,
    paged: &mut Paged,
    store: &mut K,
    quantum: &Quantum,
    order: &mut Order,
    journal: &mut Journal,
    no: ThreadNo,
) -> Result<u32, PagedFault>
    requires goes { GoesSo tables.old quantum.now no.0 nexts.Takes }
    requires apart { slice_get order.old.held.items no.0 ≡ Some false }
    requires frames { HasFrames tables.old paged.old (K.frames store.old) }
    ensures goes { IfOk result (λ n. (m : List ℕ) → Means paged.old (K.bytes_held store.old) m → AreCopies m quantum.now.views → GoesFrom m tables.old order.old journal.old.entries tables.new order.new paged.new (K.bytes_held store.new) journal.new.entries n) }
    ensures steps { IfOk result (λ n. n ≡ quantum.now.steps) }
    ensures last { length order.new.last.items ≡ length order.old.last.items }
    ensures calls { OnOk result (trapped_count tables.new ≤ trapped_count tables.old + 1) }
    ensures frames { OnOk result (HasFrames tables.new paged.new (K.frames store.new)) }
    ensures faultless { OnOk result (K.faults store.new ≡ K.faults store.old) }
    ensures fault { IsErrOf result faults.StoreFault → HasRisen (K.faults store.old) (K.faults store.new) }
{
    tables.holds();
    let steps = commit(tables, paged, store, quantum, no)?;
    order.pass(quantum);
    journal.push(Entry::Ran {
        thread: no,
        steps,
        cpu: 0,
    })?;
    Ok(steps)
}

/// Makes happen what a thread does next, and answers how many steps that was.
pub(crate) fn advance<K: Store>(
    tables: &mut Flat,
    paged: &mut Paged,
    store: &mut K,
    quantum: &Quantum,
    order: &mut Order,
    journal: &mut Journal,
    no: ThreadNo,
    next: Next,
) -> Result<u32, PagedFault>
    requires goes { GoesSo tables.old quantum.now no.0 next }
    requires apart { slice_get order.old.held.items no.0 ≡ Some false }
    requires frames { HasFrames tables.old paged.old (K.frames store.old) }
    ensures goes { IfOk result (λ n. (m : List ℕ) → Means paged.old (K.bytes_held store.old) m → AreCopies m quantum.now.views → GoesFrom m tables.old order.old journal.old.entries tables.new order.new paged.new (K.bytes_held store.new) journal.new.entries n) }
    ensures some { IfOk result (λ n. 0 < n) }
    ensures within { IfOk result (λ n. (most : ℕ) → 0 < most → quantum.now.steps ≤ most → n ≤ most) }
    ensures last { length order.new.last.items ≡ length order.old.last.items }
    ensures calls { OnOk result (trapped_count tables.new ≤ trapped_count tables.old + 1) }
    ensures frames { OnOk result (HasFrames tables.new paged.new (K.frames store.new)) }
    ensures faultless { OnOk result (K.faults store.new ≡ K.faults store.old) }
    ensures fault { IsErrOf result faults.StoreFault → HasRisen (K.faults store.old) (K.faults store.new) }
{
    tables.holds();
    match next {
        Next::Held => unreachable!(),
        Next::Takes => take(tables, paged, store, quantum, order, journal, no),
        Next::Ends { kind, access, va } => {
            end(tables, no, kind, access, va);
            order.forget();
            journal.push(Entry::Ended { thread: no, cpu: 0 })?;
            Ok(1)
        }
        Next::Sends { what, signal } => {
            send(tables, paged, store, no, &what, signal)?;
            order.forget();
            journal.push(Entry::Ran {
                thread: no,
                steps: 1,
                cpu: 0,
            })?;
            Ok(1)
        }
    }
}
