//! Which thread goes on.

ghost use Rattle.std.specs.Prelude.{◌≡◌, ◌<◌, ◌≤◌, List, ℕ, Some, false, IfOk, IfSome, IfNone, OnOk, OnErr, length, slice_get};
ghost use Rattle.std.specs.List.{list_any};
ghost use Rattle.flat_state.specs.Signals.{is_held, is_runnable};
ghost use Rattle.flat_rules.specs.Readings.{OfThread};
ghost use Rattle.memory_laws.specs.Apart.{over};
ghost use Rattle.page_store.specs.Kept.{Means};
ghost use Rattle.byte_ports.specs.Faults.{HasRisen};
ghost use Rattle.paged_steps.specs.Pages.{HasFrames};
ghost use Rattle.quantum.specs.page_views.specs.Views.{AreCopies};
ghost use Rattle.paged_steps.specs.Knowing.{Knows};
ghost use Rattle.paged_steps.specs.Nexts.{GoesSo};

use crate::looking::{Next, look};
use crate::order::Order;
use cache_ident::ThreadNo;
use flat_machine::Flat;
use flat_rules::Records;
use page_store::{Failed, Paged, Store};
use quantum::Quantum;

/// The first thread in the order of choice that is ready and isn't held, with what it does next, in so many steps at most. Who is
/// known to be held isn't looked at, and who is found held is known from then on.
pub fn find<K: Store>(
    tables: &Flat,
    order: &mut Order,
    paged: &mut Paged,
    store: &mut K,
    quantum: &mut Quantum,
    most: u32,
) -> Result<Option<(ThreadNo, Next)>, Failed>
    requires held { length tables.now.threads ≤ length order.old.held.items }
    requires last { length tables.now.threads ≤ length order.old.last.items }
    requires watched { paged.old.frames ≤ length order.old.watched.items }
    requires some { 0 < most }
    requires room { 2 ≤ quantum.old.most }
    requires frames { HasFrames tables.now paged.old (K.frames store.old) }
    ensures goes { IfOk result (λ found. IfSome found (λ f. GoesSo tables.now quantum.new f.0.0 f.1)) }
    ensures free { IfOk result (λ found. IfSome found (λ f. OfThread tables.now f.0.0 (λ t. (m : List ℕ) → Means paged.old (K.bytes_held store.old) m → is_held (over tables.now m) t ≡ false))) }
    ensures nobody { IfOk result (λ found. IfNone found ((m : List ℕ) → Means paged.old (K.bytes_held store.old) m → Knows (over tables.now m) order.old → list_any (is_runnable (over tables.now m)) tables.now.threads ≡ false)) }
    ensures within { IfOk result (λ found. IfSome found (λ f. quantum.new.steps ≤ most)) }
    ensures memory { OnOk result ((m : List ℕ) → Means paged.old (K.bytes_held store.old) m → Means paged.new (K.bytes_held store.new) m) }
    ensures copies { IfOk result (λ found. IfSome found (λ f. (m : List ℕ) → Means paged.old (K.bytes_held store.old) m → AreCopies m quantum.new.views)) }
    ensures apart { IfOk result (λ found. IfSome found (λ f. slice_get order.new.held.items f.0.0 ≡ Some false)) }
    ensures known { OnOk result ((m : List ℕ) → Means paged.old (K.bytes_held store.old) m → Knows (over tables.now m) order.old → Knows (over tables.now m) order.new) }
    ensures last { length order.new.last.items ≡ length order.old.last.items }
    ensures room { OnOk result (quantum.new.most ≡ quantum.old.most) }
    ensures frames { OnOk result (HasFrames tables.now paged.new (K.frames store.new)) }
    ensures faultless { OnOk result (K.faults store.new ≡ K.faults store.old) }
    ensures fault { OnErr result (HasRisen (K.faults store.old) (K.faults store.new)) }
{
    tables.holds();
    while let Some(no) = order.first(tables) {
        let next = look(tables, paged, store, quantum, no, most)?;
        if !matches!(next, Next::Held) {
            return Ok(Some((no, next)));
        }
        order.hold(no, quantum.views());
    }
    Ok(None)
}
