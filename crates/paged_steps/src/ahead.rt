//! Steps ahead of the machine, on copies of pages that are kept.

ghost use Rattle.std.specs.Prelude.{◌≡◌, ◌<◌, ◌≤◌, List, ℕ, IfOk, IfNone, IfSome, OnOk, OnErr, IsTrue, Some, length};
ghost use Rattle.quantum.specs.page_views.specs.Views.{can_fill, AreCopies};
ghost use Rattle.page_store.specs.Kept.{Means};
ghost use Rattle.flat_rules.specs.Readings.{OfThread};
ghost use Rattle.quantum.specs.Ahead.{signal_store};
ghost use Rattle.byte_ports.specs.Faults.{HasRisen};
ghost use Rattle.paged_steps.specs.Pages.{HasFrames};
ghost use Rattle.paged_steps.specs.Aheads.{HasFilled, IsAheadOf, StandsSo};

use cache_ident::{Ident, ThreadNo};
use flat_machine::Flat;
use flat_rules::{Records, reached, thread_at};
use page_store::{Failed, Paged, Store};
use phys_groups::Row;
use quantum::{Paused, Quantum, SignalStore};
use rv32_exec::{Access, FaultKind};

/// Where the steps ahead of a thread stand.
#[derive(Clone, Copy)]
pub enum Stands {
    /// The thread goes on in its next quantum, or has come to a call or its end.
    Whole,
    /// The next step faults.
    Faults {
        kind: FaultKind,
        access: Access,
        va: u32,
    },
    /// The next step is a store that signals.
    Signals(SignalStore),
}

/// Runs a thread ahead for so many steps at most. Pages are copied as they are asked for.
pub fn run_ahead<K: Store>(
    tables: &Flat,
    paged: &mut Paged,
    store: &mut K,
    quantum: &mut Quantum,
    no: ThreadNo,
    most: u32,
) -> Result<Stands, Failed>
    requires there { no.0 < length tables.now.threads }
    requires some { 0 < most }
    requires room { 2 ≤ quantum.old.most }
    requires frames { HasFrames tables.now paged.old (K.frames store.old) }
    ensures ahead { OnOk result (OfThread tables.now no.0 (λ t. IsAheadOf tables.now t quantum.new)) }
    ensures stands { IfOk result (λ stands. OfThread tables.now no.0 (λ t. StandsSo tables.now t quantum.new stands)) }
    ensures within { OnOk result (quantum.new.steps ≤ most) }
    ensures memory { OnOk result ((m : List ℕ) → Means paged.old (K.bytes_held store.old) m → Means paged.new (K.bytes_held store.new) m) }
    ensures copies { OnOk result ((m : List ℕ) → Means paged.old (K.bytes_held store.old) m → AreCopies m quantum.new.views) }
    ensures room { OnOk result (quantum.new.most ≡ quantum.old.most) }
    ensures frames { OnOk result (HasFrames tables.now paged.new (K.frames store.new)) }
    ensures faultless { OnOk result (K.faults store.new ≡ K.faults store.old) }
    ensures fault { OnErr result (HasRisen (K.faults store.old) (K.faults store.new)) }
{
    tables.holds();
    let thread = thread_at(tables, no);
    let space = thread.space;
    quantum.begin(thread.context, no);
    loop {
        let Paused::Miss { va, access } = quantum.run(most) else {
            return Ok(paused_at(quantum));
        };
        let row = match reached(tables, access, space, va) {
            Ok(row) => row,
            Err(kind) => return Ok(Stands::Faults { kind, access, va }),
        };
        if !quantum.can_fill(row.vpn) {
            return Ok(Stands::Whole);
        }
        fill(paged, store, quantum, &row)?;
    }
}

// Copies the page of a row.
fn fill<K: Store>(
    paged: &mut Paged,
    store: &mut K,
    quantum: &mut Quantum,
    row: &Row,
) -> Result<(), Failed>
    requires room { IsTrue (can_fill quantum.old.most quantum.old.views row.now.vpn) }
    requires there { row.now.frame.0 < paged.old.frames }
    requires store { K.frames store.old ≡ paged.old.frames }
    ensures filled { OnOk result (HasFilled paged.old (K.bytes_held store.old) row.now quantum.old quantum.new) }
    ensures memory { OnOk result ((m : List ℕ) → Means paged.old (K.bytes_held store.old) m → Means paged.new (K.bytes_held store.new) m) }
    ensures frames { paged.new.frames ≡ paged.old.frames }
    ensures store_frames { K.frames store.new ≡ K.frames store.old }
    ensures faultless { OnOk result (K.faults store.new ≡ K.faults store.old) }
    ensures fault { OnErr result (HasRisen (K.faults store.old) (K.faults store.new)) }
{
    paged.keep(store, row.frame)?;
    let bytes = paged.page(row.frame);
    quantum.fill(row.vpn, row.frame, row.flags, Ident::default(), bytes);
    Ok(())
}

// Where steps stand that paused for no page.
fn paused_at(quantum: &Quantum) -> Stands
    ensures signals { IfSome (signal_store quantum.now) (λ store. result ≡ Stands.Signals store) }
    ensures whole { IfNone (signal_store quantum.now) (result ≡ Stands.Whole) }
{
    match quantum.signal_store() {
        Some(signal) => Stands::Signals(signal),
        None => Stands::Whole,
    }
}
