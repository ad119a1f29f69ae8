//! What a thread does next.

ghost use Rattle.std.specs.Prelude.{◌≡◌, ◌<◌, ◌≤◌, List, ℕ, IfOk, OnOk, OnErr, Some, length};
ghost use Rattle.rv32_exec.specs.declared.statuses.Status.TheVariants as statuses;
ghost use Rattle.flat_state.specs.Signals.{is_held};
ghost use Rattle.flat_rules.specs.Readings.{OfThread};
ghost use Rattle.memory_laws.specs.Apart.{over};
ghost use Rattle.page_store.specs.Kept.{Means};
ghost use Rattle.quantum.specs.Ahead.{signal_store};
ghost use Rattle.byte_ports.specs.Faults.{HasRisen};
ghost use Rattle.paged_steps.specs.Pages.{HasFrames};
ghost use Rattle.paged_steps.specs.Aheads.{IsAheadOf, IsSentBy, StandsSo};
ghost use Rattle.quantum.specs.page_views.specs.Views.{AreCopies};
ghost use Rattle.paged_steps.specs.Nexts.{says_held, DoesSo};

use crate::ahead::{Stands, run_ahead};
use cache_ident::ThreadNo;
use flat_machine::Flat;
use flat_rules::{Records, full_among, receivers_for, thread_at};
use flat_state::Signal;
use page_store::{Failed, Paged, Store};
use quantum::{Quantum, SignalStore};
use rv32_exec::{Access, FaultKind};

/// What a ready thread does next.
#[derive(Clone, Copy)]
pub enum Next {
    /// It is held: a receiver of its next step's signal has no room.
    Held,
    /// It takes the steps that were taken ahead.
    Takes,
    /// Its next step faults.
    Ends {
        kind: FaultKind,
        access: Access,
        va: u32,
    },
    /// Its next step is a store that signals, and all its receivers have room.
    Sends {
        what: SignalStore,
        signal: Signal,
    },
}

/// What a ready thread does next, in so many steps at most.
pub fn look<K: Store>(
    tables: &Flat,
    paged: &mut Paged,
    store: &mut K,
    quantum: &mut Quantum,
    no: ThreadNo,
    most: u32,
) -> Result<Next, Failed>
    requires there { no.0 < length tables.now.threads }
    requires ready { OfThread tables.now no.0 (λ t. t.status ≡ statuses.Ready) }
    requires some { 0 < most }
    requires room { 2 ≤ quantum.old.most }
    requires frames { HasFrames tables.now paged.old (K.frames store.old) }
    ensures ahead { OnOk result (OfThread tables.now no.0 (λ t. IsAheadOf tables.now t quantum.new)) }
    ensures does { IfOk result (λ next. OfThread tables.now no.0 (λ t. DoesSo tables.now t quantum.new next)) }
    ensures held { IfOk result (λ next. OfThread tables.now no.0 (λ t. (m : List ℕ) → Means paged.old (K.bytes_held store.old) m → is_held (over tables.now m) t ≡ says_held next)) }
    ensures within { OnOk result (quantum.new.steps ≤ most) }
    ensures memory { OnOk result ((m : List ℕ) → Means paged.old (K.bytes_held store.old) m → Means paged.new (K.bytes_held store.new) m) }
    ensures copies { OnOk result ((m : List ℕ) → Means paged.old (K.bytes_held store.old) m → AreCopies m quantum.new.views) }
    ensures room { OnOk result (quantum.new.most ≡ quantum.old.most) }
    ensures frames { OnOk result (HasFrames tables.now paged.new (K.frames store.new)) }
    ensures faultless { OnOk result (K.faults store.new ≡ K.faults store.old) }
    ensures fault { OnErr result (HasRisen (K.faults store.old) (K.faults store.new)) }
{
    let stands = run_ahead(tables, paged, store, quantum, no, most)?;
    Ok(comes_next(tables, quantum, no, stands))
}

// What a ready thread does next, whose steps ahead stand so.
fn comes_next(tables: &Flat, quantum: &Quantum, no: ThreadNo, stands: Stands) -> Next
    requires there { no.0 < length tables.now.threads }
    requires ready { OfThread tables.now no.0 (λ t. t.status ≡ statuses.Ready) }
    requires ahead { OfThread tables.now no.0 (λ t. IsAheadOf tables.now t quantum.now) }
    requires stands { OfThread tables.now no.0 (λ t. StandsSo tables.now t quantum.now stands) }
    ensures does { OfThread tables.now no.0 (λ t. DoesSo tables.now t quantum.now result) }
    ensures held { OfThread tables.now no.0 (λ t. (m : List ℕ) → length m ≡ length tables.now.memory → AreCopies m quantum.now.views → is_held (over tables.now m) t ≡ says_held result) }
{
    tables.holds();
    if 0 < quantum.steps() {
        return Next::Takes;
    }
    match stands {
        Stands::Whole => unreachable!(),
        Stands::Faults { kind, access, va } => Next::Ends { kind, access, va },
        Stands::Signals(what) => sending(tables, quantum, no, what),
    }
}

// Whether a thread is held whose next step is a store that signals.
fn sending(tables: &Flat, quantum: &Quantum, no: ThreadNo, what: SignalStore) -> Next
    requires there { no.0 < length tables.now.threads }
    requires ready { OfThread tables.now no.0 (λ t. t.status ≡ statuses.Ready) }
    requires ahead { OfThread tables.now no.0 (λ t. IsAheadOf tables.now t quantum.now) }
    requires fresh { quantum.now.steps ≡ 0 }
    requires store { signal_store quantum.now ≡ Some what }
    ensures does { OfThread tables.now no.0 (λ t. DoesSo tables.now t quantum.now result) }
    ensures held { OfThread tables.now no.0 (λ t. (m : List ℕ) → length m ≡ length tables.now.memory → AreCopies m quantum.now.views → is_held (over tables.now m) t ≡ says_held result) }
{
    let signal = signal_of(tables, quantum, no, &what);
    let receivers = receivers_for(tables, Some(signal));
    if full_among(tables, &receivers).is_some() {
        return Next::Held;
    }
    Next::Sends { what, signal }
}

// The signal of a store that is a thread's next step.
fn signal_of(tables: &Flat, quantum: &Quantum, no: ThreadNo, what: &SignalStore) -> Signal
    requires there { no.0 < length tables.now.threads }
    requires ahead { OfThread tables.now no.0 (λ t. IsAheadOf tables.now t quantum.now) }
    requires fresh { quantum.now.steps ≡ 0 }
    requires store { signal_store quantum.now ≡ Some what.now }
    ensures { OfThread tables.now no.0 (λ t. IsSentBy tables.now t what.now result) }
{
    let space = thread_at(tables, no).space;
    match tables.row(space, what.vpn) {
        Some(row) => Signal {
            frame: row.frame,
            offset: what.offset,
        },
        None => unreachable!(),
    }
}
