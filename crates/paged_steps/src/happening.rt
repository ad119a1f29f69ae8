//! Steps that happen.

ghost use Rattle.std.specs.Prelude.{◌≡◌, ◌<◌, true, List, ℕ, None, IfOk, OnOk, OnErr, Contains, length, map, slice_set};
ghost use Rattle.phys_groups.specs.Memory.{with_page};
ghost use Rattle.phys_groups.specs.Rows.{marked};
ghost use Rattle.rv32_exec.specs.declared.statuses.Status.TheVariants as statuses;
ghost use Rattle.rv32_exec.specs.declared.statuses.Reason.TheVariants.{Fault};
ghost use Rattle.signal_pages.specs.Signals.{is_signalling};
ghost use Rattle.flat_state.specs.State.{with_thread};
ghost use Rattle.flat_state.specs.Signals.{full_among, receivers_of, sent, HasRoom};
ghost use Rattle.flat_rules.specs.Readings.{OfThread};
ghost use Rattle.memory_laws.specs.Apart.{over};
ghost use Rattle.quantum.specs.page_views.specs.Views.{View, AreCopies};
ghost use Rattle.page_store.specs.Kept.{Means};
ghost use Rattle.quantum.specs.LocalRun.{committed, status_by as status_by_def, touched_views, with_views, HaveOneContents, IsLocalRun};
ghost use Rattle.ahead_laws.specs.Signalled.{signalled_by};
ghost use Rattle.byte_ports.specs.Faults.{HasRisen};
ghost use Rattle.paged_steps.specs.Pages.{HasFrames};
ghost use Rattle.paged_steps.specs.Aheads.{IsAheadOf, IsOfRow, IsPutIf, IsSentBy};
ghost use Rattle.paged_steps.specs.Marks.{marks_by};

use cache_ident::{SpaceNo, ThreadNo, Vpn};
use flat_machine::Flat;
use flat_rules::{Records, Steps, receivers_for, thread_at};
use flat_state::Signal;
use page_store::{Failed, Paged, Store};
use phys_groups::PAGE_BYTES;
use quantum::{PageView, Paused, Quantum, SignalStore};
use rv32_exec::{Access, FaultKind, Reason, Status};
use signal_pages::address;

/// Makes the steps ahead of a thread happen, and answers how many they are.
pub fn commit<K: Store>(
    tables: &mut Flat,
    paged: &mut Paged,
    store: &mut K,
    quantum: &Quantum,
    no: ThreadNo,
) -> Result<u32, Failed>
    requires there { no.0 < length tables.old.threads }
    requires ready { OfThread tables.old no.0 (λ t. t.status ≡ statuses.Ready) }
    requires ahead { OfThread tables.old no.0 (λ t. IsAheadOf tables.old t quantum.now) }
    requires frames { HasFrames tables.old paged.old (K.frames store.old) }
    ensures state { OnOk result ((m : List ℕ) → Means paged.old (K.bytes_held store.old) m → AreCopies m quantum.now.views → OfThread tables.old no.0 (λ t. (n : List ℕ) × Means paged.new (K.bytes_held store.new) n × (over tables.new n ≡ committed (over tables.old m) no.0 t quantum.now))) }
    ensures steps { IfOk result (λ steps. steps ≡ quantum.now.steps) }
    ensures local_run { OnOk result (IsLocalRun quantum.now) }
    ensures whole_pages { OnOk result ((v : View) → Contains (touched_views quantum.now.views) v → length v.present ≡ 4096) }
    ensures frames { OnOk result (HasFrames tables.new paged.new (K.frames store.new)) }
    ensures threads { OnOk result (OfThread tables.old no.0 (λ t. tables.new.threads ≡ slice_set tables.old.threads no.0 (record t { context = quantum.now.context; status = status_by_def quantum.now.paused }))) }
    ensures faultless { OnOk result (K.faults store.new ≡ K.faults store.old) }
    ensures fault { OnErr result (HasRisen (K.faults store.old) (K.faults store.new)) }
{
    tables.holds();
    let space = thread_at(tables, no).space;
    let steps = quantum.steps();
    take_views(tables, paged, store, space, quantum.views())?;
    tables.put(no, quantum.context(), status_by(quantum.paused()));
    Ok(steps)
}

// Takes over what steps did to views.
fn take_views<K: Store>(
    tables: &mut Flat,
    paged: &mut Paged,
    store: &mut K,
    space: SpaceNo,
    views: &[PageView],
) -> Result<(), Failed>
    requires rows { (v : View) → Contains views.now v → IsOfRow tables.old space v }
    requires contents { HaveOneContents views.now }
    requires frames { HasFrames tables.old paged.old (K.frames store.old) }
    ensures tables { OnOk result (tables.new ≡ record tables.old { rows = map (marks_by space views.now) tables.old.rows }) }
    ensures memory { OnOk result ((m : List ℕ) → Means paged.old (K.bytes_held store.old) m → AreCopies m views.now → Means paged.new (K.bytes_held store.new) (with_views m (touched_views views.now))) }
    ensures whole_pages { OnOk result ((v : View) → Contains (touched_views views.now) v → length v.present ≡ 4096) }
    ensures frames { OnOk result (HasFrames tables.new paged.new (K.frames store.new)) }
    ensures faultless { OnOk result (K.faults store.new ≡ K.faults store.old) }
    ensures fault { OnErr result (HasRisen (K.faults store.old) (K.faults store.new)) }
{
    tables.holds();
    for view in views {
        if view.touched() {
            take_view(tables, paged, store, space, view)?;
        }
    }
    Ok(())
}

// The row of a view is marked as the view is, and its frame has the view's bytes. Where nothing was stored to the view, the frame
// has them already.
fn take_view<K: Store>(
    tables: &mut Flat,
    paged: &mut Paged,
    store: &mut K,
    space: SpaceNo,
    view: &PageView,
) -> Result<(), Failed>
    requires there { view.now.frame.0 < paged.old.frames }
    requires frames { HasFrames tables.old paged.old (K.frames store.old) }
    ensures tables { OnOk result (tables.new ≡ record tables.old { rows = map (marked space view.now.vpn.0 view.now.written) tables.old.rows }) }
    ensures memory { OnOk result ((m : List ℕ) → Means paged.old (K.bytes_held store.old) m → IsPutIf view.now m → Means paged.new (K.bytes_held store.new) (with_page m view.now.frame view.now.present)) }
    ensures frames { OnOk result (HasFrames tables.new paged.new (K.frames store.new)) }
    ensures whole_page { length view.now.present ≡ 4096 }
    ensures faultless { OnOk result (K.faults store.new ≡ K.faults store.old) }
    ensures fault { OnErr result (HasRisen (K.faults store.old) (K.faults store.new)) }
{
    put_view(paged, store, view)?;
    tables.mark(space, view.vpn(), view.written());
    Ok(())
}

// Puts the bytes of a view into its frame, unless they are still those that were copied.
fn put_view<K: Store>(paged: &mut Paged, store: &mut K, view: &PageView) -> Result<(), Failed>
    requires there { view.now.frame.0 < paged.old.frames }
    requires store { K.frames store.old ≡ paged.old.frames }
    ensures memory { OnOk result ((m : List ℕ) → Means paged.old (K.bytes_held store.old) m → IsPutIf view.now m → Means paged.new (K.bytes_held store.new) (with_page m view.now.frame view.now.present)) }
    ensures frames { OnOk result (paged.new.frames ≡ paged.old.frames) }
    ensures store_frames { OnOk result (K.frames store.new ≡ K.frames store.old) }
    ensures whole_page { length view.now.present ≡ 4096 }
    ensures faultless { OnOk result (K.faults store.new ≡ K.faults store.old) }
    ensures fault { OnErr result (HasRisen (K.faults store.old) (K.faults store.new)) }
{
    let bytes = view.present();
    if view.is_as_copied() {
        return Ok(());
    }
    paged.put(store, view.frame(), bytes)?;
    Ok(())
}

// What a thread does after steps that paused so.
fn status_by(paused: Option<Paused>) -> Status
    ensures { result ≡ status_by_def paused }
{
    match paused {
        Some(Paused::Call) => Status::Trapped,
        Some(Paused::Stopped(reason)) => Status::Ended(reason),
        Some(Paused::Limit) | Some(Paused::Miss { .. }) | Some(Paused::Signal) | None => {
            Status::Ready
        }
    }
}

/// Makes the next step of a thread happen, which is a store that signals and whose receivers have room: its word is in memory, its
/// rows have their marks, and the receivers get the signal.
pub fn send<K: Store>(
    tables: &mut Flat,
    paged: &mut Paged,
    store: &mut K,
    no: ThreadNo,
    what: &SignalStore,
    signal: Signal,
) -> Result<(), Failed>
    requires there { no.0 < length tables.old.threads }
    requires ready { OfThread tables.old no.0 (λ t. t.status ≡ statuses.Ready) }
    requires sent { OfThread tables.old no.0 (λ t. IsSentBy tables.old t what.now signal) }
    requires room { full_among tables.old.threads (map (λ r. r.0) (receivers_of tables.old signal.frame)) ≡ None }
    requires frames { HasFrames tables.old paged.old (K.frames store.old) }
    ensures state { OnOk result ((m : List ℕ) → Means paged.old (K.bytes_held store.old) m → OfThread tables.old no.0 (λ t. (sent : IsSentBy tables.old t what.now signal) → (n : List ℕ) × Means paged.new (K.bytes_held store.new) n × (over tables.new n ≡ signalled_by (over tables.old m) no.0 t sent.va sent.value sent.row))) }
    ensures frames { OnOk result (HasFrames tables.new paged.new (K.frames store.new)) }
    ensures threads { OnOk result (OfThread tables.old no.0 (λ t. tables.new.threads ≡ sent (slice_set tables.old.threads no.0 (record t { context = what.now.context; status = statuses.Ready })) signal.offset (receivers_of tables.old signal.frame))) }
    ensures faultless { OnOk result (K.faults store.new ≡ K.faults store.old) }
    ensures fault { OnErr result (HasRisen (K.faults store.old) (K.faults store.new)) }
{
    tables.holds();
    let thread = thread_at(tables, no);
    let space = thread.space;
    let fetch = Vpn(thread.context.pc / PAGE_BYTES);
    let receivers = receivers_for(tables, Some(signal));
    paged.store_word(store, signal.frame, signal.offset, what.word)?;
    tables.mark(space, fetch, false);
    tables.mark(space, what.vpn, true);
    tables.put(no, &what.context, Status::Ready);
    deliver(tables, signal.offset, &receivers);
    Ok(())
}

// Gives each receiver in turn the address of the message slot in its own page. There is room for all.
fn deliver(tables: &mut Flat, offset: u32, receivers: &[(ThreadNo, Vpn)])
    requires page { offset < 4096 }
    requires signalling { is_signalling offset ≡ true }
    requires room { HasRoom tables.old.threads receivers.now }
    ensures { tables.new ≡ record tables.old { threads = sent tables.old.threads offset receivers.now } }
{
    // What holds of the threads says that one that isn't full has room.
    tables.holds();
    for receiver in receivers {
        tables.give(receiver.0, address(receiver.1, offset));
    }
}

/// Ends a thread whose next step faults.
pub fn end(tables: &mut Flat, no: ThreadNo, kind: FaultKind, access: Access, va: u32)
    requires { no.0 < length tables.old.threads }
    ensures { OfThread tables.old no.0 (λ t. tables.new ≡ with_thread tables.old no.0 (record t { status = statuses.Ended (Fault kind access va) })) }
{
    tables.holds();
    let context = thread_at(tables, no).context;
    tables.put(
        no,
        &context,
        Status::Ended(Reason::Fault { kind, access, va }),
    );
}
