//! In which order threads are looked at.

ghost use Rattle.std.specs.Prelude.{◌≡◌, ◌≢◌, ◌<◌, ◌≤◌, ◌⊎◌, ℕ, [], None, Some, true, false, Contains, IfSome, IfNone, OnOk, length, slice_get, slice_set};
ghost use Rattle.std.specs.Bool.{OnTrue};
ghost use Rattle.flat_state.specs.State.{is_ready as is_ready_def};
ghost use Rattle.flat_rules.specs.Readings.{OfThread};
ghost use Rattle.flat_state.specs.Call.{is_completable as is_completable_def};
ghost use Rattle.std.specs.List.{list_any};
ghost use Rattle.quantum.specs.page_views.specs.Views.{View};
ghost use Rattle.quantum.specs.LocalRun.{status_by};
ghost use Rattle.flat_state.specs.State.{is_ended};
ghost use Rattle.paged_steps.specs.Orders.{IsCandidate, HasCall, AllHeld};

use crate::notes::{clear, watch};
use cache_ident::{Frame, NoMemory, ThreadNo};
use flat_machine::Flat;
use flat_rules::{is_completable, is_ready, thread_at};
use quantum::{PageView, Paused, Quantum};
use ready_queue::{Candidate, in_order};
use std::alloc::Global;

/// What is known of threads beside their records.
#[derive(Drop)]
pub struct Order {
    /// Of each thread, the count of choices at its last one, and 0 before its first.
    pub last: Vec<u64>,
    /// Whether a thread was found held, and is so still.
    pub held: Vec<bool>,
    /// Of each frame, whether its bytes told so.
    pub watched: Vec<bool>,
    pub choices: u64,
    // Whether a thread may be noted as held, or a frame as watched.
    noted: bool,

    ghost none: { noted ≡ false → (n : ℕ) → slice_get held.items n ≢ Some true },
}

impl Order {
    ghost use Rattle.paged_steps.specs.Knowing.{AreKept, AreSpared, AreWatched, KnowsNobody, KnowsNoMore};

    /// Nothing is known of any thread.
    pub fn new(alloc: Global) -> Order
        ensures { result.held.items ≡ [] }
    {
        Order {
            last: Vec::new(alloc),
            held: Vec::new(alloc),
            watched: Vec::new(alloc),
            choices: 0,
            noted: false,
        }
    }

    /// Sees to it that there is room for so many threads and frames.
    pub fn grow(&mut self, threads: u32, frames: usize) -> Result<(), NoMemory>
        ensures held { OnOk result (threads ≤ length self.new.held.items) }
        ensures last { OnOk result (threads ≤ length self.new.last.items) }
        ensures watched { OnOk result (frames ≤ length self.new.watched.items) }
        ensures known { OnOk result (KnowsNoMore self.old self.new) }
    {
        if self.has_room(threads as usize, frames) {
            return Ok(());
        }
        // All of it is cleared in the end.
        self.noted = true;
        self.held.resize(threads as usize, false)?;
        self.last.resize(threads as usize, 0)?;
        self.watched.resize(frames, false)?;
        self.forget();
        Ok(())
    }

    /// No thread is known to be held. Where none was, this takes constant time.
    pub fn forget(&mut self)
        ensures none { KnowsNobody self.new.held.items }
        ensures len { length self.new.held.items ≡ length self.old.held.items }
        ensures frames { length self.new.watched.items ≡ length self.old.watched.items }
        ensures last { self.new.last ≡ self.old.last }
    {
        if self.noted {
            clear(&mut self.held);
            clear(&mut self.watched);
            self.noted = false;
        }
    }

    /// Notes that steps happened. Who is known to be held is so still, unless they stored to a watched frame, or ended their thread,
    /// which has room from then on for whatever is sent to it.
    pub fn pass(&mut self, quantum: &Quantum)
        ensures known { (AreKept self.old self.new × AreSpared self.old.watched.items quantum.now) ⊎ KnowsNobody self.new.held.items }
        ensures len { length self.new.held.items ≡ length self.old.held.items }
        ensures last { self.new.last ≡ self.old.last }
    {
        if self.spares(quantum) {
            return;
        }
        self.forget();
    }

    /// Notes that a thread was chosen.
    pub fn choose(&mut self, no: ThreadNo)
        requires { no.0 < length self.old.last.items }
        ensures last { length self.new.last.items ≡ length self.old.last.items }
        ensures known { AreKept self.old self.new }
    {
        self.choices = self.choices.saturating_add(1);
        self.last[no.0 as usize] = self.choices;
    }

    /// Notes that a thread was found held, as these copies of its pages tell.
    pub fn hold(&mut self, no: ThreadNo, copies: &[PageView])
        requires there { no.0 < length self.old.held.items }
        requires frames { (v : View) → Contains copies.now v → v.frame.0 < length self.old.watched.items }
        ensures held { self.new.held.items ≡ slice_set self.old.held.items no.0 true }
        ensures watched { AreWatched self.new.watched.items copies.now }
        ensures more { (f : ℕ) → slice_get self.old.watched.items f ≡ Some true → slice_get self.new.watched.items f ≡ Some true }
        ensures len { length self.new.watched.items ≡ length self.old.watched.items }
        ensures last { self.new.last ≡ self.old.last }
    {
        self.noted = true;
        self.held[no.0 as usize] = true;
        watch(&mut self.watched, copies);
    }

    /// Of the threads that are ready and weren't found held, the first in the order of choice.
    pub fn first(&self, tables: &Flat) -> Option<ThreadNo>
        requires held { length tables.now.threads ≤ length self.now.held.items }
        requires last { length tables.now.threads ≤ length self.now.last.items }
        ensures some { IfSome result (λ no. IsCandidate tables.now self.now.held.items no.0) }
        ensures none { IfNone result (AllHeld tables.now self.now.held.items (length tables.now.threads)) }
    {
        let mut best: Option<Candidate> = None;
        for at in 0..tables.threads() {
            best = better(best, self.waiting(tables, ThreadNo(at)));
        }
        match best {
            Some(candidate) => Some(candidate.no),
            None => None,
        }
    }

    // Whether there is room for so many threads and frames.
    fn has_room(&self, threads: usize, frames: usize) -> bool
        ensures held { OnTrue result (threads ≤ length self.now.held.items) }
        ensures last { OnTrue result (threads ≤ length self.now.last.items) }
        ensures watched { OnTrue result (frames ≤ length self.now.watched.items) }
    {
        if self.held.len() < threads {
            return false;
        }
        if self.last.len() < threads {
            return false;
        }
        if self.watched.len() < frames {
            return false;
        }
        true
    }

    // Whether steps stored to no watched frame, and their thread goes on.
    fn spares(&self, quantum: &Quantum) -> bool
        ensures { OnTrue result (AreSpared self.now.watched.items quantum.now) }
    {
        if has_ended_by(quantum.paused()) {
            return false;
        }
        self.leaves(quantum.views())
    }

    // Whether nothing was stored to views of watched frames.
    fn leaves(&self, views: &[PageView]) -> bool
        ensures { OnTrue result ((v : View) → Contains views.now v → slice_get self.now.watched.items v.frame.0 ≡ Some true → v.present ≡ v.first) }
    {
        for view in views {
            if self.is_changed(view) {
                return false;
            }
        }
        true
    }

    // Whether something was stored to a view of a watched frame.
    fn is_changed(&self, view: &PageView) -> bool
        ensures { slice_get self.now.watched.items view.now.frame.0 ≡ Some true → result ≡ false → view.now.present ≡ view.now.first }
    {
        if view.is_as_copied() {
            return false;
        }
        self.watches(view.frame())
    }

    // Whether a frame is watched.
    fn watches(&self, frame: Frame) -> bool
        ensures { slice_get self.now.watched.items frame.0 ≡ Some true → result ≡ true }
    {
        match self.watched.get(frame.0 as usize) {
            Some(watched) => *watched,
            None => false,
        }
    }

    // What a thread stands for in the choice, if it is ready and wasn't found held.
    fn waiting(&self, tables: &Flat, no: ThreadNo) -> Option<Candidate>
        requires there { no.0 < length tables.now.threads }
        requires held { no.0 < length self.now.held.items }
        requires last { no.0 < length self.now.last.items }
        ensures some { IfSome result (λ c. IsCandidate tables.now self.now.held.items c.no.0) }
        ensures none { IfNone result (OfThread tables.now no.0 (λ t. is_ready_def t.status ≡ true → slice_get self.now.held.items no.0 ≡ Some true)) }
    {
        let thread = thread_at(tables, no);
        let held = self.held[no.0 as usize];
        if held || !is_ready::<Flat>(thread) {
            return None;
        }
        Some(Candidate {
            no,
            priority: thread.priority,
            last: self.last[no.0 as usize],
        })
    }
}

// Whether steps that paused so ended their thread.
fn has_ended_by(paused: Option<Paused>) -> bool
    ensures { result ≡ is_ended (status_by paused) }
{
    match paused {
        Some(Paused::Stopped(_)) => true,
        Some(Paused::Call)
        | Some(Paused::Limit)
        | Some(Paused::Miss { .. })
        | Some(Paused::Signal)
        | None => false,
    }
}

// The one that comes first in the order of choice, if there is one.
fn better(best: Option<Candidate>, other: Option<Candidate>) -> Option<Candidate>
    ensures one { (result ≡ best) ⊎ (result ≡ other) }
    ensures none { IfNone result ((best ≡ None) × (other ≡ None)) }
{
    match (best, other) {
        (Some(a), Some(b)) if in_order(&b, &a).is_lt() => Some(b),
        (Some(a), _) => Some(a),
        (None, other) => other,
    }
}

/// The first thread whose call can be completed.
pub fn first_completable(tables: &Flat) -> Option<ThreadNo>
    ensures some { IfSome result (λ no. HasCall tables.now no.0) }
    ensures none { IfNone result (list_any is_completable_def tables.now.threads ≡ false) }
{
    for at in 0..tables.threads() {
        if is_completable::<Flat>(thread_at(tables, ThreadNo(at))) {
            return Some(ThreadNo(at));
        }
    }
    None
}
