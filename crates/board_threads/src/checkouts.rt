//! Threads go to processors, and come back.

ghost use Rattle.std.specs.Prelude.{◌≡◌, ◌<◌, ◌≤◌, ◌↔◌, ◌==◌, if◌then◌else◌, false, length, slice_get, Contains, IfNone, IfSome, None, Some};
ghost use Rattle.std.specs.List.Sorted.{IsSortedBy};
ghost use Rattle.cache_ident.specs.declared.names.ThreadNo.{ThreadNo};
ghost use Rattle.cache_ident.specs.Residents.{IsNameResident, IsResident};
ghost use Rattle.board_checks.specs.desc_stores.specs.Contents.{residents_of};
ghost use Rattle.board_checks.specs.shown_state.specs.Shown.{flat_thread};
ghost use Rattle.board_core.specs.thread_sets.specs.SetsOf.{takes_steps};
ghost use Rattle.ready_queue.specs.declared.Candidate.{Candidate};
ghost use Rattle.ready_queue.specs.Choice.{is_before};
ghost use Rattle.board_core.specs.cached_machine.specs.Cached.{state_of};
ghost use Rattle.board_core.specs.cached_machine.specs.Posts.{mark_of};
ghost use Rattle.board_core.specs.Core.{contents_of};
ghost use Rattle.board_threads.specs.Posts.{HasComeBack, IsCheckedOut, IsOutWith, IsTicketFor, OnlyMarks};
ghost use Rattle.board_threads.specs.Tests.{goes_on};
ghost use Rattle.board_threads.specs.Waiting.{candidate_of as candidate_of_def, is_free as is_free_def, IsChosenOf, IsEarlier, IsFirstFree, IsFirstThat, IsFree, IsWaiting};

use crate::known::{is_runnable, known, next_ready};
use crate::tickets::Ticket;
use arrayvec::ArrayVec;
use board_checks::thread_as;
use board_core::{CachedMachine, Core, ItemRef};
use cache_ident::{Ident, Name, ThreadNo};
use flat_rules::{Records, is_ready};
use ready_queue::{Candidate, in_order};
use slot_cache::Loaded;
use thread_cache::ThreadRec;

// As many threads as can be loaded.
const MOST_LOADED: usize = 256;

// Where no more threads stand than that, few are loaded, and going over these is cheap.
const MANY: u32 = 64;

// As many ready threads are looked up one by one, each by a search. Where more are ready, the searches were in vain: so they are
// to cost little beside going over the loaded ones.
const FEW: usize = 4;

/// Takes the next thread to a processor: of the loaded runnable ones that are on none, the one of the highest priority; among
/// those the one that was checked out the longest ago; among those the one with the lowest number. None where there is none.
///
/// Where many threads stand and few of them are ready, it takes a search for each ready one; else it goes over the loaded ones.
/// It looks at the next step of the first that is ready, unless no row has a receiver. Only where that isn't runnable, it goes
/// over the loaded threads, sorts those that are ready, and looks at one after another until one is. It takes no memory.
#[inline(always)]
pub fn checkout(core: &mut Core, cpu: u32) -> Option<Ticket>
    requires processor { cpu < 8 }
    ensures nobody { IfNone result ((candidate : Candidate) → IsWaiting core.old candidate → ⊥) }
    ensures nothing { IfNone result (core.new ≡ core.old) }
    ensures chosen { IfSome result (λ ticket. IsChosenOf core.old ticket.no) }
    ensures ticket { IfSome result (IsTicketFor core.old cpu) }
    ensures out { IfSome result (λ ticket. IsCheckedOut ticket.no cpu core.old core.new) }
{
    let next = next_waiting(core)?;
    let ticket = ticket_of(core, cpu, next.no, next.near);
    core.check_out(cpu, next.no, Some(ticket.thread));
    Some(ticket)
}

// A thread, and the identifier that it was seen with, if it was.
#[derive(Clone, Copy)]
struct Next {
    no: ThreadNo,
    near: Option<Ident>,
}

// A thread that is loaded, ready and on no processor, and the identifier that it is loaded with.
#[derive(Clone, Copy)]
struct Free {
    candidate: Candidate,
    ident: Ident,
}

// The thread that goes next.
fn next_waiting(core: &Core) -> Option<Next>
    ensures chosen { IfSome result (λ next. IsChosenOf core.now next.no) }
    ensures nobody { IfNone result ((candidate : Candidate) → IsWaiting core.now candidate → ⊥) }
{
    let (found, near) = first_free(core);
    let first = found?;
    let no = first.no;
    if is_runnable(core, no, near) {
        return Some(Next { no, near });
    }
    // Its step would signal a thread without room.
    let no = next_in_order(core)?;
    Some(Next { no, near: None })
}

// The same, whatever the first is.
fn next_in_order(core: &Core) -> Option<ThreadNo>
    ensures chosen { IfSome result (IsChosenOf core.now) }
    ensures nobody { IfNone result ((candidate : Candidate) → IsWaiting core.now candidate → ⊥) }
{
    let mut waiting = candidates(core);
    waiting.sort_unstable_by(|a, b| in_order(a, b));
    first_runnable(core, &waiting)
}

// Of the loaded threads that are ready and on no processor, the first in the order of choice. Beside it the identifier that it
// was seen with, which is no more than a hint.
fn first_free(core: &Core) -> (Option<Candidate>, Option<Ident>)
    ensures { IsFirstFree core.now result.0 }
{
    if core.machine().thread_count() > MANY {
        if let Some(found) = first_of_ready(core) {
            return found;
        }
    }
    first_of_loaded(core)
}

// The same, found by the threads that are ready; None where more than a few are.
fn first_of_ready(core: &Core) -> Option<(Option<Candidate>, Option<Ident>)>
    ensures { IfSome result (λ found. IsFirstFree core.now found.0) }
{
    let mut first = None;
    let mut near = None;
    let mut from = 0;
    for _ in 0..FEW {
        let Some(no) = next_ready(core, from) else {
            return Some((first, near));
        };
        if let Some(free) = free_one(core, no) {
            let sooner = earlier(first, free.candidate);
            if sooner.no == no {
                near = Some(free.ident);
            }
            first = Some(sooner);
        }
        from = no.0 + 1;
    }
    match next_ready(core, from) {
        Some(_) => None,
        None => Some((first, near)),
    }
}

// The thread of that number, where it is loaded, ready and on no processor. It takes one search where it is loaded.
fn free_one(core: &Core, no: ThreadNo) -> Option<Free>
    ensures free { IfSome result (λ found. IsFree takes_steps core.now found.candidate) }
    ensures named { IfSome result (λ found. found.candidate.no ≡ no) }
    ensures none { IfNone result ((candidate : Candidate) → candidate.no ≡ no → IsFree takes_steps core.now candidate → ⊥) }
{
    known(core);
    let found = core.machine().tables().found(Name::Thread(no))?;
    let ident = found.ident?;
    let ItemRef::Thread(thread) = found.item else {
        unreachable!()
    };
    if !is_free(thread) {
        return None;
    }
    Some(Free {
        candidate: candidate_of(thread),
        ident,
    })
}

// The same, found by the threads that are loaded.
fn first_of_loaded(core: &Core) -> (Option<Candidate>, Option<Ident>)
    ensures { IsFirstFree core.now result.0 }
{
    known(core);
    let mut first = None;
    let mut near = None;
    for loaded in core.machine().tables().loaded_threads() {
        if is_free(&loaded.value) {
            let sooner = earlier(first, candidate_of(&loaded.value));
            near = seen_as(sooner.no, loaded).or(near);
            first = Some(sooner);
        }
    }
    (first, near)
}

// The identifier of a loaded thread, where it is the thread of that number.
fn seen_as(no: ThreadNo, loaded: &Loaded<ThreadRec>) -> Option<Ident>
    ensures { result ≡ (if loaded.now.value.no.0 == no.0 then Some loaded.now.ident else None) }
{
    if loaded.value.no == no {
        Some(loaded.ident)
    } else {
        None
    }
}

// The loaded threads that are ready and on no processor.
fn candidates(core: &Core) -> ArrayVec<Candidate, MOST_LOADED>
    ensures { (candidate : Candidate) → Contains result.items candidate ↔ IsFree takes_steps core.now candidate }
{
    known(core);
    let mut waiting = ArrayVec::new();
    for loaded in core.machine().tables().loaded_threads() {
        if is_free(&loaded.value) {
            waiting.push(candidate_of(&loaded.value));
        }
    }
    waiting
}

// Whether a loaded thread is ready and on no processor.
fn is_free(thread: &ThreadRec) -> bool
    ensures { result ≡ is_free_def thread.now }
{
    is_ready::<CachedMachine>(thread) && thread.on_cpu.is_none()
}

fn candidate_of(thread: &ThreadRec) -> Candidate
    ensures { result ≡ candidate_of_def thread.now }
{
    Candidate {
        no: thread.no,
        priority: thread.priority,
        last: thread.last,
    }
}

// The one of two that goes before.
fn earlier(first: Option<Candidate>, other: Candidate) -> Candidate
    ensures { IsEarlier first other result }
{
    match first {
        Some(first) if !in_order(&other, &first).is_lt() => first,
        _ => other,
    }
}

// The first of the candidates that is runnable.
fn first_runnable(core: &Core, waiting: &[Candidate]) -> Option<ThreadNo>
    requires sorted { IsSortedBy is_before waiting.now }
    ensures first { IfSome result (λ no. (c : Candidate) × (c.no ≡ no) × IsFirstThat (λ other. goes_on core.now other.no.0) waiting.now c) }
    ensures none { IfNone result ((c : Candidate) → Contains waiting.now c → goes_on core.now c.no.0 ≡ false) }
{
    for candidate in waiting {
        if is_runnable(core, candidate.no, None) {
            return Some(candidate.no);
        }
    }
    None
}

// The ticket of a thread that is loaded. `near` may be the identifier that it is loaded with.
#[inline(always)]
fn ticket_of(core: &Core, cpu: u32, no: ThreadNo, near: Option<Ident>) -> Ticket
    requires processor { cpu < 8 }
    requires loaded { IsNameResident (residents_of (contents_of core.now)) (Name.Thread no) }
    ensures ticket { IsTicketFor core.now cpu result }
    ensures no { result.no ≡ no }
{
    known(core);
    let name = Name::Thread(no);
    let Some(ident) = core.machine().tables().resident_near(name, near) else {
        unreachable!()
    };
    let thread = thread_loaded(core, no, ident);
    Ticket {
        thread: ident,
        no,
        cpu,
        context: thread.context,
    }
}

// The thread that is loaded with that identifier. Constant time.
fn thread_loaded(core: &Core, no: ThreadNo, ident: Ident) -> &ThreadRec
    requires loaded { IsResident (residents_of (contents_of core.now)) ident (Name.Thread no) }
    ensures { Some (flat_thread result.now) ≡ slice_get (state_of core.now.machine).threads no.0 }
{
    known(core);
    let Some(item) = core.machine().tables().get(ident) else {
        unreachable!()
    };
    let ItemRef::Thread(thread) = item else {
        unreachable!()
    };
    thread
}

/// Gives a thread back, where it is still loaded under the ticket's identifier and on the ticket's processor; else it does
/// nothing. It takes constant time.
pub fn leave(core: &mut Core, ticket: &Ticket)
    ensures only { OnlyMarks core.old core.new }
    ensures back { (whom : ThreadNo) → IsOutWith core.old ticket.now whom → HasComeBack whom core.old core.new }
    ensures stays { ((whom : ThreadNo) → IsOutWith core.old ticket.now whom → ⊥) → core.new ≡ core.old }
{
    if let Some(no) = out_with(core, ticket) {
        core.check_in(no, Some(ticket.thread));
    }
}

// The thread that is loaded under the ticket's identifier, where the ticket's processor has it.
fn out_with(core: &Core, ticket: &Ticket) -> Option<ThreadNo>
    ensures found { IfSome result (IsOutWith core.now ticket.now) }
    ensures alone { IfSome result (λ no. (whom : ThreadNo) → IsOutWith core.now ticket.now whom → no ≡ whom) }
    ensures absent { IfNone result ((whom : ThreadNo) → IsOutWith core.now ticket.now whom → ⊥) }
{
    known(core);
    let Ok(thread) = thread_as(core.machine().tables(), ticket.thread) else {
        return None;
    };
    let no = thread.no;
    let cpu = core.machine().processor_of(no, Some(ticket.thread))?;
    if cpu == ticket.cpu { Some(no) } else { None }
}

/// No thread is on a processor any more. It takes a time for each thread that can be loaded.
pub fn clear_marks(core: &mut Core)
    ensures only { OnlyMarks core.old core.new }
    ensures none { (whom : ThreadNo) → mark_of (contents_of core.new) whom ≡ None }
{
    core.check_in_all();
}
