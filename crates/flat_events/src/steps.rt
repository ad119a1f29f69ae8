//! The next step of a thread.

ghost use Rattle.std.specs.Prelude.{◌≡◌, ◌%◌, ◌<◌, unwrap_or, length};
ghost use Rattle.rv32_exec.specs.Steps.{IsAfter, OnMiss, after_step as after_instruction};
ghost use Rattle.flat_state.specs.Translation.{fault_kind as fault_kind_def, reached as reached_def};
ghost use Rattle.flat_state.specs.Pages.{pages_of};
ghost use Rattle.flat_state.specs.Signals.{is_runnable};
ghost use Rattle.flat_state.specs.Step.{after_step, outcome, step_if};
ghost use Rattle.flat_rules.specs.Readings.{OfThread};
ghost use Rattle.flat_mmu.specs.Seen.{beside};
ghost use Rattle.flat_events.specs.Readings.{RanIn, status_so, unsignalled};

use crate::delivery::deliver;
use cache_ident::{SpaceNo, ThreadNo};
use flat_mmu::Mmu;
use flat_rules::{
    Records, Steps, full_among, is_ready, next_signal, reached, receivers_for, thread_at,
};
use rv32_exec::{Access, Context, FaultKind, Reason, Status, Stepped};

/// Takes the next step of a thread, if it is runnable. What the tables keep beside the flat state stays as it is. It costs
/// a look at the step, its accesses, and the signals that it sends.
#[tactic(auto, unfolding(flat_state::specs::Step::after_step))]
pub fn step<T: Steps>(tables: &mut T, no: ThreadNo)
    ensures state { T.state tables.new ≡ unwrap_or (after_step (T.state tables.old) no.0) (T.state tables.old) }
    ensures rest { T.rest tables.new ≡ T.rest tables.old }
{
    if no.0 < tables.thread_count() {
        step_at(tables, no);
    }
}

// Takes the next step of a thread that there is, if it is runnable.
fn step_at<T: Steps>(tables: &mut T, no: ThreadNo)
    requires { no.0 < length (T.state tables.old).threads }
    ensures state { OfThread (T.state tables.old) no.0 (λ t. T.state tables.new ≡ unwrap_or (step_if (is_runnable (T.state tables.old) t) (T.state tables.old) no.0 t) (T.state tables.old)) }
    ensures rest { T.rest tables.new ≡ T.rest tables.old }
{
    // What holds of the machine says that a receiver that isn't full has room for its addresses.
    tables.holds();
    let thread = thread_at(tables, no);
    if !is_ready::<T>(thread) {
        return;
    }
    let signal = next_signal(tables, thread);
    let receivers = receivers_for(tables, signal);
    if full_among(tables, &receivers).is_some() {
        return;
    }
    let stepped = take_step(tables, no);
    deliver(tables, stepped, signal, &receivers);
}

// Takes the step of a thread, and leaves its signal to the caller.
fn take_step<T: Steps>(tables: &mut T, no: ThreadNo) -> Stepped
    requires { no.0 < length (T.state tables.old).threads }
    ensures state { OfThread (T.state tables.old) no.0 (λ t. T.state tables.new ≡ unsignalled (T.state tables.old) no.0 t) }
    ensures answer { OfThread (T.state tables.old) no.0 (λ t. result ≡ (outcome (T.state tables.old) t).answer) }
    ensures rest { T.rest tables.new ≡ T.rest tables.old }
{
    let thread = thread_at(tables, no);
    let space = T::space_of(thread);
    let mut context = *T::context_of(thread);
    let stepped = run_in(tables, space, &mut context);
    let status = status_after(tables, no, stepped);
    tables.put(no, &context, status);
    stepped
}

// What the thread does after a step that came to that.
fn status_after<T: Records>(tables: &T, no: ThreadNo, stepped: Stepped) -> Status
    requires { no.0 < length (T.state tables.now).threads }
    ensures { OfThread (T.state tables.now) no.0 (λ t. result ≡ status_so (T.state tables.now) t stepped) }
{
    match stepped {
        Stepped::Next => Status::Ready,
        Stepped::Call => Status::Trapped,
        Stepped::Stop(reason) => Status::Ended(reason),
        Stepped::Miss { va, access } => {
            let kind = fault_kind(tables, no, access, va);
            Status::Ended(Reason::Fault { kind, access, va })
        }
    }
}

// Why an access of the thread doesn't translate.
fn fault_kind<T: Records>(tables: &T, no: ThreadNo, access: Access, va: u32) -> FaultKind
    requires { no.0 < length (T.state tables.now).threads }
    ensures { OfThread (T.state tables.now) no.0 (λ t. result ≡ fault_kind_def (reached_def (T.state tables.now) access t.space va)) }
{
    match reached(tables, access, T::space_of(thread_at(tables, no)), va) {
        Err(kind) => kind,
        Ok(_) => FaultKind::Rights,
    }
}

// Takes one step in the pages of a space.
fn run_in<T: Steps>(tables: &mut T, space: SpaceNo, context: &mut Context) -> Stepped
    requires { context.old.pc % 4 ≡ 0 }
    ensures ran { RanIn (T.state tables.old) space context.old (T.state tables.new) context.new result }
    ensures missed { OnMiss result ((context.new ≡ context.old) × (T.state tables.new ≡ T.state tables.old)) }
    ensures aligned { context.new.pc % 4 ≡ 0 }
    ensures rest { T.rest tables.new ≡ T.rest tables.old }
{
    // What holds of the machine before and after says that what stands in the pages is what stands in memory and rows.
    tables.holds();
    let stepped = run_through(tables, space, context);
    tables.holds();
    stepped
}

// The same, by what it makes of the pages.
fn run_through<T: Steps>(tables: &mut T, space: SpaceNo, context: &mut Context) -> Stepped
    requires { context.old.pc % 4 ≡ 0 }
    ensures aligned { context.new.pc % 4 ≡ 0 }
    ensures after { IsAfter context.new (pages_of (T.state tables.new) space) result (after_instruction context.old (pages_of (T.state tables.old) space)) }
    ensures kept { beside (T.state tables.new) space 0 ≡ beside (T.state tables.old) space 0 }
    ensures missed { OnMiss result ((context.new ≡ context.old) × (pages_of (T.state tables.new) space ≡ pages_of (T.state tables.old) space)) }
    ensures rest { T.rest tables.new ≡ T.rest tables.old }
{
    let mut mmu = Mmu::new(tables, space);
    rv32_exec::step(context, &mut mmu)
}
