//! Steps of one thread, taken on copied pages.

ghost use Rattle.std.specs.Prelude.{◌≡◌, ◌≢◌, ◌+◌, ◌%◌, ◌^◌, ◌<◌, ◌≤◌, None, Some, is_some, length, IfOk, IfSome, IsTrue};
ghost use Rattle.std.specs.Bool.{OnFalse, OnTrue};
ghost use Rattle.page_views.specs.Views.{can_fill, can_refill, filled, pages_of_views, HaveOneViewAPage};
ghost use Rattle.rv32_exec.specs.Steps.{after_step, OnMiss};
ghost use Rattle.rv32_exec.specs.declared.contexts.Context.{Context};
ghost use Rattle.rv32_exec.specs.declared.steps.Stepped.TheVariants.{Next};
ghost use Rattle.flat_laws.specs.flat_state.specs.Signals.{next_action};
ghost use Rattle.quantum.specs.Ahead.{ahead_over, begun, happened, more_with, is_signal as is_signal_def, signal_store as signal_store_def, signals_by, standing as standing_def, store_by, unbegun, views_with, went_by as went_by_def, HasRefilled, HasReordered, HasSameCopies, IsRun, IsStoreAhead};
ghost use Rattle.quantum.specs.LocalRun.{HaveOneContents, IsLocalRun};

use crate::paused::{Paused, SignalStore};
use cache_ident::{Frame, Ident, NoMemory, ThreadNo, Vpn};
use page_views::{MOST_VIEWS, PageView, PageViews};
use phys_groups::{Flags, PAGE_BYTES};
use rv32_exec::{Access, Action, Context, Space, Stepped, Width, action_for, step};
use rv32_isa::decode;
use std::alloc::Global;
use std::marker::Model;

/// Steps of one thread ahead of its machine, on copies of as many pages as it was made for. A contract sees the context that it
/// began with, the one now, how many views there may be, the views, what is kept of earlier views, how many steps there are, and the last answer of `run`.
///
/// Whatever pages were copied at whatever moments, the steps are those that the thread takes in every state in which it
/// has the first context and finds the first contents of each view that was touched. No call after `new` takes memory.
#[derive(Drop)]
pub struct Quantum {
    first: Context,
    context: Context,
    views: PageViews,
    steps: u32,
    paused: Option<Paused>,
}

impl Model for Quantum {
    ghost use Rattle.quantum.specs.Ahead.{Ahead};
    ghost use Rattle.quantum.specs.Made.{IsMade};

    ghost Value = { Ahead };

    ghost view = { λ q. record { first = q.first; context = q.context; most = q.views.most; views = q.views.views; kept = q.views.kept; steps = q.steps; paused = q.paused } };

    ghost invariant = { λ q. IsMade (record { first = q.first; context = q.context; most = q.views.most; views = q.views.views; kept = q.views.kept; steps = q.steps; paused = q.paused }) };
}

// How many steps there are since the beginning, and why the run stands.
struct Went {
    steps: u32,
    paused: Paused,
}

impl Quantum {
    /// Begun with registers and pc of 0, with room for so many views, without views and steps, and nothing kept. The one call that
    /// takes memory: some 8 KiB for each view and 24 KiB for words.
    pub fn new(alloc: Global, most: usize) -> Result<Quantum, NoMemory>
        requires { most ≤ MOST_VIEWS }
        ensures { IfOk result (λ quantum. quantum ≡ unbegun most) }
    {
        let context = no_context();
        Ok(Quantum {
            first: context,
            context,
            views: PageViews::new(alloc, most)?,
            steps: 0,
            paused: None,
        })
    }

    /// Begins anew with a context, without views and steps. What carries a place of a journal is kept. `no` is the number of the thread
    /// whose pages are asked for next: it says no more than where they are looked for first.
    pub fn begin(&mut self, context: Context, no: ThreadNo)
        requires { context.pc % 4 ≡ 0 }
        ensures { self.new ≡ begun context self.old }
    {
        self.first = context;
        self.context = context;
        self.views.clear(no.0);
        self.steps = 0;
        self.paused = None;
    }

    /// Gives up all that there is. It is as a new one, which may be used with another journal.
    pub fn forget(&mut self)
        ensures { self.new ≡ unbegun self.old.most }
    {
        let context = no_context();
        self.first = context;
        self.context = context;
        self.views.forget();
        self.steps = 0;
        self.paused = None;
    }

    /// Whether there is room for the view of a page that has none.
    pub fn can_fill(&self, vpn: Vpn) -> bool
        ensures { result ≡ can_fill self.now.most self.now.views vpn }
    {
        self.views.can_fill(vpn)
    }

    /// Adds an untouched view of a page, copied from `bytes`. Where a view of its frame was touched, it holds what the
    /// first of these holds now. The bytes carry no place, and what was kept in the view's place is gone. All else stays.
    pub fn fill(&mut self, vpn: Vpn, frame: Frame, flags: Flags, row: Ident, bytes: &[u8])
        requires room { IsTrue (can_fill self.old.most self.old.views vpn) }
        requires whole_page { length bytes.now ≡ 4096 }
        ensures { self.new ≡ more_with (filled self.old.views vpn frame flags row bytes.now None) self.old }
    {
        self.views.fill(vpn, frame, flags, row, bytes);
    }

    /// As `fill`, of bytes that the frame has as of a place of a journal, which they carry.
    pub fn fill_as_of(
        &mut self,
        vpn: Vpn,
        frame: Frame,
        flags: Flags,
        row: Ident,
        bytes: &[u8],
        place: u64,
    )
        requires room { IsTrue (can_fill self.old.most self.old.views vpn) }
        requires whole_page { length bytes.now ≡ 4096 }
        ensures { self.new ≡ more_with (filled self.old.views vpn frame flags row bytes.now (Some place)) self.old }
    {
        self.views.fill_as_of(vpn, frame, flags, row, bytes, place);
    }

    /// Adds an untouched view of a page, where bytes of its frame are kept as of the place `since` of a journal, or a later one, and no
    /// view of the frame was touched; and answers whether it did. So pages that are gone over again and again aren't copied again.
    pub fn refill(&mut self, vpn: Vpn, frame: Frame, flags: Flags, row: Ident, since: u64) -> bool
        requires room { IsTrue (can_fill self.old.most self.old.views vpn) }
        ensures answer { result ≡ can_refill self.old.views self.old.kept frame since }
        ensures refilled { OnTrue result (HasRefilled vpn frame flags row since self.old self.new) }
        ensures not { OnFalse result (HasReordered self.old self.new) }
    {
        self.views.refill(vpn, frame, flags, row, since)
    }

    /// Its steps happened at a place of a journal: it begins anew with the context that they came to, and of each view that was touched
    /// it keeps what that holds now, as of this place.
    pub fn happened(&mut self, place: u64)
        ensures { self.new ≡ happened place self.old }
    {
        self.first = self.context;
        self.views.happened(place);
        self.steps = 0;
        self.paused = None;
    }

    /// The identifier of the row that a page was copied through last, as far as it is known. Any may be answered, and whoever takes it
    /// looks which row it is.
    pub fn near(&self, vpn: Vpn) -> Option<Ident> {
        self.views.near(vpn)
    }

    /// The pages that the thread touched in its last quantum, where that ran to its limit: by places from 0 on, up to `MOST_RECENT`. They
    /// are likely to be asked for again. Nothing is promised of them.
    pub fn recent(&self, place: usize) -> Option<Vpn> {
        self.views.recent(place)
    }

    /// The views in the order of their filling.
    pub fn views(&self) -> &[PageView]
        ensures views { result.now ≡ self.now.views }
        ensures one_a_page { HaveOneViewAPage self.now.views }
        ensures one_contents { HaveOneContents self.now.views }
    {
        self.views.as_slice()
    }

    /// The context that it began with.
    pub fn first(&self) -> &Context
        ensures { result.now ≡ self.now.first }
    {
        &self.first
    }

    /// The context after the steps.
    pub fn context(&self) -> &Context
        ensures { result.now ≡ self.now.context }
    {
        &self.context
    }

    /// How many steps there are since the beginning. They are a local run.
    pub fn steps(&self) -> u32
        ensures steps { result ≡ self.now.steps }
        ensures local_run { IsLocalRun self.now }
    {
        self.steps
    }

    /// The last answer of `run` since the beginning.
    pub fn paused(&self) -> Option<Paused>
        ensures { result ≡ self.now.paused }
    {
        self.paused
    }

    /// What the store that signals would do before which the run pauses, and `None` where it doesn't pause before one. The step
    /// isn't taken, and all stays. It costs a fetch and a decoding.
    pub fn signal_store(&self) -> Option<SignalStore>
        ensures store { result ≡ signal_store_def self.now }
        ensures effect { IfSome result (IsStoreAhead self.now) }
    {
        if is_signal(self.paused) {
            next_store(&self.views, &self.context)
        } else {
            None
        }
    }

    /// Takes steps until there are `limit` of them, or something else is met: a call or the end of the thread, before the
    /// limit; and before a step that signals, or that needs a page that no view has. It waits for nobody.
    pub fn run(&mut self, limit: u32) -> Paused
        ensures run { IsRun limit self.old self.new result }
        ensures local_run { IsLocalRun self.new }
        ensures copies { HasSameCopies self.old self.new }
        ensures store { is_some (signal_store_def self.new) ≡ is_signal_def (Some result) }
    {
        if let Some(paused) = standing(self.paused) {
            return paused;
        }
        let Went { steps, paused } = go(&mut self.context, &mut self.views, self.steps, limit);
        self.steps = steps;
        self.paused = Some(paused);
        // Where something else than its limit ends it, the thread's way goes on elsewhere.
        self.views.note_recent(matches!(paused, Paused::Limit));
        paused
    }
}

fn no_context() -> Context
    ensures { result ≡ (unbegun 0).context }
{
    Context {
        regs: [0; 32],
        pc: 0,
    }
}

// A pause that stands, whatever is asked for.
fn standing(paused: Option<Paused>) -> Option<Paused>
    ensures { result ≡ standing_def paused }
{
    match paused {
        Some(Paused::Call) => Some(Paused::Call),
        Some(Paused::Stopped(reason)) => Some(Paused::Stopped(reason)),
        _ => None,
    }
}

// Takes steps behind `from` earlier ones, until there are `limit` of them or something else is met, and answers what they came to.
// Between two steps there is little else: whether some view has the message flag is asked once, since no step changes it, and the
// count is a variable. `take` is called in one place alone, so that the compiler puts the step into the loop.
#[inline]
fn go(context: &mut Context, views: &mut PageViews, from: u32, limit: u32) -> Went
    requires { context.old.pc % 4 ≡ 0 }
    ensures { (first : Context) → IsRun limit (ahead_over first context.old views.old from None) (ahead_over first context.new views.new result.steps (Some result.paused)) result.paused }
{
    let watched = views.has_message();
    let mut steps = from;
    while steps < limit {
        if watched && signals_next(context, views) {
            return Went {
                steps,
                paused: Paused::Signal,
            };
        }
        let stepped = take(context, views);
        let Stepped::Next = stepped else {
            return went_by(steps, stepped);
        };
        steps += 1;
    }
    Went {
        steps,
        paused: Paused::Limit,
    }
}

// What steps come to, `before` of them and a last one. A step that is missed isn't taken. It is no call, so that what a step that goes on
// answers is nowhere in memory.
#[inline(always)]
fn went_by(before: u32, stepped: Stepped) -> Went
    requires last { stepped ≢ Next }
    requires room { before + 1 < 2 ^ 32 }
    ensures { Some result ≡ went_by_def before stepped }
{
    match stepped {
        Stepped::Call => Went {
            steps: before + 1,
            paused: Paused::Call,
        },
        Stepped::Stop(reason) => Went {
            steps: before + 1,
            paused: Paused::Stopped(reason),
        },
        Stepped::Miss { va, access } => Went {
            steps: before,
            paused: Paused::Miss { va, access },
        },
        Stepped::Next => unreachable!(),
    }
}

// Takes a step over the views.
#[inline]
fn take(context: &mut Context, views: &mut PageViews) -> Stepped
    requires { context.old.pc % 4 ≡ 0 }
    ensures aligned { context.new.pc % 4 ≡ 0 }
    ensures context { context.new ≡ (after_step context.old (pages_of_views views.old.views)).context }
    ensures views { views.new ≡ record views.old { views = views_with views.old.views (after_step context.old (pages_of_views views.old.views)).pages } }
    ensures answer { result ≡ (after_step context.old (pages_of_views views.old.views)).answer }
    ensures missed { OnMiss result ((context.new ≡ context.old) × (views.new ≡ views.old)) }
{
    step(context, views)
}

// Whether the next step is a store that signals.
#[inline]
fn signals_next(context: &Context, views: &mut PageViews) -> bool
    requires { context.now.pc % 4 ≡ 0 }
    ensures answer { result ≡ signals_by views.old.views (next_action context.now (pages_of_views views.old.views)) }
    ensures views { views.new ≡ views.old }
{
    let Ok(word) = views.fetch(context.pc) else {
        return false;
    };
    match views.instruction(context.pc, word) {
        Some(instr) => signals(views, action_for(context, instr)),
        None => false,
    }
}

// Whether an action is a store that signals.
fn signals(views: &PageViews, action: Action) -> bool
    ensures { result ≡ signals_by views.now.views (Some action) }
{
    match action {
        Action::Store {
            va,
            width: Width::Word,
            ..
        } => match views.through(va, Access::Write) {
            Some(view) => view.flags().m && signal_pages::signals(va % PAGE_BYTES),
            None => false,
        },
        _ => false,
    }
}

fn is_signal(paused: Option<Paused>) -> bool
    ensures { result ≡ is_signal_def paused }
{
    match paused {
        Some(Paused::Signal) => true,
        _ => false,
    }
}

// What the next step would do, if it is a store that signals.
fn next_store(views: &PageViews, context: &Context) -> Option<SignalStore>
    requires { context.now.pc % 4 ≡ 0 }
    ensures { result ≡ store_by context.now views.now.views (next_action context.now (pages_of_views views.now.views)) }
{
    let Ok(word) = views.fetch(context.pc) else {
        return None;
    };
    match decode(word) {
        Some(instr) => store_of(views, context, action_for(context, instr)),
        None => None,
    }
}

// What an action would do, if it is a store that signals.
fn store_of(views: &PageViews, context: &Context, action: Action) -> Option<SignalStore>
    ensures { result ≡ store_by context.now views.now.views (Some action) }
{
    match action {
        Action::Store { va, value, .. } if signals(views, action) => Some(SignalStore {
            vpn: Vpn(va / PAGE_BYTES),
            offset: va % PAGE_BYTES,
            word: value,
            context: Context {
                pc: context.pc.wrapping_add(4),
                ..*context
            },
        }),
        _ => None,
    }
}
