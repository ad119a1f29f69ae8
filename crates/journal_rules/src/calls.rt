//! Completed calls.

ghost use Rattle.std.specs.Prelude.{◌≡◌, List, IfOk, IfSome, IfNone, IsSome, OnOk, slice_get};
ghost use Rattle.std.specs.Bool.{MatchBool};
ghost use Rattle.cache_ident.specs.Residents.{Resident};
ghost use Rattle.flat_state.specs.declared.events.Event.TheVariants.{Complete};
ghost use Rattle.flat_state.specs.Events.{after_event, applied};
ghost use Rattle.run_journal.specs.Legal.{AreGood};
ghost use Rattle.residents.specs.declared.relying.Reliance.TheVariants.{Rights};
ghost use Rattle.residents.specs.Tables.{AreThose};
ghost use Rattle.journal_rules.specs.Relied.{AreRelyingOn};
ghost use Rattle.journal_rules.specs.Running.{AreGoodNames, LeavesGood, SpoilOne};
ghost use Rattle.journal_rules.specs.Touched.{AddsOne, AddsPlaces, AreAsked, CoversCall, HaveOnes, IsAlone};
ghost use Rattle.journal_rules.specs.declared.calls.Touched.TheVariants as touches;

use crate::names::stays_good;
use cache_ident::{Frame, KernelNo, Name, NoMemory, ThreadNo, Vpn};
use flat_machine::Flat;
use flat_state::{Event, FlatThread};
use phys_groups::GROUP_FRAMES;
use residents::{Reliance, RelyingRows, Residents};
use std::alloc::Global;

/// What a call can touch of what is resident.
#[derive(Clone, Copy)]
pub(crate) enum Touched {
    Nothing,
    /// A row alone.
    Row(Name),
    /// The message rows of a frame, which depend on its signal rows.
    OnFrame(Frame),
    /// The rows of a kernel on a page group, and the message rows there.
    RightsOf(KernelNo, u32),
}

/// Completes the call of a thread, and answers whether it can be completed and leaves all that is resident standing, fit
/// and with what it depends on. Where it can't be completed the machine stays.
///
/// It looks at few of what is resident, whatever there is of it: where the call adds a row, at one message row of the frame;
/// where it takes one away, at that one; and where it sets rights, at four rows of the kernel on the page group and one message
/// row of each of its frames. For each it costs the logarithm of the rows and of what is resident.
pub fn complete(
    alloc: Global,
    flat: &mut Flat,
    residents: &Residents,
    relying: &RelyingRows,
    thread: ThreadNo,
) -> Result<bool, NoMemory>
    ensures { IfOk result (λ done. (rs : List Resident) → AreThose residents.now rs → AreRelyingOn relying.now flat.old rs → AreGood flat.old rs → MatchBool done (LeavesGood flat.old rs thread × (flat.new ≡ applied flat.old (Complete thread))) (LeavesGood flat.old rs thread → ⊥)) }
{
    let Some(touched) = touched_in(flat, thread) else {
        return Ok(false);
    };
    let names = names_asked(alloc, residents, relying, touched)?;
    flat.apply(&Event::Complete(thread))?;
    Ok(all_stay_good(flat, residents, names.as_slice()))
}

// What the call of the thread can touch; nothing where it can't be completed.
fn touched_in(flat: &Flat, thread: ThreadNo) -> Option<Touched>
    ensures some { IfSome result (λ touched. IsSome (after_event flat.now (Complete thread)) × IfSome (slice_get flat.now.threads thread.0) (λ t. CoversCall t touched)) }
    ensures none { IfNone result (IsSome (after_event flat.now (Complete thread)) → ⊥) }
{
    match flat.thread(thread) {
        Some(caller) => {
            if !flat_rules::is_completable::<Flat>(caller) {
                return None;
            }
            Some(touched_by(caller))
        }
        None => None,
    }
}

// What the call that a thread is in can touch: call 6 adds a row, call 7 takes one away, and call 9 sets rights.
fn touched_by(caller: &FlatThread) -> Touched
    ensures { CoversCall caller.now result }
{
    let call = caller.context.regs[17];
    if call == 6 {
        return Touched::OnFrame(Frame(caller.context.regs[11]));
    }
    if call == 7 {
        return Touched::Row(Name::Mapping(caller.space, Vpn(caller.context.regs[10])));
    }
    if call == 9 {
        return Touched::RightsOf(KernelNo(caller.context.regs[10]), caller.context.regs[11]);
    }
    Touched::Nothing
}

// The names of what has to be asked: of what can be touched, one for all that the call spares or spoils together.
fn names_asked(
    alloc: Global,
    residents: &Residents,
    relying: &RelyingRows,
    touched: Touched,
) -> Result<Vec<Name>, NoMemory>
    ensures { IfOk result (λ names. AreAsked residents.now relying.now touched names.items) }
{
    match touched {
        Touched::Nothing => Ok(Vec::new(alloc)),
        Touched::Row(row) => name_alone(alloc, residents, row),
        Touched::OnFrame(frame) => one_of_frame(alloc, relying, frame),
        Touched::RightsOf(kernel, group) => ones_of_rights(alloc, relying, kernel, group),
    }
}

// A message row of the frame, if there is one.
fn one_of_frame(alloc: Global, relying: &RelyingRows, frame: Frame) -> Result<Vec<Name>, NoMemory>
    ensures { IfOk result (λ names. HaveOnes relying.now (touches.OnFrame frame) names.items) }
{
    let mut names = Vec::new(alloc);
    let signals = Reliance::Signals {
        group: frame.0 / GROUP_FRAMES,
        place: frame.0 % GROUP_FRAMES,
    };
    add_one(relying, signals, &mut names)?;
    Ok(names)
}

// Of each that relies on rights of the kernel on the group one, and of each frame of the group a message row.
fn ones_of_rights(
    alloc: Global,
    relying: &RelyingRows,
    kernel: KernelNo,
    group: u32,
) -> Result<Vec<Name>, NoMemory>
    ensures { IfOk result (λ names. HaveOnes relying.now (touches.RightsOf kernel group) names.items) }
{
    let mut names = Vec::new(alloc);
    add_of_rights(relying, kernel, group, false, false, &mut names)?;
    add_of_rights(relying, kernel, group, false, true, &mut names)?;
    add_of_rights(relying, kernel, group, true, false, &mut names)?;
    add_of_rights(relying, kernel, group, true, true, &mut names)?;
    add_of_frames(relying, group, &mut names)?;
    Ok(names)
}

// Adds a row that asks so much of the rights of the kernel on the group, if there is one.
fn add_of_rights(
    relying: &RelyingRows,
    kernel: KernelNo,
    group: u32,
    reads: bool,
    writes: bool,
    names: &mut Vec<Name>,
) -> Result<(), NoMemory>
    ensures { OnOk result (AddsOne relying.now (Rights kernel group reads writes) names.old.items names.new.items) }
{
    let rights = Reliance::Rights {
        kernel,
        group,
        reads,
        writes,
    };
    add_one(relying, rights, names)
}

// Adds a message row of each frame of the group that has one.
fn add_of_frames(relying: &RelyingRows, group: u32, names: &mut Vec<Name>) -> Result<(), NoMemory>
    ensures { OnOk result (AddsPlaces relying.now group 128 names.old.items names.new.items) }
{
    for place in 0..GROUP_FRAMES {
        add_one(relying, Reliance::Signals { group, place }, names)?;
    }
    Ok(())
}

// Adds a row that relies on it, if there is one.
fn add_one(relying: &RelyingRows, reliance: Reliance, names: &mut Vec<Name>) -> Result<(), NoMemory>
    ensures { OnOk result (AddsOne relying.now reliance names.old.items names.new.items) }
{
    if let Some(name) = relying.first(reliance) {
        names.push(name)?;
    }
    Ok(())
}

// The name alone, where something of that name is resident.
fn name_alone(alloc: Global, residents: &Residents, name: Name) -> Result<Vec<Name>, NoMemory>
    ensures { IfOk result (λ names. IsAlone residents.now name names.items) }
{
    let mut names = Vec::new(alloc);
    if !residents.is_named(name) {
        return Ok(names);
    }
    names.push(name)?;
    Ok(names)
}

// Whether what has these names stays good.
fn all_stay_good(flat: &Flat, residents: &Residents, names: &[Name]) -> bool
    ensures { (rs : List Resident) → AreThose residents.now rs → MatchBool result (AreGoodNames flat.now rs names.now) (SpoilOne flat.now rs names.now) }
{
    for name in names {
        if !stays_good(flat, residents, *name) {
            return false;
        }
    }
    true
}
