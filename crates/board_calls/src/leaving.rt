//! What leaves before a call is completed: what is loaded and then no longer stands, isn't fit, or depends on what isn't loaded.
//!
//! Only rows are among it, beside the rows that depend on them.

ghost use Rattle.std.specs.Prelude.{◌≡◌, ◌<◌, [], None, true, length, IfOk, OnOk};
ghost use Rattle.std.specs.List.Sorted.{IsNonDecreasingBy};
ghost use Rattle.cache_ident.specs.Residents.{IsResident};
ghost use Rattle.phys_groups.specs.Translation.{covers};
ghost use Rattle.flat_state.specs.declared.events.Event.TheVariants.{Complete};
ghost use Rattle.flat_state.specs.Declaration.{broken_rule};
ghost use Rattle.flat_state.specs.Call.{is_completable};
ghost use Rattle.flat_state.specs.Events.{applied};
ghost use Rattle.flat_state.specs.Translation.{is_fit_row as is_fit_row_def, rights_of as rights_of_def};
ghost use Rattle.flat_state.specs.WellFormed.{IsWellFormed};
ghost use Rattle.flat_rules.specs.Readings.{OfThread};
ghost use Rattle.board_core.specs.flat_events.specs.Asked.{asked_of, CanBeDone};
ghost use Rattle.board_checks.specs.run_journal.specs.Legal.{AreGood};
ghost use Rattle.board_checks.specs.desc_stores.specs.Contents.{item_as, residents_of};
ghost use Rattle.board_checks.specs.desc_stores.specs.Sound.{IsExactlyOne};
ghost use Rattle.board_core.specs.cached_machine.specs.Cached.{state_of};
ghost use Rattle.board_calls.specs.Leaving.{after_grant, goes_so, is_absent as is_absent_def, is_message as is_message_def, lacks_rows as lacks_rows_def, passes, takes_away, AddsThose, AreBad, GoesFor, GoesForDecl, IsOf, IsRowAs, IsRowGoing, IsRowInGroup};

use board_core::events::{Asked, asks};
use board_core::{CachedMachine, ItemRef};
use cache_ident::{Frame, Ident, KernelNo, Name, NoMemory, SpaceNo, ThreadNo, Vpn};
use flat_rules::{Records, rights_of};
use flat_state::Decl;
use phys_groups::{Flags, GROUP_FRAMES, Rights, Row};
use row_store::RowsOf;
use sorted_list::Run;
use std::alloc::Global;

/// The loaded rows that leave for what the call of a thread asks for, by serial. It takes memory for them, and looks at no rows
/// but those that `complete` tells.
pub(crate) fn leaving(
    alloc: Global,
    machine: &CachedMachine,
    no: ThreadNo,
) -> Result<Vec<Ident>, NoMemory>
    requires there { no.0 < length (state_of machine.now).threads }
    requires completable { OfThread (state_of machine.now) no.0 (λ t. is_completable t ≡ true) }
    ensures bad { IfOk result (λ idents. AreBad (applied (state_of machine.now) (Complete no)) (residents_of machine.now.held.contents) idents.items) }
    ensures ordered { IfOk result (λ idents. IsNonDecreasingBy (λ ident. ident.serial) idents.items) }
    ensures quiet { IfOk result (λ idents. OfThread (state_of machine.now) no.0 (λ t. asked_of (state_of machine.now) t ≡ Asked.Nothing → idents.items ≡ [])) }
{
    known(machine);
    let asked = asks(machine, no);
    let mut idents = Vec::new(alloc);
    add_for(machine, &asked, &mut idents)?;
    idents.sort_unstable_by_key(|ident: &Ident| ident.serial);
    Ok(idents)
}

// Does nothing. A proof has from it what holds of every machine and of its tables.
fn known(machine: &CachedMachine)
    ensures one { IsExactlyOne machine.now.held.contents }
    ensures good { AreGood (state_of machine.now) (residents_of machine.now.held.contents) }
    ensures formed { IsWellFormed (state_of machine.now) }
{
    machine.holds();
    machine.tables_are_sound();
}

// Adds what leaves for what is asked.
fn add_for(machine: &CachedMachine, asked: &Asked, idents: &mut Vec<Ident>) -> Result<(), NoMemory>
    requires { CanBeDone (state_of machine.now) asked.now }
    ensures { OnOk result (AddsThose (GoesFor machine.now asked.now) idents.old.items idents.new.items) }
{
    match *asked {
        Asked::Nothing | Asked::Refused { .. } => Ok(()),
        Asked::Unmaps { space, vpn } => add_row(machine, space, vpn, idents),
        Asked::Declares { decl, .. } => add_for_decl(machine, &decl, idents),
    }
}

// Adds what leaves for a declaration.
fn add_for_decl(
    machine: &CachedMachine,
    decl: &Decl,
    idents: &mut Vec<Ident>,
) -> Result<(), NoMemory>
    requires { broken_rule (state_of machine.now) decl.now ≡ None }
    ensures { OnOk result (AddsThose (GoesForDecl machine.now decl.now) idents.old.items idents.new.items) }
{
    known(machine);
    match *decl {
        Decl::Map {
            space,
            frame,
            flags,
            receiver,
            ..
        } => match receiver {
            Some(_) => add_messages_for(machine, space, frame, flags, idents),
            None => Ok(()),
        },
        Decl::Right {
            kernel,
            group,
            read,
            write,
        } => {
            let grant = Grant {
                kernel,
                group,
                read,
                write,
            };
            add_unfit(machine, &grant, idents)
        }
        _ => Ok(()),
    }
}

// Adds the row of a page, if it is loaded.
fn add_row(
    machine: &CachedMachine,
    space: SpaceNo,
    vpn: Vpn,
    idents: &mut Vec<Ident>,
) -> Result<(), NoMemory>
    ensures { OnOk result (AddsThose (λ ident. IsResident (residents_of machine.now.held.contents) ident (Name.Mapping space vpn)) idents.old.items idents.new.items) }
{
    known(machine);
    if let Some(ident) = machine.tables().resident(Name::Mapping(space, vpn)) {
        idents.push(ident)?;
    }
    Ok(())
}

// Adds the loaded message rows of the frame that a signal row is asked for, if that row will be fit. It comes to its shelf, and
// they will depend on it.
fn add_messages_for(
    machine: &CachedMachine,
    space: SpaceNo,
    frame: Frame,
    flags: Flags,
    idents: &mut Vec<Ident>,
) -> Result<(), NoMemory>
    requires space { space.0 < length (state_of machine.now).spaces }
    requires frame { frame.0 < 2048 }
    ensures { OnOk result (AddsThose (λ ident. (covers (rights_of_def (state_of machine.now) space) frame flags ≡ true) × IsRowAs machine.now.held.contents frame is_message_def ident) idents.old.items idents.new.items) }
{
    if rights_of(machine, space).covers(frame, flags) {
        add_messages(machine, frame, idents)
    } else {
        Ok(())
    }
}

// Adds the loaded message rows of a frame.
fn add_messages(
    machine: &CachedMachine,
    frame: Frame,
    idents: &mut Vec<Ident>,
) -> Result<(), NoMemory>
    ensures { OnOk result (AddsThose (IsRowAs machine.now.held.contents frame is_message_def) idents.old.items idents.new.items) }
{
    known(machine);
    for ident in machine.tables().message_rows(frame) {
        idents.push(ident)?;
    }
    Ok(())
}

// Rights of a kernel on a group, as they will be.
#[derive(Clone, Copy)]
pub(crate) struct Grant {
    kernel: KernelNo,
    group: u32,
    read: bool,
    write: bool,
}

impl Grant {
    // Whether the kernel loses a right on the group.
    fn takes_away(&self, machine: &CachedMachine) -> bool
        requires group { self.now.group < 16 }
        ensures { result ≡ takes_away (state_of machine.now) self.now }
    {
        let Some(rights) = machine.rights(self.kernel) else {
            return false;
        };
        let (reads, writes) = rights.get(self.group);
        (reads && !self.read) || (writes && !self.write)
    }

    // The rights over a space as they will be.
    fn rights_over(&self, machine: &CachedMachine, space: SpaceNo) -> Rights
        requires space { space.0 < length (state_of machine.now).spaces }
        requires group { self.now.group < 16 }
        ensures { result ≡ rights_of_def (after_grant (state_of machine.now) self.now) space }
    {
        let mut rights = rights_of(machine, space);
        if machine.kernel_of(space) == Some(self.kernel) {
            rights.set(self.group, self.read, self.write);
        }
        rights
    }

    // Whether a row will be fit.
    fn is_fit(&self, machine: &CachedMachine, row: &Row) -> bool
        requires space { row.now.space.0 < length (state_of machine.now).spaces }
        requires frame { row.now.frame.0 < 2048 }
        requires group { self.now.group < 16 }
        ensures { result ≡ is_fit_row_def (after_grant (state_of machine.now) self.now) row.now }
    {
        self.rights_over(machine, row.space)
            .covers(row.frame, row.flags)
    }
}

// Adds the loaded rows of a group that won't be fit, or will depend on a row that isn't loaded. Where the kernel loses no right
// on the group it looks at no row but the signal rows of its frames, and message rows that leave.
fn add_unfit(
    machine: &CachedMachine,
    grant: &Grant,
    idents: &mut Vec<Ident>,
) -> Result<(), NoMemory>
    requires { grant.now.group < 16 }
    ensures { OnOk result (AddsThose (IsRowInGroup machine.now grant.now 128) idents.old.items idents.new.items) }
{
    let shrinks = grant.takes_away(machine);
    for number in 0..GROUP_FRAMES {
        let frame = Frame(grant.group * GROUP_FRAMES + number);
        add_going(machine, grant, frame, shrinks, idents)?;
    }
    Ok(())
}

// The same of a frame, where it is known whether the kernel loses a right on the group. If it doesn't, each loaded row stays
// fit, so that only message rows can go, once a signal row of the frame is fit that isn't loaded.
fn add_going(
    machine: &CachedMachine,
    grant: &Grant,
    frame: Frame,
    shrinks: bool,
    idents: &mut Vec<Ident>,
) -> Result<(), NoMemory>
    requires group { grant.now.group < 16 }
    requires shrinks { shrinks ≡ takes_away (state_of machine.now) grant.now }
    ensures { OnOk result (AddsThose (IsRowGoing machine.now grant.now frame) idents.old.items idents.new.items) }
{
    known(machine);
    let lacks = lacks_rows(machine, grant, frame);
    if shrinks {
        return add_unfit_of(machine, grant, frame, lacks, idents);
    }
    if lacks {
        add_messages(machine, frame, idents)?;
        return Ok(());
    }
    Ok(())
}

// The rows of a frame that go, where it is known whether a signal row that will be fit isn't loaded.
fn add_unfit_of(
    machine: &CachedMachine,
    grant: &Grant,
    frame: Frame,
    lacks: bool,
    idents: &mut Vec<Ident>,
) -> Result<(), NoMemory>
    requires { grant.now.group < 16 }
    ensures { OnOk result (AddsThose (IsRowAs machine.now.held.contents frame (goes_so (after_grant (state_of machine.now) grant.now) lacks)) idents.old.items idents.new.items) }
{
    known(machine);
    let tables = machine.tables();
    add_unfit_among(machine, grant, lacks, tables.message_rows(frame), idents)?;
    add_unfit_among(machine, grant, lacks, tables.other_rows(frame), idents)?;
    Ok(())
}

// The same of some of the loaded rows.
fn add_unfit_among(
    machine: &CachedMachine,
    grant: &Grant,
    lacks: bool,
    rows: Run<'_, RowsOf, Ident>,
    idents: &mut Vec<Ident>,
) -> Result<(), NoMemory>
    requires { grant.now.group < 16 }
    ensures { OnOk result (AddsThose (IsOf (λ ident. passes (goes_so (after_grant (state_of machine.now) grant.now) lacks) (item_as machine.now.held.contents ident)) rows.entry) idents.old.items idents.new.items) }
{
    for ident in rows {
        if goes(machine, grant, lacks, ident) {
            idents.push(ident)?;
        }
    }
    Ok(())
}

// Whether what is loaded with an identifier is a row that goes: it won't be fit, or it is a message row and lacks another.
fn goes(machine: &CachedMachine, grant: &Grant, lacks: bool, ident: Ident) -> bool
    requires { grant.now.group < 16 }
    ensures { result ≡ passes (goes_so (after_grant (state_of machine.now) grant.now) lacks) (item_as machine.now.held.contents ident) }
{
    known(machine);
    match machine.tables().get(ident) {
        Some(ItemRef::Mapping(row)) => (lacks && row.flags.m) || !grant.is_fit(machine, row),
        _ => false,
    }
}

// Whether a signal row of a frame will be fit and isn't loaded.
fn lacks_rows(machine: &CachedMachine, grant: &Grant, frame: Frame) -> bool
    requires { grant.now.group < 16 }
    ensures { result ≡ lacks_rows_def (after_grant (state_of machine.now) grant.now) (residents_of machine.now.held.contents) frame }
{
    known(machine);
    let rows = machine.signal_rows(frame);
    for row in rows.as_slice() {
        if grant.is_fit(machine, row) && is_absent(machine, row) {
            return true;
        }
    }
    false
}

// Whether a row isn't loaded.
fn is_absent(machine: &CachedMachine, row: &Row) -> bool
    ensures { result ≡ is_absent_def (residents_of machine.now.held.contents) row.now }
{
    known(machine);
    machine
        .tables()
        .resident(Name::Mapping(row.space, row.vpn))
        .is_none()
}
