//! Steps of a quantum that happen.

ghost use Rattle.std.specs.Prelude.{◌≡◌, ◌≢◌, None, IfErr, IfOk, OnOk};
ghost use Rattle.std.specs.Bool.{OnTrue};
ghost use Rattle.std.specs.Result.{result_err};
ghost use Rattle.board_threads.specs.board_core.specs.Growth.{AreInMemory};
ghost use Rattle.phys_groups.specs.Memory.{page_at, HasFrame};
ghost use Rattle.board_threads.specs.page_views.specs.Views.{dated};
ghost use Rattle.board_threads.specs.board_ops.specs.declared.refusals.Refused.TheVariants.{NoMemory};
ghost use Rattle.board_threads.specs.board_core.specs.Answers.{HasCallRoom, IsRefused};
ghost use Rattle.board_threads.specs.board_core.specs.Core.{contents_of};
ghost use Rattle.board_commits.specs.Commits.{IsCommitted, MayBeCommitted};
ghost use Rattle.board_commits.specs.Refusals.{changed, is_changed as is_changed_def, is_gone as is_gone_def, is_in_place as is_in_place_def, moved_from, not_loaded, refusal_of_commit};
ghost use Rattle.board_commits.specs.Tickets.{AreAsOf, AreOfTicket, IsAsOf};

use crate::pages::thread_of;
use board_threads::{Core, PageView, Quantum, Refused, Tables, Ticket, check_steps};
use cache_ident::ThreadNo;
use flat_rules::Records;
use thread_cache::ThreadRec;

/// Makes the steps of a quantum happen, as steps of the ticket's thread on the machine as it is now, and gives the thread back. It
/// answers how many they are. Each view was copied for this ticket by `page`, whatever happened since.
///
/// It is refused where the ticket's identifier isn't live any more (`Unknown`, `Stale`); where the thread isn't on the ticket's
/// processor, or hasn't the context that the quantum began with (`Moved`); where the row of a view isn't loaded any more
/// (`NotLoaded`, of the first such view); where a frame whose view was touched has other bytes than were copied (`Changed`, of the
/// first such view); and where fewer steps are left (`Over`). It takes a constant time for each view, a comparison for each page
/// that was touched and whose frame may have changed since, and a copy of the part of each that was stored to.
pub fn commit(core: &mut Core, ticket: &Ticket, quantum: &Quantum) -> Result<u32, Refused>
    requires views { AreOfTicket core.old.journal.entries ticket.now.thread quantum.now }
    ensures refused { IfErr result (IsRefused (refusal_of_commit core.old ticket.now quantum.now) core.old core.new) }
    ensures done { OnOk result (refusal_of_commit core.old ticket.now quantum.now ≡ None) }
    ensures steps { IfOk result (λ steps. steps ≡ quantum.now.steps) }
    ensures committed { OnOk result (IsCommitted ticket.now quantum.now core.old core.new) }
    ensures enough { HasCallRoom core.old → IfErr result (λ why. why ≢ NoMemory) }
{
    let checked = check_commit(core, ticket, quantum);
    core.make_entries(1)?;
    let no = checked?;
    core.run(ticket.cpu, no, Some(ticket.thread), quantum);
    Ok(quantum.steps())
}

// The number of the ticket's thread, where the steps may happen.
fn check_commit(core: &Core, ticket: &Ticket, quantum: &Quantum) -> Result<ThreadNo, Refused>
    requires views { AreOfTicket core.now.journal.entries ticket.now.thread quantum.now }
    ensures exact { result_err result ≡ refusal_of_commit core.now ticket.now quantum.now }
    ensures may { IfOk result (MayBeCommitted core.now ticket.now quantum.now) }
{
    let thread = thread_of(core, ticket)?;
    check_place(thread, ticket, quantum)?;
    check_rows(core.tables(), quantum.views())?;
    check_contents(core, quantum.views())?;
    check_steps(core, u64::from(quantum.steps()))?;
    Ok(thread.no)
}

// Refuses a loaded thread that isn't on the ticket's processor, or hasn't the context that the quantum began with (`Moved`).
fn check_place(thread: &ThreadRec, ticket: &Ticket, quantum: &Quantum) -> Result<(), Refused>
    ensures { result_err result ≡ moved_from thread.now.on_cpu ticket.now.cpu quantum.now.first thread.now.context }
{
    if is_in_place(thread, ticket, quantum) {
        return Ok(());
    }
    Err(Refused::Moved { cpu: thread.on_cpu })
}

fn is_in_place(thread: &ThreadRec, ticket: &Ticket, quantum: &Quantum) -> bool
    ensures { result ≡ is_in_place_def thread.now.on_cpu ticket.now.cpu quantum.now.first thread.now.context }
{
    thread.on_cpu == Some(ticket.cpu) && thread.context == *quantum.first()
}

// Refuses a view whose row isn't loaded any more, or was loaded anew (`NotLoaded`).
fn check_rows(tables: &Tables, views: &[PageView]) -> Result<(), Refused>
    ensures { result_err result ≡ not_loaded tables.now.contents views.now }
{
    for view in views {
        if is_gone(tables, view) {
            return Err(Refused::NotLoaded { vpn: view.vpn() });
        }
    }
    Ok(())
}

fn is_gone(tables: &Tables, view: &PageView) -> bool
    ensures { result ≡ is_gone_def tables.now.contents view.now }
{
    tables.are_sound();
    tables.get(view.row()).is_none()
}

// Refuses a touched view whose frame isn't any more what was copied of it (`Changed`).
fn check_contents(core: &Core, views: &[PageView]) -> Result<(), Refused>
    requires frames { AreInMemory core.now.machine.memory views.now }
    requires kept { AreAsOf core.now.journal.entries views.now }
    ensures { result_err result ≡ changed core.now.machine.memory views.now }
{
    for view in views {
        if is_changed(core, view) {
            return Err(Refused::Changed {
                frame: view.frame(),
            });
        }
    }
    Ok(())
}

fn is_changed(core: &Core, view: &PageView) -> bool
    requires frame { HasFrame core.now.machine.memory view.now.frame }
    requires kept { IsAsOf core.now.journal.entries (dated view.now) }
    ensures { result ≡ is_changed_def core.now.machine.memory view.now }
{
    if !view.touched() {
        return false;
    }
    if stays_since(core, view) {
        return false;
    }
    !core.machine().memory().equals(view.frame(), view.first())
}

// Whether no entry changed the frame of a view since the place as of which it had the bytes that were copied. Where the bytes
// carry no place it isn't known.
fn stays_since(core: &Core, view: &PageView) -> bool
    requires frame { HasFrame core.now.machine.memory view.now.frame }
    requires kept { IsAsOf core.now.journal.entries (dated view.now) }
    ensures { OnTrue result (view.now.first ≡ page_at core.now.machine.memory view.now.frame) }
{
    match view.taken() {
        Some(place) => core.stamp(view.frame()) <= place,
        None => false,
    }
}
