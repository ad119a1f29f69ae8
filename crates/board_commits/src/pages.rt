//! Pages of a quantum.

ghost use Rattle.std.specs.Prelude.{◌≡◌, Some, IfNone, IfOk, IfSome, IsTrue, OnErr, OnOk};
ghost use Rattle.std.specs.Result.{result_err};
ghost use Rattle.cache_ident.specs.declared.names.Name.{Name};
ghost use Rattle.cache_ident.specs.Residents.{IsNameResident, IsResident};
ghost use Rattle.board_threads.specs.desc_stores.specs.declared.items.Item.{Item};
ghost use Rattle.board_threads.specs.desc_stores.specs.Contents.{content_of, residents_of};
ghost use Rattle.board_threads.specs.desc_stores.specs.Sound.{IsExactlyOne};
ghost use Rattle.board_threads.specs.shown_state.specs.Shown.{flat_thread};
ghost use Rattle.phys_groups.specs.Memory.{HasFrame};
ghost use Rattle.phys_groups.specs.Translation.{row_of};
ghost use Rattle.board_threads.specs.page_views.specs.Views.{can_fill};
ghost use Rattle.board_threads.specs.board_checks.specs.Identifiers.{not_live, thread_as};
ghost use Rattle.board_threads.specs.cached_machine.specs.Cached.{state_of};
ghost use Rattle.board_threads.specs.board_core.specs.Core.{contents_of};
ghost use Rattle.board_commits.specs.Commits.{HasPage, IsLoadedRow, IsPaged};
ghost use Rattle.board_commits.specs.Refusals.{refusal_of_page};
ghost use Rattle.board_commits.specs.Tickets.{AreAllAsOf, AreOfTicket};

use board_threads::{Core, ItemRef, Quantum, Refused, Ticket, thread_as};
use cache_ident::{Frame, Ident, Name, SpaceNo, Vpn};
use flat_rules::Records;
use phys_groups::{Flags, Row};
use thread_cache::ThreadRec;

/// Copies the page of a loaded row of the ticket's thread into a quantum that has room for it, whatever the row's flags. What
/// carries a place in the quantum must be of this board's journal.
///
/// It is refused where the ticket's identifier isn't live any more (`Unknown`, `Stale`), and where no row of that page is loaded
/// (`NotLoaded`). It costs a search, unless the page was copied last through the row that it has now; and a copy of the page where the
/// quantum doesn't keep it since its frame changed last. It takes no memory.
pub fn page(core: &Core, ticket: &Ticket, vpn: Vpn, quantum: &mut Quantum) -> Result<(), Refused>
    requires room { IsTrue (can_fill quantum.old.most quantum.old.views vpn) }
    requires kept { AreAllAsOf core.now.journal.entries quantum.old }
    ensures exact { result_err result ≡ refusal_of_page (contents_of core.now) ticket.now vpn }
    ensures refused { OnErr result (quantum.new ≡ quantum.old) }
    ensures filled { OnOk result (IsPaged core.now ticket.now vpn quantum.old quantum.new) }
    ensures views { AreOfTicket core.now.journal.entries ticket.now.thread quantum.old → AreOfTicket core.now.journal.entries ticket.now.thread quantum.new }
    ensures kept { AreAllAsOf core.now.journal.entries quantum.new }
{
    core.holds();
    let space = thread_of(core, ticket)?.space;
    let Some((ident, row)) = row_near(core, space, vpn, quantum.near(vpn)) else {
        return Err(Refused::NotLoaded { vpn });
    };
    add_page(core, vpn, row.frame, row.flags, ident, quantum);
    Ok(())
}

// The row of a page that is loaded, and its identifier. Where that is `near`, it takes constant time, and else a search.
fn row_near(core: &Core, space: SpaceNo, vpn: Vpn, near: Option<Ident>) -> Option<(Ident, &Row)>
    ensures found { IfSome result (λ found. IsLoadedRow core.now space vpn found.0 found.1.now) }
    ensures absent { IfNone result (IsNameResident (residents_of (contents_of core.now)) (Name.Mapping space vpn) → ⊥) }
    ensures one { IsExactlyOne (contents_of core.now) }
{
    let tables = core.tables();
    if let Some(ident) = near {
        if let Some(row) = row_as(core, space, vpn, ident) {
            return Some((ident, row));
        }
    }
    let ident = tables.resident(Name::Mapping(space, vpn))?;
    Some((ident, row_loaded(core, space, vpn, ident)))
}

// The row that is loaded with an identifier, if it is that of the page. Constant time.
fn row_as(core: &Core, space: SpaceNo, vpn: Vpn, ident: Ident) -> Option<&Row>
    ensures { IfSome result (λ row. IsLoadedRow core.now space vpn ident row.now) }
{
    match core.tables().get(ident) {
        Some(ItemRef::Mapping(row)) if row.space == space && row.vpn == vpn => Some(row),
        _ => None,
    }
}

// The row of a page that is loaded with that identifier. Constant time.
fn row_loaded(core: &Core, space: SpaceNo, vpn: Vpn, ident: Ident) -> &Row
    requires loaded { IsResident (residents_of (contents_of core.now)) ident (Name.Mapping space vpn) }
    ensures { IsLoadedRow core.now space vpn ident result.now }
{
    let Some(item) = core.tables().get(ident) else {
        unreachable!()
    };
    let ItemRef::Mapping(row) = item else {
        unreachable!()
    };
    row
}

// Adds the view of a page to a quantum: of what it keeps, where the page's frame hasn't changed since, and else copied from memory.
fn add_page(core: &Core, vpn: Vpn, frame: Frame, flags: Flags, row: Ident, quantum: &mut Quantum)
    requires room { IsTrue (can_fill quantum.old.most quantum.old.views vpn) }
    requires kept { AreAllAsOf core.now.journal.entries quantum.old }
    requires frame { HasFrame core.now.machine.memory frame }
    ensures { HasPage core.now vpn frame flags row quantum.old quantum.new }
{
    if quantum.refill(vpn, frame, flags, row, core.stamp(frame)) {
        return;
    }
    let bytes = core.machine().memory().page(frame);
    quantum.fill_as_of(vpn, frame, flags, row, bytes, core.journal().len());
}

/// The thread that is loaded with the ticket's identifier. Refused is one that isn't live any more (`Unknown`, `Stale`).
pub(crate) fn thread_of<'a>(core: &'a Core, ticket: &Ticket) -> Result<&'a ThreadRec, Refused>
    ensures exact { result_err result ≡ not_live (contents_of core.now) ticket.now.thread }
    ensures named { IfOk result (λ found. IsResident (residents_of (contents_of core.now)) ticket.now.thread (Name.Thread found.now.no)) }
    ensures found { IfOk result (λ found. content_of (contents_of core.now) (Name.Thread found.now.no) ≡ Some (Item.Thread found.now)) }
    ensures shown { IfOk result (λ found. thread_as (contents_of core.now) ticket.now.thread ≡ Some (flat_thread found.now)) }
{
    thread_as(core.tables(), ticket.thread)
}
