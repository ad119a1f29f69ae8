//! A quantum of a thread that is on a processor.

ghost use Rattle.std.specs.Prelude.{◌≡◌, ◌<◌, ◌≤◌, true, IfOk, IfSome};
ghost use Rattle.cache_board.specs.board_commits.specs.Tickets.{AreAllAsOf, AreOfTicket};
ghost use Rattle.app_kernel.specs.owner_ports.specs.Boards.{OnTold};
ghost use Rattle.app_kernel.specs.owners.specs.Known.{Known};
ghost use Rattle.board_turns.specs.declared.found.Found.TheVariants as found_so;
ghost use Rattle.board_turns.specs.Holds.{found_by, found_if, AreFewer, IsReadyFor};
ghost use Rattle.board_turns.specs.Paces.{beat_of, paced, wants_first};
ghost use Rattle.board_turns.specs.Turning.{IsLeftBy, IsOnQuantum, IsTriedBy};

use crate::committed::Committed;
use crate::found::Found;
use crate::pace::Pace;
use crate::point::Point;
use crate::processor::Processor;
use app_kernel::Notice;
use cache_board::{Quantum, Ticket};
use cache_ident::{NoMemory, Vpn};
use page_views::MOST_VIEWS;
use phys_groups::PAGE_BYTES;
use quantum::Paused;

/// What a thread wants behind its steps.
#[derive(Clone, Copy)]
pub(crate) enum Ask {
    /// Nothing: it goes on in its next quantum, or has ended.
    Nothing,
    /// Its owners.
    Owners(Notice),
    /// The healing step, as its next one signals.
    Healing,
}

/// What came of a quantum: what its thread asks for, and whether the next one was looked for in the hold of its commit.
#[derive(Clone, Copy)]
pub(crate) struct Ran {
    pub ask: Ask,
    pub looked: bool,
}

// What came of steps: what their thread asks for, and whether they happened.
#[derive(Clone, Copy)]
struct Tried {
    ask: Ask,
    committed: Committed,
}

// Runs ahead, and asks for pages on the way. Each page takes a view.
fn run_ahead<P: Processor>(
    port: &mut P,
    ticket: &Ticket,
    quantum: &mut Quantum,
    limit: u32,
) -> Paused
    requires views { AreOfTicket (P.seen port.old) ticket.now.thread quantum.old }
    requires few { quantum.old.steps ≤ limit }
    ensures views { AreOfTicket (P.seen port.new) ticket.now.thread quantum.new }
    ensures few { quantum.new.steps ≤ limit }
    ensures same { P.board port.new ≡ P.board port.old }
    ensures continued { P.continues port.old port.new }
{
    let mut paused = quantum.run(limit);
    for _ in 0..MOST_VIEWS {
        let Paused::Miss { va, .. } = paused else {
            return paused;
        };
        let vpn = Vpn(va / PAGE_BYTES);
        if !quantum.can_fill(vpn) {
            return paused;
        }
        if port.page(ticket, vpn, quantum).is_err() {
            return paused;
        }
        paused = quantum.run(limit);
    }
    paused
}

// What a pause asks for. A page that only no view was free for asks for nothing.
fn ask_of<P: Processor>(port: &mut P, ticket: &Ticket, quantum: &Quantum, paused: Paused) -> Ask
    ensures same { P.board port.new ≡ P.board port.old }
    ensures continued { P.continues port.old port.new }
{
    match paused {
        Paused::Limit | Paused::Stopped(_) => Ask::Nothing,
        Paused::Call => Ask::Owners(Notice::Trap),
        Paused::Signal => Ask::Healing,
        Paused::Miss { va, access } => {
            let vpn = Vpn(va / PAGE_BYTES);
            if !quantum.can_fill(vpn) && port.allows(ticket, vpn, access) {
                Ask::Nothing
            } else {
                Ask::Owners(Notice::Fault { va, access })
            }
        }
    }
}

// In which order the next thread is looked for in the hold of a commit: where the thread asks for nothing, and there are steps.
fn look_behind(ask: Ask, steps: u32, pace: Pace) -> Option<bool>
    ensures { IfSome result (λ want_first. (0 < steps) × (want_first ≡ wants_first (paced true (beat_of pace)))) }
{
    match ask {
        Ask::Nothing if steps > 0 => Some(pace.after(true).wants_first()),
        _ => None,
    }
}

// Runs a quantum that was begun for the ticket, of at most so many steps, and commits it. Whom a look in the hold of the commit found is
// written to `next`.
fn try_steps<P: Processor>(
    port: &mut P,
    ticket: &Ticket,
    quantum: &mut Quantum,
    pace: Pace,
    most: u32,
    next: &mut Found,
) -> Result<Tried, NoMemory>
    requires own { P.is_so port.old (found_so.Out ticket.now) }
    requires ready { IsReadyFor (P.seen port.old) quantum.old (found_so.Out ticket.now) }
    ensures kept { AreAllAsOf (P.seen port.new) quantum.new }
    ensures so { IfOk result (λ tried. IfSome (found_by next.new tried.committed) (P.is_so port.new)) }
    ensures ready { IfOk result (λ tried. IfSome (found_by next.new tried.committed) (IsReadyFor (P.seen port.new) quantum.new)) }
    ensures fewer { IfOk result (λ tried. AreFewer most tried.committed) }
    ensures told { OnTold (P.board port.old) (P.board port.new) (λ old new. (known : Known) → IsOnQuantum old known ticket.now → IfOk result (λ tried. IsTriedBy old new known (beat_of pace) ticket.now next.new tried.committed)) }
    ensures continued { P.continues port.old port.new }
{
    port.at(Point::InQuantum);
    let paused = run_ahead(port, ticket, quantum, most);
    let ask = ask_of(port, ticket, quantum, paused);
    let look = look_behind(ask, quantum.steps(), pace);
    port.at(Point::BeforeCommit);
    let committed = port.commit(ticket, quantum, look, next)?;
    Ok(Tried { ask, committed })
}

/// Runs a quantum that was begun for the ticket, of at most so many steps, and commits it; and where fewer steps are left, one of as
/// many, begun anew. Nothing else that refuses it is tried again. Answers what the thread asks for, and whether the next one was looked for in the
/// same hold: whom that look found is written to `next`.
pub(crate) fn run_quantum<P: Processor>(
    port: &mut P,
    ticket: &Ticket,
    quantum: &mut Quantum,
    pace: Pace,
    length: u32,
    next: &mut Found,
) -> Result<Ran, NoMemory>
    requires own { P.is_so port.old (found_so.Out ticket.now) }
    requires ready { IsReadyFor (P.seen port.old) quantum.old (found_so.Out ticket.now) }
    ensures kept { AreAllAsOf (P.seen port.new) quantum.new }
    ensures so { IfOk result (λ ran. IfSome (found_if ran.looked next.new) (P.is_so port.new)) }
    ensures ready { IfOk result (λ ran. IfSome (found_if ran.looked next.new) (IsReadyFor (P.seen port.new) quantum.new)) }
    ensures told { OnTold (P.board port.old) (P.board port.new) (λ old new. (known : Known) → IsOnQuantum old known ticket.now → IfOk result (λ ran. IsLeftBy old new known (beat_of pace) (found_if ran.looked next.new))) }
    ensures continued { P.continues port.old port.new }
{
    let mut most = length;
    loop {
        let tried = try_steps(port, ticket, quantum, pace, most, next)?;
        match tried.committed {
            Committed::Taken { looked } => {
                return Ok(Ran {
                    ask: tried.ask,
                    looked,
                });
            }
            Committed::TooMany(left) => {
                quantum.begin(ticket.context, ticket.no);
                most = left;
            }
            Committed::Lost => {
                return Ok(Ran {
                    ask: Ask::Nothing,
                    looked: false,
                });
            }
        }
    }
}
