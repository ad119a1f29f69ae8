//! The turn of a processor.

ghost use Rattle.std.specs.Prelude.{◌≡◌, ◌≢◌, ◌<◌, true, IfOk, IfSome, OnOk};
ghost use Rattle.flat_state.specs.fault_forward.specs.declared.effects.Notice.TheVariants as notices;
ghost use Rattle.app_kernel.specs.left_laws.specs.Left.{left};
ghost use Rattle.cache_board.specs.board_commits.specs.Tickets.{AreAllAsOf};
ghost use Rattle.cache_board.specs.board_ops.specs.declared.refusals.Refused.TheVariants as why;
ghost use Rattle.cache_board.specs.cached_machine.specs.Cached.{state_of};
ghost use Rattle.app_kernel.specs.Serving.{IsInCall};
ghost use Rattle.app_kernel.specs.owner_ports.specs.Boards.{OnTold};
ghost use Rattle.app_kernel.specs.owners.specs.Known.{Known};
ghost use Rattle.app_kernel.specs.reach_laws.specs.Reaching.{IsOwned};
ghost use Rattle.board_turns.specs.declared.found.Found.TheVariants as found_so;
ghost use Rattle.board_turns.specs.Holds.{found_if, IsReadyFor};
ghost use Rattle.board_turns.specs.Paces.{beat_of, must_bring, Beat};
ghost use Rattle.board_turns.specs.Turning.{turns_left, IsAtRest, IsAtRestBut, IsLeftBy, IsNext, IsOnQuantum, IsToStep};

use crate::found::Found;
use crate::pace::Pace;
use crate::processor::Processor;
use crate::quanta::{Ask, run_quantum};
use app_kernel::{Notice, Owners, Refused, Served, serve};
use cache_board::{Quantum, Ticket};
use cache_ident::{NoMemory, ThreadNo};
use rv32_exec::Access;
use std::alloc::AllocError;

// Whatever came of it, unless owners want memory.
fn unless_wanting(served: Served) -> Result<(), NoMemory>
    ensures { OnOk result (served ≢ Served.Again why.NoMemory) }
{
    match served {
        Served::Again(Refused::NoMemory) => Err(AllocError),
        _ => Ok(()),
    }
}

// Whatever came of it, unless the board wants memory.
fn unless_refused_memory(healed: Result<(), Refused>) -> Result<(), NoMemory>
    ensures { OnOk result (healed ≢ Err why.NoMemory) }
{
    match healed {
        Err(Refused::NoMemory) => Err(AllocError),
        _ => Ok(()),
    }
}

// Asks a thread's owners for what its notice says. A call that can be completed is, or memory is wanted.
fn ask_owners<P: Processor>(
    port: &mut P,
    owners: &mut Owners,
    thread: ThreadNo,
    notice: Notice,
) -> Result<(), NoMemory>
    ensures owned { OnTold (P.board port.old) (P.board port.new) (λ old new. IsOwned old owners.old → IsOwned new owners.new) }
    ensures rests { OnTold (P.board port.old) (P.board port.new) (λ old new. IsAtRest old owners.old → IsAtRest new owners.new) }
    ensures completed { OnTold (P.board port.old) (P.board port.new) (λ old new. IsOwned old owners.old → notice ≡ notices.Trap → IsInCall (state_of old.machine) thread → OnOk result (left new < left old)) }
    ensures continued { P.continues port.old port.new }
{
    let served = serve(port, owners, thread, notice);
    unless_wanting(served)
}

// Heals a thread's next step, once the ticket's thread was given back, where there is a ticket. One that can be healed is, or memory
// is wanted.
fn heal<P: Processor>(
    port: &mut P,
    ticket: Option<Ticket>,
    thread: ThreadNo,
) -> Result<(), NoMemory>
    requires own { IfSome ticket (λ its. P.is_so port.old (found_so.Out its)) }
    ensures rests { OnTold (P.board port.old) (P.board port.new) (λ old new. (known : Known) → IsAtRestBut ticket old known → IsAtRest new known) }
    ensures healed { OnTold (P.board port.old) (P.board port.new) (λ old new. (known : Known) → IsAtRestBut ticket old known → IsToStep old thread → OnOk result (left new < left old)) }
    ensures continued { P.continues port.old port.new }
{
    let healed = port.leave_and_heal(ticket, thread);
    unless_refused_memory(healed)
}

// What a thread that isn't loaded, or is in a call, waits for.
fn notice_of(trapped: bool, pc: u32) -> Notice {
    if trapped {
        Notice::Trap
    } else {
        Notice::Fault {
            va: pc,
            access: Access::Fetch,
        }
    }
}

// Does what a thread asks for behind its steps.
fn grant<P: Processor>(
    port: &mut P,
    owners: &mut Owners,
    thread: ThreadNo,
    ask: Ask,
) -> Result<(), NoMemory>
    ensures owned { OnTold (P.board port.old) (P.board port.new) (λ old new. IsOwned old owners.old → IsOwned new owners.new) }
    ensures rests { OnTold (P.board port.old) (P.board port.new) (λ old new. IsAtRest old owners.old → IsAtRest new owners.new) }
    ensures continued { P.continues port.old port.new }
{
    match ask {
        Ask::Nothing => Ok(()),
        Ask::Owners(notice) => ask_owners(port, owners, thread, notice),
        Ask::Healing => heal(port, None, thread),
    }
}

// Runs a thread that came to the processor, and does what it asks for then. Answers whether the next one was looked for in the same hold:
// whom that look found is written to `next`.
fn run_thread<P: Processor>(
    port: &mut P,
    owners: &mut Owners,
    quantum: &mut Quantum,
    pace: Pace,
    length: u32,
    ticket: &Ticket,
    next: &mut Found,
) -> Result<bool, NoMemory>
    requires own { P.is_so port.old (found_so.Out ticket.now) }
    requires ready { IsReadyFor (P.seen port.old) quantum.old (found_so.Out ticket.now) }
    ensures kept { AreAllAsOf (P.seen port.new) quantum.new }
    ensures so { IfOk result (λ looked. IfSome (found_if looked next.new) (P.is_so port.new)) }
    ensures ready { IfOk result (λ looked. IfSome (found_if looked next.new) (IsReadyFor (P.seen port.new) quantum.new)) }
    ensures owned { OnTold (P.board port.old) (P.board port.new) (λ old new. IsOwned old owners.old → IsOwned new owners.new) }
    ensures told { OnTold (P.board port.old) (P.board port.new) (λ old new. IsOnQuantum old owners.old ticket.now → IfOk result (λ looked. IsLeftBy old new owners.new (beat_of pace) (found_if looked next.new))) }
    ensures continued { P.continues port.old port.new }
{
    let ran = run_quantum(port, ticket, quantum, pace, length, next)?;
    if ran.looked {
        Ok(true)
    } else {
        grant(port, owners, ticket.no, ran.ask)?;
        Ok(false)
    }
}

// What a turn does for whom it found. Answers whether the next one was looked for: whom that look found is written in place of the other.
fn act<P: Processor>(
    port: &mut P,
    owners: &mut Owners,
    quantum: &mut Quantum,
    pace: Pace,
    length: u32,
    found: &mut Found,
) -> Result<bool, NoMemory>
    requires so { P.is_so port.old found.old }
    requires ready { IsReadyFor (P.seen port.old) quantum.old found.old }
    requires kept { AreAllAsOf (P.seen port.old) quantum.old }
    ensures kept { AreAllAsOf (P.seen port.new) quantum.new }
    ensures so { IfOk result (λ looked. IfSome (found_if looked found.new) (P.is_so port.new)) }
    ensures ready { IfOk result (λ looked. IfSome (found_if looked found.new) (IsReadyFor (P.seen port.new) quantum.new)) }
    ensures owned { OnTold (P.board port.old) (P.board port.new) (λ old new. IsOwned old owners.old → IsOwned new owners.new) }
    ensures told { OnTold (P.board port.old) (P.board port.new) (λ old new. IsNext old owners.old (beat_of pace) found.old → IfOk result (λ looked. IsLeftBy old new owners.new (beat_of pace) (found_if looked found.new))) }
    ensures continued { P.continues port.old port.new }
{
    match *found {
        // The ticket is copied, since its place is written to while it is used.
        Found::Out(ticket) => run_thread(port, owners, quantum, pace, length, &ticket, found),
        Found::Wanted { no, trapped, pc } => {
            ask_owners(port, owners, no, notice_of(trapped, pc))?;
            Ok(false)
        }
        Found::Nothing => Ok(false),
        Found::Over => Ok(false),
    }
}

// What a turn does that has to bring something: a call is completed, and else a step is healed.
fn bring<P: Processor>(port: &mut P, owners: &mut Owners, found: Found) -> Result<(), NoMemory>
    requires so { P.is_so port.old found }
    ensures owned { OnTold (P.board port.old) (P.board port.new) (λ old new. IsOwned old owners.old → IsOwned new owners.new) }
    ensures told { OnTold (P.board port.old) (P.board port.new) (λ old new. (beat : Beat) → must_bring beat ≡ true → IsNext old owners.old beat found → OnOk result (IsAtRest new owners.new × (found ≢ found_so.Over → left new < left old))) }
    ensures continued { P.continues port.old port.new }
{
    match found {
        Found::Out(ticket) => heal(port, Some(ticket), ticket.no),
        Found::Wanted { no, trapped, .. } => {
            if trapped {
                ask_owners(port, owners, no, Notice::Trap)
            } else {
                heal(port, None, no)
            }
        }
        Found::Nothing => Ok(()),
        Found::Over => Ok(()),
    }
}

// What a turn does, before whom it is for next is looked for, if nobody was by then. Answers whether somebody was: whom that look found
// is written in place of the other.
fn take<P: Processor>(
    port: &mut P,
    owners: &mut Owners,
    quantum: &mut Quantum,
    pace: Pace,
    length: u32,
    found: &mut Found,
) -> Result<bool, NoMemory>
    requires so { P.is_so port.old found.old }
    requires ready { IsReadyFor (P.seen port.old) quantum.old found.old }
    requires kept { AreAllAsOf (P.seen port.old) quantum.old }
    ensures kept { AreAllAsOf (P.seen port.new) quantum.new }
    ensures so { IfOk result (λ looked. IfSome (found_if looked found.new) (P.is_so port.new)) }
    ensures ready { IfOk result (λ looked. IfSome (found_if looked found.new) (IsReadyFor (P.seen port.new) quantum.new)) }
    ensures owned { OnTold (P.board port.old) (P.board port.new) (λ old new. IsOwned old owners.old → IsOwned new owners.new) }
    ensures told { OnTold (P.board port.old) (P.board port.new) (λ old new. IsNext old owners.old (beat_of pace) found.old → IfOk result (λ looked. IsLeftBy old new owners.new (beat_of pace) (found_if looked found.new) × (must_bring (beat_of pace) ≡ true → found.old ≢ found_so.Over → left new < left old))) }
    ensures continued { P.continues port.old port.new }
{
    if pace.must_bring() {
        bring(port, owners, *found)?;
        Ok(false)
    } else {
        act(port, owners, quantum, pace, length, found)
    }
}

/// Takes a turn for whom the last look found, in quanta of at most so many steps. Then `found` is whom the next turn is for; where memory
/// is wanted, nothing is said of it.
///
/// A thread that came to the processor runs a quantum, and its steps are committed. Its owners are asked for its call, and for a page
/// that it misses, unless only no view was free for it; a step that signals is healed. For a thread that waits its owners are
/// asked. The turn after three that brought neither a step nor a completion heals a step, or has a call completed.
pub fn turn<P: Processor>(
    port: &mut P,
    owners: &mut Owners,
    quantum: &mut Quantum,
    pace: &mut Pace,
    length: u32,
    found: &mut Found,
) -> Result<(), NoMemory>
    // What the last look found, and what the quantum keeps, is this processor's; and for a thread that came to it the quantum was begun.
    requires so { P.is_so port.old found.old }
    requires ready { IsReadyFor (P.seen port.old) quantum.old found.old }
    requires kept { AreAllAsOf (P.seen port.old) quantum.old }
    ensures so { OnOk result (P.is_so port.new found.new) }
    ensures ready { OnOk result (IsReadyFor (P.seen port.new) quantum.new found.new) }
    ensures kept { AreAllAsOf (P.seen port.new) quantum.new }

    // Where the board is told, and its owners are: the next turn is one as this, and is nearer to the end.
    ensures owned { OnTold (P.board port.old) (P.board port.new) (λ old new. IsOwned old owners.old → IsOwned new owners.new) }
    ensures next { OnTold (P.board port.old) (P.board port.new) (λ old new. IsNext old owners.old (beat_of pace.old) found.old → OnOk result (IsNext new owners.new (beat_of pace.new) found.new)) }
    ensures closer { OnTold (P.board port.old) (P.board port.new) (λ old new. IsNext old owners.old (beat_of pace.old) found.old → found.old ≢ found_so.Over → OnOk result (turns_left new (beat_of pace.new) < turns_left old (beat_of pace.old))) }

    // It comes of the processor, also where memory is wanted.
    ensures continued { P.continues port.old port.new }
{
    let before = port.brought();
    let looked = take(port, owners, quantum, *pace, length, found)?;
    if looked {
        *pace = pace.after(true);
        Ok(())
    } else {
        *pace = pace.after(before < port.brought());
        port.look(pace.wants_first(), quantum, found);
        Ok(())
    }
}
