//! What owners do for a thread that can't go on.

ghost use Rattle.std.specs.Prelude.{◌≡◌, ℕ, true, Some, IfErr, IfOk, IsSome};
ghost use Rattle.cache_ident.specs.declared.names.SpaceNo.{SpaceNo};
ghost use Rattle.cache_ident.specs.declared.names.Vpn.{Vpn};
ghost use Rattle.rv32_exec.specs.declared.statuses.Access.{Access};
ghost use Rattle.fault_forward.specs.declared.effects.Notice.{Notice};
ghost use Rattle.owner_ports.specs.Boards.{OnTold};
ghost use Rattle.owners.specs.Known.{space_of};
ghost use Rattle.owners.specs.Owning.{AreOwnersOf};
ghost use Rattle.page_laws.specs.reach_laws.specs.Filling.{IsUnfillable};
ghost use Rattle.page_laws.specs.reach_laws.specs.Reaching.{IsOwned};
ghost use Rattle.app_kernel.specs.Answers.{HasRisenBy, IsReason};
ghost use Rattle.app_kernel.specs.Causes.{page_of, IsCause, IsToldEnded};
ghost use Rattle.app_kernel.specs.Pages.{Confirms, Fills, TryConfirms, TryFills, WalkConfirms, WalkFills};
ghost use Rattle.app_kernel.specs.Serving.{Finishes, FinishesAt, Helps, IsHelped, IsServed, IsToldOf, ServeConfirms, ServeFills};
ghost use Rattle.app_kernel.specs.Walks.{AreWalked};

use crate::rows::load_message_row;
use crate::walk::{Trust, reach_kernel_of, reach_thread, reach_thread_in};
use cache_ident::{SpaceNo, ThreadNo, Vpn};
use fault_forward::Notice;
use owner_ports::{Port, Refused};
use owners::Owners;
use phys_groups::PAGE_BYTES;
use rv32_exec::Status;

/// What came of a notice.
#[derive(Clone, Copy, PartialEq, Eq, Debug)]
pub enum Served {
    /// Its call is completed, its row loaded, or its next step wouldn't fault any more.
    Resumed,
    /// The thread has ended.
    Ended,
    /// It couldn't be helped now: memory is wanted, or three tries were refused, the last for this reason.
    Again(Refused),
}

// Asks for the thread's status.
fn has_ended<P: Port>(port: &mut P, thread: ThreadNo) -> bool
    ensures followed { P.follows port.old port.new }
    ensures asked { HasRisenBy 1 (P.heard port.old).asks (P.heard port.new).asks }
    ensures calls { (P.heard port.new).calls ≡ (P.heard port.old).calls }
    ensures said { (P.heard port.new).said ≡ (P.heard port.old).said }
    ensures ended { result ≡ true → IsToldEnded thread (P.heard port.new) }
    ensures told { OnTold (P.board port.old) (P.board port.new) (λ old new. IsToldOf thread old new result) }
{
    matches!(port.status(thread), Some(Status::Ended(_)))
}

// Completes the call of a thread that is reached.
fn complete<P: Port>(
    port: &mut P,
    owners: &mut Owners,
    space: SpaceNo,
    thread: ThreadNo,
) -> Result<Served, Refused>
    ensures followed { P.follows port.old port.new }
    ensures calls { HasRisenBy 0 (P.heard port.old).calls (P.heard port.new).calls }
    ensures asks { HasRisenBy 0 (P.heard port.old).asks (P.heard port.new).asks }
    ensures refused { IfErr result (IsReason 1 (P.heard port.old) (P.heard port.new)) }
    ensures threads { owners.new.threads ≡ owners.old.threads }
    ensures cause { (notice : Notice) → IfOk result (IsCause owners.new thread notice (P.heard port.old) (P.heard port.new)) }
    ensures walked { IfErr result (λ _. AreWalked (P.board port.old) (P.board port.new) owners.old owners.new) }
    ensures helped { IfOk result (λ served. OnTold (P.board port.old) (P.board port.new) (λ old new. IsOwned old owners.old → IsHelped thread Notice.Trap old new owners.new served)) }
    ensures finished { IfErr result (λ why. OnTold (P.board port.old) (P.board port.new) (FinishesAt owners.old space thread why)) }
{
    let kernel = reach_kernel_of(port, owners, space, Trust::Noted)?;
    let ident = reach_thread_in(port, owners, space, thread, Trust::Noted)?;
    port.complete(kernel, ident)?;
    if has_ended(port, thread) {
        Ok(Served::Ended)
    } else {
        Ok(Served::Resumed)
    }
}

// Has the fault confirmed of a thread of a space that is reached. The load of a receiver may have displaced the thread.
fn confirm<P: Port>(
    port: &mut P,
    owners: &mut Owners,
    space: SpaceNo,
    thread: ThreadNo,
    trust: Trust,
) -> Result<Served, Refused>
    ensures followed { P.follows port.old port.new }
    ensures calls { HasRisenBy 0 (P.heard port.old).calls (P.heard port.new).calls }
    ensures asks { HasRisenBy 0 (P.heard port.old).asks (P.heard port.new).asks }
    ensures refused { IfErr result (IsReason 1 (P.heard port.old) (P.heard port.new)) }
    ensures threads { owners.new.threads ≡ owners.old.threads }
    ensures cause { (notice : Notice) → IfOk result (IsCause owners.new thread notice (P.heard port.old) (P.heard port.new)) }
    ensures walked { IfErr result (λ _. AreWalked (P.board port.old) (P.board port.new) owners.old owners.new) }
    ensures helped { (va : ℕ) (access : Access) → IfOk result (λ served. OnTold (P.board port.old) (P.board port.new) (Helps thread (Notice.Fault va access) owners.old owners.new served)) }
    ensures confirms { OnTold (P.board port.old) (P.board port.new) (Confirms space thread trust owners.old owners.new result) }
{
    let ident = reach_thread_in(port, owners, space, thread, trust)?;
    let kernel = reach_kernel_of(port, owners, space, Trust::Noted)?;
    match port.confirm_fault(kernel, ident) {
        Ok(()) => Ok(Served::Ended),
        Err(Refused::Mapped { .. }) => Ok(Served::Resumed),
        Err(refused) => Err(refused),
    }
}

// Loads the row of a page for a thread that is reached. Where there is none to load, the thread may have faulted.
fn fill<P: Port>(
    port: &mut P,
    owners: &mut Owners,
    space: SpaceNo,
    thread: ThreadNo,
    vpn: Vpn,
    trust: Trust,
) -> Result<Served, Refused>
    requires believed { space_of owners.old thread ≡ Some space }
    ensures followed { P.follows port.old port.new }
    ensures calls { HasRisenBy 0 (P.heard port.old).calls (P.heard port.new).calls }
    ensures asks { HasRisenBy 0 (P.heard port.old).asks (P.heard port.new).asks }
    ensures refused { IfErr result (IsReason 1 (P.heard port.old) (P.heard port.new)) }
    ensures threads { owners.new.threads ≡ owners.old.threads }
    ensures cause { (notice : Notice) → page_of notice ≡ Some vpn → IfOk result (IsCause owners.new thread notice (P.heard port.old) (P.heard port.new)) }
    ensures walked { IfErr result (λ _. AreWalked (P.board port.old) (P.board port.new) owners.old owners.new) }
    ensures helped { (va : ℕ) (access : Access) → IfOk result (λ served. OnTold (P.board port.old) (P.board port.new) (Helps thread (Notice.Fault va access) owners.old owners.new served)) }
    ensures fills { OnTold (P.board port.old) (P.board port.new) (Fills space vpn trust owners.old result) }
    ensures confirms { OnTold (P.board port.old) (P.board port.new) (λ old new. IsUnfillable old space vpn → Confirms space thread trust owners.old owners.new result old new) }
{
    match load_message_row(port, owners, space, vpn, trust)? {
        Ok(_) => Ok(Served::Resumed),
        Err(refused) => match refused {
            Refused::AlreadyLoaded { .. } => confirm(port, owners, space, thread, trust),
            Refused::NotDeclared { .. } => confirm(port, owners, space, thread, trust),
            Refused::Rights { .. } => confirm(port, owners, space, thread, trust),
            _ => Err(refused),
        },
    }
}

// One walk from the first missing load to the row or the completion.
fn walk<P: Port>(
    port: &mut P,
    owners: &mut Owners,
    thread: ThreadNo,
    notice: Notice,
    trust: Trust,
) -> Result<Served, Refused>
    ensures followed { P.follows port.old port.new }
    ensures calls { HasRisenBy 0 (P.heard port.old).calls (P.heard port.new).calls }
    ensures asks { HasRisenBy 0 (P.heard port.old).asks (P.heard port.new).asks }
    ensures refused { IfErr result (IsReason 1 (P.heard port.old) (P.heard port.new)) }
    ensures cause { IfOk result (IsCause owners.new thread notice (P.heard port.old) (P.heard port.new)) }
    ensures walked { IfErr result (λ _. AreWalked (P.board port.old) (P.board port.new) owners.old owners.new) }
    ensures helped { IfOk result (λ served. OnTold (P.board port.old) (P.board port.new) (Helps thread notice owners.old owners.new served)) }
    ensures finished { trust ≡ Trust.Nothing → IfErr result (λ why. OnTold (P.board port.old) (P.board port.new) (Finishes thread notice owners.old why)) }
    ensures known { IsSome (space_of owners.old thread) → IsSome (space_of owners.new thread) }
    ensures fills { (space : SpaceNo) (vpn : Vpn) → page_of notice ≡ Some vpn → OnTold (P.board port.old) (P.board port.new) (WalkFills space thread vpn trust owners.old result) }
    ensures confirms { (space : SpaceNo) (vpn : Vpn) → page_of notice ≡ Some vpn → OnTold (P.board port.old) (P.board port.new) (WalkConfirms space thread vpn trust owners.old owners.new result) }
{
    let space = reach_thread(port, owners, thread, trust)?;
    match notice {
        Notice::Trap => complete(port, owners, space, thread),
        Notice::Fault { va, .. } => fill(port, owners, space, thread, Vpn(va / PAGE_BYTES), trust),
    }
}

// A walk by what is noted, and where that is refused, as what is noted may be stale, one that asks for each load. Neither makes
// more than 27 calls of the port: 9 until the space of the thread is known, 4 for its row, 6 for each of two signal rows with the
// row asked for again, and 2 for a fault.
#[tactic(auto, using(crate::proofs::CauseLaws::ok_from))]
fn attempt<P: Port>(
    port: &mut P,
    owners: &mut Owners,
    thread: ThreadNo,
    notice: Notice,
) -> Result<Served, Refused>
    ensures followed { P.follows port.old port.new }
    ensures calls { HasRisenBy 0 (P.heard port.old).calls (P.heard port.new).calls }
    ensures asks { HasRisenBy 0 (P.heard port.old).asks (P.heard port.new).asks }
    ensures refused { IfErr result (IsReason 1 (P.heard port.old) (P.heard port.new)) }
    ensures cause { IfOk result (IsCause owners.new thread notice (P.heard port.old) (P.heard port.new)) }
    ensures walked { IfErr result (λ _. AreWalked (P.board port.old) (P.board port.new) owners.old owners.new) }
    ensures helped { IfOk result (λ served. OnTold (P.board port.old) (P.board port.new) (Helps thread notice owners.old owners.new served)) }
    ensures finished { IfErr result (λ why. OnTold (P.board port.old) (P.board port.new) (Finishes thread notice owners.old why)) }
    ensures fills { (space : SpaceNo) (vpn : Vpn) → page_of notice ≡ Some vpn → OnTold (P.board port.old) (P.board port.new) (TryFills space thread vpn owners.old result) }
    ensures confirms { (space : SpaceNo) (vpn : Vpn) → page_of notice ≡ Some vpn → OnTold (P.board port.old) (P.board port.new) (TryConfirms space thread vpn owners.old result) }
{
    match walk(port, owners, thread, notice, Trust::Noted) {
        Ok(served) => Ok(served),
        Err(refused) => match refused {
            Refused::NoMemory => Err(Refused::NoMemory),
            _ => walk(port, owners, thread, notice, Trust::Nothing),
        },
    }
}

/// Does for a thread what its notice asks: completes its call, loads the row of the page, or has its fault confirmed. What this
/// depends on is loaded before, and noted. `Again` comes after three tries, or at once where memory is wanted; what was done
/// before stands.
///
/// A try makes at most 54 calls. Where all is loaded and noted `serve` makes one, or two where the row is loaded too.
#[tactic(auto, using(crate::proofs::CauseLaws::cause_from))]
pub fn serve<P: Port>(port: &mut P, owners: &mut Owners, thread: ThreadNo, notice: Notice) -> Served
    ensures followed { P.follows port.old port.new }
    ensures cause { IsCause owners.new thread notice (P.heard port.old) (P.heard port.new) result }
    ensures told { OnTold (P.board port.old) (P.board port.new) (λ old new. old.sealed ≡ true → AreOwnersOf old.journal.entries owners.old → IsServed thread notice old new owners.new result) }
    ensures filled { (space : SpaceNo) (vpn : Vpn) → page_of notice ≡ Some vpn → OnTold (P.board port.old) (P.board port.new) (ServeFills thread space vpn owners.old result) }
    ensures confirmed { (space : SpaceNo) (vpn : Vpn) → page_of notice ≡ Some vpn → OnTold (P.board port.old) (P.board port.new) (ServeConfirms thread space vpn owners.old result) }
{
    if has_ended(port, thread) {
        return Served::Ended;
    }
    let mut last = Refused::NoMemory;
    for _ in 0..3u32 {
        match attempt(port, owners, thread, notice) {
            Ok(served) => return served,
            Err(refused) => match refused {
                Refused::NoMemory => return Served::Again(Refused::NoMemory),
                _ => last = refused,
            },
        }
    }
    if has_ended(port, thread) {
        return Served::Ended;
    }
    Served::Again(last)
}
