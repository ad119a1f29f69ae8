//! Reaching a thread: its kernel, its space and the thread itself are loaded, and their identifiers noted.

ghost use Rattle.std.specs.Prelude.{◌≡◌, ◌≢◌, ◌⊎◌, ℕ, None, Some, Ok, Err, IfErr, IfOk, IsSome, OnErr, OnOk, slice_get};
ghost use Rattle.cache_ident.specs.declared.idents.Ident.{Ident};
ghost use Rattle.cache_ident.specs.declared.names.KernelNo.{KernelNo};
ghost use Rattle.cache_ident.specs.declared.names.Name.{Name};
ghost use Rattle.cache_ident.specs.declared.names.SpaceNo.{SpaceNo};
ghost use Rattle.cache_ident.specs.declared.names.ThreadNo.{ThreadNo};
ghost use Rattle.page_laws.specs.board_ops.specs.declared.refusals.Refused.TheVariants.{NoMemory};
ghost use Rattle.page_laws.specs.cached_machine.specs.Cached.{state_of};
ghost use Rattle.page_laws.specs.board_core.specs.Core.{Recorded};
ghost use Rattle.owner_ports.specs.Boards.{OnTold};
ghost use Rattle.owners.specs.Known.{ident_of, space_of, IsNoted};
ghost use Rattle.owners.specs.Owning.{IsThreadOf};
ghost use Rattle.page_laws.specs.reach_laws.specs.Reaching.{kernel_ident, loaded_as, IsOwned};
ghost use Rattle.page_laws.specs.reach_laws.specs.Searching.{space_told};
ghost use Rattle.app_kernel.specs.Answers.{HasRisenBy, IsReason};
ghost use Rattle.app_kernel.specs.Pages.{AreGentle};
ghost use Rattle.app_kernel.specs.Walks.{trusted_ident, AreWalked, BothReach, Finds, IsHad, IsKernelGot, KernelReaches, SpaceReaches, SpaceTries, ThreadPasses, ThreadReaches};

use cache_ident::{Ident, KernelNo, Kind, Name, NoMemory, SpaceNo, ThreadNo};
use owner_ports::{Port, Refused};
use owners::Owners;

// The identifier of the first kernel, which never leaves.
const FIRST: Ident = Ident {
    kind: Kind::Kernel,
    slot: 0,
    serial: 0,
};

/// Whether what is noted is taken as it is, or each load is asked for.
#[derive(Clone, Copy, PartialEq, Eq)]
pub enum Trust {
    Noted,
    Nothing,
}

// What is noted for a name, where that is trusted.
fn trusted(owners: &Owners, name: Name, trust: Trust) -> Option<Ident>
    ensures { result ≡ trusted_ident trust owners.now name }
{
    match trust {
        Trust::Noted => owners.noted(name),
        Trust::Nothing => None,
    }
}

// The identifier of what is loaded, which a load gave or was refused with.
pub fn loaded_as(answer: Result<Ident, Refused>) -> Result<Ident, Refused>
    ensures { result ≡ loaded_as answer }
{
    match answer {
        Ok(ident) => Ok(ident),
        Err(refused) => match refused {
            Refused::AlreadyLoaded { ident } => Ok(ident),
            _ => Err(refused),
        },
    }
}

// Notes the identifier of what is loaded.
fn take(owners: &mut Owners, name: Name, answer: Result<Ident, Refused>) -> Result<Ident, Refused>
    ensures noted { IfOk result (λ ident. IsNoted name ident owners.old owners.new) }
    ensures taken { IfOk result (λ ident. loaded_as answer ≡ Ok ident) }
    ensures same { OnErr result (owners.new ≡ owners.old) }
    ensures others { (other : Name) → other ≢ name → ident_of owners.new other ≡ ident_of owners.old other }
    ensures refused { IfErr result (λ why. (why ≡ NoMemory) ⊎ (answer ≡ Err why)) }
    ensures failed { IfErr result (λ why. (why ≡ NoMemory) ⊎ (loaded_as answer ≡ Err why)) }
{
    let ident = loaded_as(answer)?;
    owners.note(name, ident)?;
    Ok(ident)
}

/// The first kernel is never loaded again.
pub fn reach_kernel<P: Port>(
    port: &mut P,
    owners: &mut Owners,
    kernel: KernelNo,
    trust: Trust,
) -> Result<Ident, Refused>
    ensures followed { P.follows port.old port.new }
    ensures calls { HasRisenBy 0 (P.heard port.old).calls (P.heard port.new).calls }
    ensures asks { HasRisenBy 0 (P.heard port.old).asks (P.heard port.new).asks }
    ensures refused { IfErr result (IsReason 1 (P.heard port.old) (P.heard port.new)) }
    ensures threads { owners.new.threads ≡ owners.old.threads }
    ensures idents { (other : ThreadNo) → ident_of owners.new (Name.Thread other) ≡ ident_of owners.old (Name.Thread other) }
    ensures walked { AreWalked (P.board port.old) (P.board port.new) owners.old owners.new }
    ensures gentle { (space : SpaceNo) → ((its : KernelNo) → slice_get owners.old.spaces space.0 ≡ Some its → kernel ≡ its) → AreGentle space (P.board port.old) (P.board port.new) owners.old owners.new }
    ensures had { trust ≡ Trust.Noted → (ident : Ident) → kernel_ident owners.old kernel ≡ Some ident → IsHad (P.board port.old) (P.board port.new) owners.old owners.new ident result }
    ensures reached { OnTold (P.board port.old) (P.board port.new) (λ old new. IsOwned old owners.old → (n : ℕ) → slice_get (state_of old.machine).spaces n ≡ Some kernel → trust ≡ Trust.Nothing → IsKernelGot new owners.new kernel result) }
{
    if kernel.0 == 0 {
        return Ok(FIRST);
    }
    if let Some(ident) = trusted(owners, Name::Kernel(kernel), trust) {
        return Ok(ident);
    }
    let answer = port.load_kernel(FIRST, kernel);
    take(owners, Name::Kernel(kernel), answer)
}

/// Reaches the kernel of a space. A space of which nothing is known is asked for as one of the first kernel.
pub fn reach_kernel_of<P: Port>(
    port: &mut P,
    owners: &mut Owners,
    space: SpaceNo,
    trust: Trust,
) -> Result<Ident, Refused>
    ensures followed { P.follows port.old port.new }
    ensures calls { HasRisenBy 0 (P.heard port.old).calls (P.heard port.new).calls }
    ensures asks { HasRisenBy 0 (P.heard port.old).asks (P.heard port.new).asks }
    ensures refused { IfErr result (IsReason 1 (P.heard port.old) (P.heard port.new)) }
    ensures threads { owners.new.threads ≡ owners.old.threads }
    ensures idents { (other : ThreadNo) → ident_of owners.new (Name.Thread other) ≡ ident_of owners.old (Name.Thread other) }
    ensures walked { AreWalked (P.board port.old) (P.board port.new) owners.old owners.new }
    ensures gentle { AreGentle space (P.board port.old) (P.board port.new) owners.old owners.new }
    ensures had { trust ≡ Trust.Noted → (its : KernelNo) (ident : Ident) → slice_get owners.old.spaces space.0 ≡ Some its → kernel_ident owners.old its ≡ Some ident → IsHad (P.board port.old) (P.board port.new) owners.old owners.new ident result }
    ensures reached { OnTold (P.board port.old) (P.board port.new) (KernelReaches owners.old owners.new space trust result) }
{
    let kernel = owners.kernel_of(space).unwrap_or(KernelNo(0));
    reach_kernel(port, owners, kernel, trust)
}

/// Reaches a space, and its kernel before.
pub fn reach_space<P: Port>(
    port: &mut P,
    owners: &mut Owners,
    space: SpaceNo,
    trust: Trust,
) -> Result<Ident, Refused>
    ensures followed { P.follows port.old port.new }
    ensures calls { HasRisenBy 0 (P.heard port.old).calls (P.heard port.new).calls }
    ensures asks { HasRisenBy 0 (P.heard port.old).asks (P.heard port.new).asks }
    ensures refused { IfErr result (IsReason 1 (P.heard port.old) (P.heard port.new)) }
    ensures threads { owners.new.threads ≡ owners.old.threads }
    ensures noted { IfOk result (λ ident. ident_of owners.new (Name.Space space) ≡ Some ident) }
    ensures walked { AreWalked (P.board port.old) (P.board port.new) owners.old owners.new }
    ensures gentle { AreGentle space (P.board port.old) (P.board port.new) owners.old owners.new }
    ensures had { trust ≡ Trust.Noted → (its : KernelNo) (caller ident : Ident) → slice_get owners.old.spaces space.0 ≡ Some its → kernel_ident owners.old its ≡ Some caller → ident_of owners.old (Name.Space space) ≡ Some ident
        → IsHad (P.board port.old) (P.board port.new) owners.old owners.new ident result }
    ensures reached { OnTold (P.board port.old) (P.board port.new) (SpaceReaches owners.old owners.new space trust result) }
{
    let kernel = reach_kernel_of(port, owners, space, trust)?;
    if let Some(ident) = trusted(owners, Name::Space(space), trust) {
        return Ok(ident);
    }
    let answer = port.load_space(kernel, space);
    take(owners, Name::Space(space), answer)
}

/// Reaches a thread of a space that is reached.
pub fn reach_thread_in<P: Port>(
    port: &mut P,
    owners: &mut Owners,
    space: SpaceNo,
    thread: ThreadNo,
    trust: Trust,
) -> Result<Ident, Refused>
    ensures followed { P.follows port.old port.new }
    ensures calls { HasRisenBy 0 (P.heard port.old).calls (P.heard port.new).calls }
    ensures asks { HasRisenBy 0 (P.heard port.old).asks (P.heard port.new).asks }
    ensures refused { IfErr result (IsReason 1 (P.heard port.old) (P.heard port.new)) }
    ensures threads { owners.new.threads ≡ owners.old.threads }
    ensures noted { IfOk result (λ ident. ident_of owners.new (Name.Thread thread) ≡ Some ident) }
    ensures walked { AreWalked (P.board port.old) (P.board port.new) owners.old owners.new }
    ensures gentle { AreGentle space (P.board port.old) (P.board port.new) owners.old owners.new }
    ensures had { trust ≡ Trust.Noted → (ident : Ident) → ident_of owners.old (Name.Thread thread) ≡ Some ident → IsHad (P.board port.old) (P.board port.new) owners.old owners.new ident result }
    ensures passed { IfOk result (λ _. OnTold (P.board port.old) (P.board port.new) (ThreadPasses owners.old space thread trust)) }
    ensures reached { OnTold (P.board port.old) (P.board port.new) (ThreadReaches owners.old owners.new space thread trust result) }
{
    if let Some(ident) = trusted(owners, Name::Thread(thread), trust) {
        return Ok(ident);
    }
    let kernel = reach_kernel_of(port, owners, space, Trust::Noted)?;
    let parent = reach_space(port, owners, space, Trust::Noted)?;
    let answer = port.load_thread(kernel, parent, thread);
    take(owners, Name::Thread(thread), answer)
}

// The space of a thread, or another one of its kernel, where a refusal tells of it.
fn space_told(owners: &Owners, refused: Refused) -> Option<SpaceNo>
    ensures { result ≡ space_told owners.now refused }
{
    match refused {
        Refused::NotOwner { owner, .. } => owners.space_of_kernel(owner),
        Refused::WrongParent { declared, .. } => match declared {
            Some(Name::Space(space)) => Some(space),
            _ => None,
        },
        _ => None,
    }
}

// Learns the space of a thread that was reached by it. Where what is noted was trusted, nothing was asked for, and it is known.
fn learn_reached(
    owners: &mut Owners,
    space: SpaceNo,
    thread: ThreadNo,
    trust: Trust,
) -> Result<(), NoMemory>
    requires believed { trust ≡ Trust.Noted → space_of owners.old thread ≡ Some space }
    ensures learnt { OnOk result (space_of owners.new thread ≡ Some space) }
    ensures known { IsSome (space_of owners.old thread) → IsSome (space_of owners.new thread) }
    ensures owned { (b : Recorded) → IsOwned b owners.old → (trust ≡ Trust.Nothing → IsThreadOf (state_of b.machine) space thread) → IsOwned b owners.new }
    ensures idents { owners.new.idents ≡ owners.old.idents }
{
    match trust {
        Trust::Noted => Ok(()),
        Trust::Nothing => owners.learn_space(thread, space),
    }
}

// Reaches a thread with its space, which is known from then on. What is noted is trusted of a space that is believed to be its
// own.
fn reach_both<P: Port>(
    port: &mut P,
    owners: &mut Owners,
    space: SpaceNo,
    thread: ThreadNo,
    trust: Trust,
) -> Result<(), Refused>
    requires believed { trust ≡ Trust.Noted → space_of owners.old thread ≡ Some space }
    ensures followed { P.follows port.old port.new }
    ensures calls { HasRisenBy 0 (P.heard port.old).calls (P.heard port.new).calls }
    ensures asks { HasRisenBy 0 (P.heard port.old).asks (P.heard port.new).asks }
    ensures refused { IfErr result (IsReason 1 (P.heard port.old) (P.heard port.new)) }
    ensures learnt { OnOk result (space_of owners.new thread ≡ Some space) }
    ensures walked { AreWalked (P.board port.old) (P.board port.new) owners.old owners.new }
    ensures gentle { AreGentle space (P.board port.old) (P.board port.new) owners.old owners.new }
    ensures known { IsSome (space_of owners.old thread) → IsSome (space_of owners.new thread) }
    ensures reached { OnTold (P.board port.old) (P.board port.new) (BothReach owners.old owners.new space thread trust result) }
{
    reach_space(port, owners, space, trust)?;
    reach_thread_in(port, owners, space, thread, trust)?;
    learn_reached(owners, space, thread, trust)?;
    Ok(())
}

// The same; or tells of another space where it isn't one of this and each load was asked for. A refusal that comes of what is noted
// may come of what is stale.
fn try_space<P: Port>(
    port: &mut P,
    owners: &mut Owners,
    space: SpaceNo,
    thread: ThreadNo,
    trust: Trust,
) -> Result<Option<SpaceNo>, Refused>
    requires believed { trust ≡ Trust.Noted → space_of owners.old thread ≡ Some space }
    ensures followed { P.follows port.old port.new }
    ensures calls { HasRisenBy 0 (P.heard port.old).calls (P.heard port.new).calls }
    ensures asks { HasRisenBy 0 (P.heard port.old).asks (P.heard port.new).asks }
    ensures refused { IfErr result (IsReason 1 (P.heard port.old) (P.heard port.new)) }
    ensures learnt { IfOk result (λ told. told ≡ None → space_of owners.new thread ≡ Some space) }
    ensures walked { AreWalked (P.board port.old) (P.board port.new) owners.old owners.new }
    ensures gentle { AreGentle space (P.board port.old) (P.board port.new) owners.old owners.new }
    ensures known { IsSome (space_of owners.old thread) → IsSome (space_of owners.new thread) }
    ensures mine { IfOk result (λ told. OnTold (P.board port.old) (P.board port.new) (λ old new. IsOwned old owners.old → IsThreadOf (state_of old.machine) space thread → told ≡ None)) }
    ensures reached { OnTold (P.board port.old) (P.board port.new) (SpaceTries owners.old owners.new space thread trust result) }
{
    match reach_both(port, owners, space, thread, trust) {
        Ok(()) => Ok(None),
        Err(refused) => match trust {
            Trust::Noted => Err(refused),
            Trust::Nothing => match space_told(owners, refused) {
                Some(told) => Ok(Some(told)),
                None => Err(refused),
            },
        },
    }
}

// The space that is tried first, and whether what is noted is trusted there: that in which the thread is believed to be, or else
// any.
fn first_try(owners: &Owners, thread: ThreadNo, trust: Trust) -> (SpaceNo, Trust)
    ensures believed { result.1 ≡ Trust.Noted → space_of owners.now thread ≡ Some result.0 }
    ensures known { (space : SpaceNo) → space_of owners.now thread ≡ Some space → (result.0 ≡ space) × (result.1 ≡ trust) }
    ensures unknown { space_of owners.now thread ≡ None → (result.0 ≡ record { 0 = 0 }) × (result.1 ≡ Trust.Nothing) }
{
    match owners.space_of(thread) {
        Some(space) => (space, trust),
        None => (SpaceNo(0), Trust::Nothing),
    }
}

/// Reaches a thread with its space and its kernel, and answers the space. Where that isn't known, or is believed and isn't
/// so, refusals tell it: of a thread of another kernel they tell the kernel, and then of one of another space the space.
pub fn reach_thread<P: Port>(
    port: &mut P,
    owners: &mut Owners,
    thread: ThreadNo,
    trust: Trust,
) -> Result<SpaceNo, Refused>
    ensures followed { P.follows port.old port.new }
    ensures calls { HasRisenBy 0 (P.heard port.old).calls (P.heard port.new).calls }
    ensures asks { HasRisenBy 0 (P.heard port.old).asks (P.heard port.new).asks }
    ensures refused { IfErr result (IsReason 1 (P.heard port.old) (P.heard port.new)) }
    ensures learnt { IfOk result (λ space. space_of owners.new thread ≡ Some space) }
    ensures walked { AreWalked (P.board port.old) (P.board port.new) owners.old owners.new }
    ensures gentle { (space : SpaceNo) → space_of owners.old thread ≡ Some space → AreGentle space (P.board port.old) (P.board port.new) owners.old owners.new }
    ensures known { IsSome (space_of owners.old thread) → IsSome (space_of owners.new thread) }
    ensures reached { OnTold (P.board port.old) (P.board port.new) (Finds owners.old owners.new thread trust result) }
{
    let (first, trust) = first_try(owners, thread, trust);
    let Some(second) = try_space(port, owners, first, thread, trust)? else {
        return Ok(first);
    };
    let Some(third) = try_space(port, owners, second, thread, Trust::Nothing)? else {
        return Ok(second);
    };
    reach_both(port, owners, third, thread, Trust::Nothing)?;
    Ok(third)
}
