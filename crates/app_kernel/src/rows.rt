//! Asking for a row, with all that it depends on.

ghost use Rattle.std.specs.Prelude.{◌≡◌, IfErr, IfOk, OnErr, OnOk};
ghost use Rattle.cache_ident.specs.declared.names.Name.{Name};
ghost use Rattle.cache_ident.specs.declared.names.SpaceNo.{SpaceNo};
ghost use Rattle.owner_ports.specs.Boards.{OnTold};
ghost use Rattle.owners.specs.Known.{ident_of, receiver_of};
ghost use Rattle.page_laws.specs.reach_laws.specs.Reaching.{loaded_as, IsOwned, IsReached};
ghost use Rattle.page_laws.specs.owner_laws.specs.Passing.{thread_named};
ghost use Rattle.app_kernel.specs.Answers.{HasRisenBy, IsAsked, IsReason};
ghost use Rattle.app_kernel.specs.Pages.{AreGentle, AskFills, AskIsVain, IsNoneMissing, IsPassedOn, IsReceiverGot, RowFills, RowIsVain};
ghost use Rattle.app_kernel.specs.Walks.{AreWalked, IsLearntSo, IsNotedSo, IsReceiverTold};

use crate::walk::{Trust, loaded_as, reach_kernel_of, reach_space, reach_thread_in};
use cache_ident::{Ident, Name, NoMemory, SpaceNo, ThreadNo, Vpn};
use owner_ports::{Port, Refused};
use owners::Owners;

// The receiver that is known of a row is reached, if one is.
fn reach_receiver<P: Port>(
    port: &mut P,
    owners: &mut Owners,
    space: SpaceNo,
    vpn: Vpn,
    trust: Trust,
) -> Result<Option<Ident>, Refused>
    ensures followed { P.follows port.old port.new }
    ensures calls { HasRisenBy 0 (P.heard port.old).calls (P.heard port.new).calls }
    ensures asks { HasRisenBy 0 (P.heard port.old).asks (P.heard port.new).asks }
    ensures refused { IfErr result (IsReason 1 (P.heard port.old) (P.heard port.new)) }
    ensures threads { owners.new.threads ≡ owners.old.threads }
    ensures gentle { AreGentle space (P.board port.old) (P.board port.new) owners.old owners.new }
    ensures given { OnTold (P.board port.old) (P.board port.new) (λ old new. IsOwned old owners.old → IsReached old owners.old space → trust ≡ Trust.Nothing → IsReceiverGot new owners.new space (receiver_of owners.old (space, vpn)) result) }
    ensures walked { AreWalked (P.board port.old) (P.board port.new) owners.old owners.new }
{
    match owners.receiver_of(space, vpn) {
        Some(receiver) => {
            let ident = reach_thread_in(port, owners, space, receiver, trust)?;
            Ok(Some(ident))
        }
        None => Ok(None),
    }
}

// Notes the identifier of a row, where its load gave or told one.
fn note_row(
    owners: &mut Owners,
    space: SpaceNo,
    vpn: Vpn,
    answer: Result<Ident, Refused>,
) -> Result<(), NoMemory>
    ensures noted { OnOk result (IsNotedSo (Name.Mapping space vpn) (loaded_as answer) owners.old owners.new) }
    ensures same { OnErr result (owners.new ≡ owners.old) }
    ensures threads { owners.new.threads ≡ owners.old.threads }
    ensures spaces { (other : SpaceNo) → ident_of owners.new (Name.Space other) ≡ ident_of owners.old (Name.Space other) }
{
    match loaded_as(answer) {
        Ok(ident) => owners.note(Name::Mapping(space, vpn), ident),
        Err(_) => Ok(()),
    }
}

// The thread of that name, if it is one.
fn thread_named(name: Option<Name>) -> Option<ThreadNo>
    ensures { result ≡ thread_named name }
{
    match name {
        Some(Name::Thread(thread)) => Some(thread),
        _ => None,
    }
}

// Learns the receiver that is told of a row, where another one was given.
fn learn_told(
    owners: &mut Owners,
    space: SpaceNo,
    vpn: Vpn,
    answer: Result<Ident, Refused>,
) -> Result<(), NoMemory>
    ensures learnt { OnOk result (IsLearntSo (space, vpn) answer owners.old owners.new) }
    ensures same { OnErr result (owners.new ≡ owners.old) }
    ensures threads { owners.new.threads ≡ owners.old.threads }
{
    match answer {
        Err(Refused::WrongParent { declared, .. }) => {
            owners.learn_receiver(space, vpn, thread_named(declared))
        }
        _ => Ok(()),
    }
}

// Asks for the row of a page in a space that is reached, and notes it where it is loaded. Refused where what the row depends on
// can't be reached; what its own load is answered is the value.
#[tactic(auto, using(crate::proofs::WalkLaws::walked_on))]
fn ask_row<P: Port>(
    port: &mut P,
    owners: &mut Owners,
    space: SpaceNo,
    vpn: Vpn,
    trust: Trust,
) -> Result<Result<Ident, Refused>, Refused>
    ensures followed { P.follows port.old port.new }
    ensures calls { HasRisenBy 0 (P.heard port.old).calls (P.heard port.new).calls }
    ensures asks { HasRisenBy 0 (P.heard port.old).asks (P.heard port.new).asks }
    ensures refused { IfErr result (IsReason 1 (P.heard port.old) (P.heard port.new)) }
    ensures threads { owners.new.threads ≡ owners.old.threads }
    ensures asked { IfOk result (λ answer. HasRisenBy 1 (P.heard port.old).calls (P.heard port.new).calls × IsAsked owners.new space vpn (P.heard port.new) answer) }
    ensures walked { AreWalked (P.board port.old) (P.board port.new) owners.old owners.new }
    ensures told { IfOk result (λ answer. OnTold (P.board port.old) (P.board port.new) (λ old new. IsOwned old owners.old → IsReceiverTold new space answer)) }
    ensures fills { OnTold (P.board port.old) (P.board port.new) (AskFills space vpn trust owners.old owners.new result) }
    ensures vain { OnTold (P.board port.old) (P.board port.new) (AskIsVain space vpn trust owners.old owners.new result) }
{
    let receiver = reach_receiver(port, owners, space, vpn, trust)?;
    let kernel = reach_kernel_of(port, owners, space, Trust::Noted)?;
    let parent = reach_space(port, owners, space, Trust::Noted)?;
    let answer = port.load_mapping(kernel, parent, vpn, receiver);
    note_row(owners, space, vpn, answer)?;
    Ok(answer)
}

// The same, and where another receiver is told than was known, once more with that one.
#[tactic(auto, using(crate::proofs::WalkLaws::walked_on))]
fn load_row<P: Port>(
    port: &mut P,
    owners: &mut Owners,
    space: SpaceNo,
    vpn: Vpn,
    trust: Trust,
) -> Result<Result<Ident, Refused>, Refused>
    ensures followed { P.follows port.old port.new }
    ensures calls { HasRisenBy 0 (P.heard port.old).calls (P.heard port.new).calls }
    ensures asks { HasRisenBy 0 (P.heard port.old).asks (P.heard port.new).asks }
    ensures refused { IfErr result (IsReason 1 (P.heard port.old) (P.heard port.new)) }
    ensures threads { owners.new.threads ≡ owners.old.threads }
    ensures asked { IfOk result (λ answer. HasRisenBy 1 (P.heard port.old).calls (P.heard port.new).calls × IsAsked owners.new space vpn (P.heard port.new) answer) }
    ensures walked { AreWalked (P.board port.old) (P.board port.new) owners.old owners.new }
    ensures fills { OnTold (P.board port.old) (P.board port.new) (RowFills space vpn trust owners.old owners.new result) }
    ensures vain { OnTold (P.board port.old) (P.board port.new) (RowIsVain space vpn trust owners.old owners.new result) }
{
    let answer = ask_row(port, owners, space, vpn, trust)?;
    match answer {
        Ok(_) => Ok(answer),
        Err(refused) => match refused {
            Refused::WrongParent { .. } => {
                learn_told(owners, space, vpn, answer)?;
                ask_row(port, owners, space, vpn, trust)
            }
            _ => Ok(answer),
        },
    }
}

// Reaches a signal row, with all that it depends on. Where another receiver is told than was known, the walk ends, and the next
// one goes by what was told.
#[tactic(auto, using(crate::proofs::WalkLaws::walked_on))]
fn reach_signal_row<P: Port>(
    port: &mut P,
    owners: &mut Owners,
    space: SpaceNo,
    vpn: Vpn,
    trust: Trust,
) -> Result<(), Refused>
    ensures followed { P.follows port.old port.new }
    ensures calls { HasRisenBy 0 (P.heard port.old).calls (P.heard port.new).calls }
    ensures asks { HasRisenBy 0 (P.heard port.old).asks (P.heard port.new).asks }
    ensures refused { IfErr result (IsReason 1 (P.heard port.old) (P.heard port.new)) }
    ensures threads { owners.new.threads ≡ owners.old.threads }
    ensures walked { AreWalked (P.board port.old) (P.board port.new) owners.old owners.new }
{
    reach_space(port, owners, space, trust)?;
    let answer = ask_row(port, owners, space, vpn, trust)?;
    learn_told(owners, space, vpn, answer)?;
    loaded_as(answer)?;
    Ok(())
}

// What the row is answered where a signal row was missing: that is reached, and the row asked for again.
#[tactic(auto, using(crate::proofs::WalkLaws::walked_on))]
fn ask_with_signal_row<P: Port>(
    port: &mut P,
    owners: &mut Owners,
    space: SpaceNo,
    vpn: Vpn,
    trust: Trust,
    answer: Result<Ident, Refused>,
) -> Result<Result<Ident, Refused>, Refused>
    requires asked { IsAsked owners.old space vpn (P.heard port.old) answer }
    ensures followed { P.follows port.old port.new }
    ensures calls { HasRisenBy 0 (P.heard port.old).calls (P.heard port.new).calls }
    ensures asks { HasRisenBy 0 (P.heard port.old).asks (P.heard port.new).asks }
    ensures refused { IfErr result (IsReason 1 (P.heard port.old) (P.heard port.new)) }
    ensures threads { owners.new.threads ≡ owners.old.threads }
    ensures asked { IfOk result (IsAsked owners.new space vpn (P.heard port.new)) }
    ensures walked { AreWalked (P.board port.old) (P.board port.new) owners.old owners.new }
    ensures passed { IsNoneMissing answer → IsPassedOn (P.board port.old) (P.board port.new) owners.old owners.new answer result }
{
    match answer {
        Err(
            Refused::ReceiversAbsent {
                space: other,
                vpn: page,
            },
        ) => {
            reach_signal_row(port, owners, other, page, trust)?;
            ask_row(port, owners, space, vpn, trust)
        }
        _ => Ok(answer),
    }
}

/// Asks for the row of a page in a space that is reached. Where signal rows are missing, up to two of them are reached first: a
/// frame has at most four, and two walks make a try.
#[tactic(auto, using(crate::proofs::WalkLaws::walked_on))]
pub fn load_message_row<P: Port>(
    port: &mut P,
    owners: &mut Owners,
    space: SpaceNo,
    vpn: Vpn,
    trust: Trust,
) -> Result<Result<Ident, Refused>, Refused>
    ensures followed { P.follows port.old port.new }
    ensures calls { HasRisenBy 0 (P.heard port.old).calls (P.heard port.new).calls }
    ensures asks { HasRisenBy 0 (P.heard port.old).asks (P.heard port.new).asks }
    ensures refused { IfErr result (IsReason 1 (P.heard port.old) (P.heard port.new)) }
    ensures threads { owners.new.threads ≡ owners.old.threads }
    ensures asked { IfOk result (λ answer. HasRisenBy 1 (P.heard port.old).calls (P.heard port.new).calls × IsAsked owners.new space vpn (P.heard port.new) answer) }
    ensures walked { AreWalked (P.board port.old) (P.board port.new) owners.old owners.new }
    ensures fills { OnTold (P.board port.old) (P.board port.new) (RowFills space vpn trust owners.old owners.new result) }
    ensures vain { OnTold (P.board port.old) (P.board port.new) (RowIsVain space vpn trust owners.old owners.new result) }
{
    let answer = load_row(port, owners, space, vpn, trust)?;
    let answer = ask_with_signal_row(port, owners, space, vpn, trust, answer)?;
    ask_with_signal_row(port, owners, space, vpn, trust, answer)
}
