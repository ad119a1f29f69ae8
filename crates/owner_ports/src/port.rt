//! How owners reach the board.

ghost use Rattle.std.specs.Prelude.{◌≡◌, IfSome, None, Option, Some};
ghost use Rattle.std.specs.Result.{result_err};
ghost use Rattle.cache_ident.specs.declared.names.Name.{Name};
ghost use Rattle.cache_ident.specs.declared.names.SpaceNo.{SpaceNo};
ghost use Rattle.cache_board.specs.board_calls.specs.Calls.{IsCompletion};
ghost use Rattle.cache_board.specs.board_checks.specs.Identifiers.{space_as};
ghost use Rattle.cache_board.specs.board_checks.specs.Refusals.{refusal_of_complete, refusal_of_load_kernel, refusal_of_load_mapping, refusal_of_load_space, refusal_of_load_thread, refusal_of_unload};
ghost use Rattle.cache_board.specs.board_threads.specs.Faults.{HasEnded};
ghost use Rattle.cache_board.specs.board_threads.specs.Refusals.{refusal_of_fault};
ghost use Rattle.cache_board.specs.board_core.specs.Core.{contents_of, IsSound, Recorded};
ghost use Rattle.cache_board.specs.board_loads.specs.Holds.{IsUnloadedAs};
ghost use Rattle.cache_board.specs.board_loads.specs.Loads.{IsLoadedAs};
ghost use Rattle.owner_ports.specs.declared.port.Heard.{Heard};
ghost use Rattle.owner_ports.specs.Boards.{status_in, IsCall, IsRoomyCall, OnTold};
ghost use Rattle.owner_ports.specs.Brought.{IsCalledOn};
ghost use Rattle.owner_ports.specs.Heards.{asked, called};

use cache_board::Refused;
use cache_ident::{Ident, KernelNo, SpaceNo, ThreadNo, Vpn};
use rv32_exec::Status;

/// A call that owners make. The identifier of `LoadMapping` is that of the row's space.
#[derive(Clone, Copy)]
pub enum PortCall {
    LoadKernel(KernelNo),
    LoadSpace(SpaceNo),
    LoadThread(ThreadNo),
    LoadMapping(Ident, Vpn),
    Unload(Ident),
    Complete(Ident),
    ConfirmFault(Ident),
}

/// A call, and why it was refused, if it was.
#[derive(Clone, Copy)]
pub struct Said {
    pub call: PortCall,
    pub refused: Option<Refused>,
}

/// How a thread was told to stand; not at all where there is none of that number.
#[derive(Clone, Copy)]
pub struct Told {
    pub thread: ThreadNo,
    pub status: Option<Status>,
}

/// What went through a port: how many calls were made, and the last of them; how often the port was asked for a thread's
/// status, and what it told last. A count stays at its last value.
#[derive(Clone, Copy)]
pub struct Heard {
    pub calls: u64,
    pub said: Option<Said>,
    pub asks: u64,
    pub told: Option<Told>,
}

impl Heard {
    /// Nothing went through it yet.
    pub fn nothing() -> Heard
        ensures { result ≡ record { calls = 0; said = None; asks = 0; told = None } }
    {
        Heard {
            calls: 0,
            said: None,
            asks: 0,
            told: None,
        }
    }

    /// The same with one call more, which was answered so.
    pub fn with_call<T>(self, call: PortCall, answer: &Result<T, Refused>) -> Heard
        ensures { result ≡ called self call (result_err answer.now) }
    {
        let refused = match answer {
            Ok(_) => None,
            Err(refused) => Some(*refused),
        };
        Heard {
            calls: self.calls.saturating_add(1),
            said: Some(Said { call, refused }),
            ..self
        }
    }

    /// The same with a thread's status asked for once more, and told so.
    pub fn with_told(self, thread: ThreadNo, status: Option<Status>) -> Heard
        ensures { result ≡ asked self thread status }
    {
        Heard {
            asks: self.asks.saturating_add(1),
            told: Some(Told { thread, status }),
            ..self
        }
    }
}

/// The calls of the board that owners make, as those of one processor.
///
/// A port may tell the board that is behind it. Then each call is the board's call of that name, on processor 0, with its
/// refusals and what it leaves. A port that others use too tells none. Either way it says what was called and answered, and
/// which ports may come of it.
pub trait Port {
    // The board, where the port tells it.
    ghost board: { Self → Option Recorded };

    // What went through it.
    ghost heard: { Self → Heard };

    // Which ports may come of it.
    ghost follows: { Self → Self → Type 0 };

    /// Loads a kernel. Only the first kernel may.
    fn load_kernel(&mut self, caller: Ident, kernel: KernelNo) -> Result<Ident, Refused>
        ensures call { OnTold (board self.old) (board self.new) (λ old new. IsRoomyCall (refusal_of_load_kernel (contents_of old) caller kernel) (λ ident. IsLoadedAs 0 (Name.Kernel kernel) ident old new) old new result) }
        ensures counted { heard self.new ≡ called (heard self.old) (PortCall.LoadKernel kernel) (result_err result) }
        ensures followed { follows self.old self.new };

    /// Loads a space of the caller.
    fn load_space(&mut self, caller: Ident, space: SpaceNo) -> Result<Ident, Refused>
        ensures call { OnTold (board self.old) (board self.new) (λ old new. IsRoomyCall (refusal_of_load_space (contents_of old) caller space) (λ ident. IsLoadedAs 0 (Name.Space space) ident old new) old new result) }
        ensures counted { heard self.new ≡ called (heard self.old) (PortCall.LoadSpace space) (result_err result) }
        ensures followed { follows self.old self.new };

    /// Loads a thread of the loaded space `parent`.
    fn load_thread(
        &mut self,
        caller: Ident,
        parent: Ident,
        thread: ThreadNo,
    ) -> Result<Ident, Refused>
        ensures call { OnTold (board self.old) (board self.new) (λ old new. IsRoomyCall (refusal_of_load_thread (contents_of old) caller parent thread) (λ ident. IsLoadedAs 0 (Name.Thread thread) ident old new) old new result) }
        ensures counted { heard self.new ≡ called (heard self.old) (PortCall.LoadThread thread) (result_err result) }
        ensures followed { follows self.old self.new };

    /// Loads the row of a page of the loaded space `parent`, with the loaded thread that receives its signals, if it has one.
    fn load_mapping(
        &mut self,
        caller: Ident,
        parent: Ident,
        vpn: Vpn,
        receiver: Option<Ident>,
    ) -> Result<Ident, Refused>
        ensures call { OnTold (board self.old) (board self.new) (λ old new. IsRoomyCall (refusal_of_load_mapping (contents_of old) caller parent vpn receiver)
            (λ ident. (space : SpaceNo) × (space_as (contents_of old) parent ≡ Some space) × IsLoadedAs 0 (Name.Mapping space vpn) ident old new) old new result) }
        ensures counted { heard self.new ≡ called (heard self.old) (PortCall.LoadMapping parent vpn) (result_err result) }
        ensures followed { follows self.old self.new };

    /// Unloads what is loaded with an identifier, and before it all that depends on it.
    fn unload(&mut self, caller: Ident, ident: Ident) -> Result<(), Refused>
        ensures call { OnTold (board self.old) (board self.new) (λ old new. IsRoomyCall (refusal_of_unload (contents_of old) caller ident) (λ _. IsUnloadedAs 0 ident old new) old new result) }
        ensures counted { heard self.new ≡ called (heard self.old) (PortCall.Unload ident) (result_err result) }
        ensures followed { follows self.old self.new };

    /// Completes the call that a loaded thread is in.
    fn complete(&mut self, caller: Ident, thread: Ident) -> Result<(), Refused>
        ensures call { OnTold (board self.old) (board self.new) (λ old new. IsCall (refusal_of_complete (contents_of old) caller thread) (λ _. IsCompletion 0 thread old new) old new result) }
        ensures counted { heard self.new ≡ called (heard self.old) (PortCall.Complete thread) (result_err result) }
        ensures followed { follows self.old self.new };

    /// Takes the next step of a loaded thread, which faults and ends it.
    fn confirm_fault(&mut self, caller: Ident, thread: Ident) -> Result<(), Refused>
        ensures call { OnTold (board self.old) (board self.new) (λ old new. IsRoomyCall (refusal_of_fault old caller thread) (λ _. HasEnded thread 0 old new) old new result) }
        ensures counted { heard self.new ≡ called (heard self.old) (PortCall.ConfirmFault thread) (result_err result) }
        ensures followed { follows self.old self.new };

    /// The status of a thread, loaded or not; where the port tells its board, none exactly where there is no such thread. It
    /// gives out what holds of every board, as each event does.
    fn status(&mut self, thread: ThreadNo) -> Option<Status>
        ensures call { OnTold (board self.old) (board self.new) (λ old new. (new ≡ old) × (result ≡ status_in old thread)) }
        ensures sound { IfSome (board self.old) IsSound }
        ensures counted { heard self.new ≡ asked (heard self.old) thread result }
        ensures followed { follows self.old self.new };

    // A port may come of itself, and what comes of what comes of it comes of it.
    ghost stays: { (port : Self) → follows port port };

    ghost goes_on: { (first then last : Self) → follows first then → follows then last → follows first last };

    // Where it tells its board, that goes on.
    ghost tells: { (old new : Self) → follows old new → OnTold (board old) (board new) IsCalledOn };
}
