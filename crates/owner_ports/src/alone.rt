//! The port of owners who have the board for themselves.

ghost use Rattle.std.specs.Prelude.{◌≡◌, refl, None, Some};
ghost use Rattle.std.proofs.Common.{◌∙◌};
ghost use Rattle.owner_ports.specs.Brought.{brought_by, HasGained, IsCalledOn};
ghost use Rattle.owner_ports.specs.Following.{called_further, called_nowhere, gains_more, gains_nothing};

use crate::port::{Heard, Port, PortCall};
use cache_board::{Board, Refused};
use cache_ident::{Ident, KernelNo, SpaceNo, ThreadNo, Vpn};
use rv32_exec::Status;

/// A board, as processor 0 calls it. It tells its board, and of it comes the same reference, whose board went on. What is left of the
/// run falls with each call that brings a step or a completion, and rises with none.
#[derive(Drop)]
pub struct Alone<'a> {
    pub board: &'a mut Board,
    pub heard: Heard,
    /// How many of its calls brought a step or a completion. It stays at its last value.
    pub brought: u64,
}

impl<'a> Alone<'a> {
    /// Nothing was called yet.
    pub fn new(board: &'a mut Board) -> Alone<'a>
        ensures same_reference { result.board.ghost_name ≡ board.entry.ghost_name }
        ensures board { result.board.now ≡ board.old }
        ensures heard { result.heard ≡ record { calls = 0; said = None; asks = 0; told = None } }
        ensures brought { result.brought ≡ 0 }
    {
        Alone {
            board,
            heard: Heard::nothing(),
            brought: 0,
        }
    }
}

// How many calls brought a step or a completion, once one more was answered: one that was refused brings none.
fn brought_after(answer: Result<(), Refused>, brought: u64) -> u64
    ensures { result ≡ brought_by answer brought }
{
    match answer {
        Ok(()) => brought.saturating_add(1),
        Err(_) => brought,
    }
}

impl Port for Alone<'_> {
    ghost board = { λ port. Some port.board.now };

    ghost heard = { λ port. port.heard };

    ghost follows = { λ old new. (new.board.ghost_name ≡ old.board.ghost_name) × IsCalledOn old.board.now new.board.now × HasGained old.board.now old.brought new.board.now new.brought };

    fn load_kernel(&mut self, caller: Ident, kernel: KernelNo) -> Result<Ident, Refused> {
        let answer = self.board.load_kernel(0, caller, kernel);
        self.heard = self.heard.with_call(PortCall::LoadKernel(kernel), &answer);
        answer
    }

    fn load_space(&mut self, caller: Ident, space: SpaceNo) -> Result<Ident, Refused> {
        let answer = self.board.load_space(0, caller, space);
        self.heard = self.heard.with_call(PortCall::LoadSpace(space), &answer);
        answer
    }

    fn load_thread(
        &mut self,
        caller: Ident,
        parent: Ident,
        thread: ThreadNo,
    ) -> Result<Ident, Refused> {
        let answer = self.board.load_thread(0, caller, parent, thread);
        self.heard = self.heard.with_call(PortCall::LoadThread(thread), &answer);
        answer
    }

    fn load_mapping(
        &mut self,
        caller: Ident,
        parent: Ident,
        vpn: Vpn,
        receiver: Option<Ident>,
    ) -> Result<Ident, Refused> {
        let answer = self.board.load_mapping(0, caller, parent, vpn, receiver);
        self.heard = self
            .heard
            .with_call(PortCall::LoadMapping(parent, vpn), &answer);
        answer
    }

    fn unload(&mut self, caller: Ident, ident: Ident) -> Result<(), Refused> {
        let answer = self.board.unload(0, caller, ident);
        self.heard = self.heard.with_call(PortCall::Unload(ident), &answer);
        answer
    }

    fn complete(&mut self, caller: Ident, thread: Ident) -> Result<(), Refused> {
        let answer = self.board.complete(0, caller, thread);
        self.heard = self.heard.with_call(PortCall::Complete(thread), &answer);
        self.brought = brought_after(answer, self.brought);
        answer
    }

    fn confirm_fault(&mut self, caller: Ident, thread: Ident) -> Result<(), Refused> {
        let answer = self.board.confirm_fault(0, caller, thread);
        self.heard = self
            .heard
            .with_call(PortCall::ConfirmFault(thread), &answer);
        self.brought = brought_after(answer, self.brought);
        answer
    }

    fn status(&mut self, thread: ThreadNo) -> Option<Status> {
        self.board.holds();
        let status = self.board.flat_thread(thread).map(|record| record.status);
        self.heard = self.heard.with_told(thread, status);
        status
    }

    ghost stays = { λ port. (refl, called_nowhere port.board.now, gains_nothing port.board.now port.brought) };

    ghost goes_on = { λ first then last before after. (after.0 ∙ before.0, called_further first.board.now then.board.now last.board.now before.1 after.1, gains_more first.board.now then.board.now last.board.now first.brought then.brought last.brought before.2 after.2) };

    ghost tells = { λ old new follows. follows.1 };
}
