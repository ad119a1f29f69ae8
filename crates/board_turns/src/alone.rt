//! The processor of whoever has the board alone.

ghost use Rattle.std.specs.Prelude.{◌≡◌, ◌≤◌, ◌+◌, refl};
ghost use Rattle.std.proofs.Common.{◌∙◌};
ghost use Rattle.board_turns.specs.Holds.{taken_by};
ghost use Rattle.board_turns.specs.Following.{begins_with_seen, grown_as_called, grown_more};
ghost use Rattle.board_turns.specs.Looks.{IsSoAlone};
ghost use Rattle.board_turns.specs.Turning.{HasGrown};

use crate::committed::Committed;
use crate::found::Found;
use crate::holds::{allows, commit, leave_and_heal, look};
use crate::point::Point;
use crate::processor::Processor;
use app_kernel::{Alone, Refused};
use cache_board::{Quantum, Ticket};
use cache_ident::{NoMemory, ThreadNo, Vpn};
use rv32_exec::Access;

// How many calls brought something, once a commit of so many steps came to this.
fn brought_by(committed: Committed, steps: u32, brought: u64) -> u64
    ensures rose { brought ≤ result }
    ensures most { result ≤ brought + taken_by committed steps }
{
    match committed {
        Committed::Taken { .. } if steps > 0 => brought.saturating_add(1),
        _ => brought,
    }
}

impl Processor for Alone<'_> {
    ghost progress = { λ port. port.brought };

    ghost seen = { λ port. port.board.now.journal.entries };

    ghost is_so = { λ port found. IsSoAlone port.board.now found };

    ghost continues = { λ old new. (new.board.ghost_name ≡ old.board.ghost_name) × HasGrown old.board.now old.brought new.board.now new.brought };

    fn brought(&self) -> u64 {
        self.brought
    }

    fn at(&self, _point: Point) {}

    fn look(&mut self, want_first: bool, quantum: &mut Quantum, next: &mut Found) {
        look(self.board, want_first, quantum, next);
    }

    fn page(&mut self, ticket: &Ticket, vpn: Vpn, quantum: &mut Quantum) -> Result<(), Refused> {
        self.board.page(ticket, vpn, quantum)
    }

    fn allows(&mut self, ticket: &Ticket, vpn: Vpn, access: Access) -> bool {
        allows(self.board, ticket, vpn, access)
    }

    fn commit(
        &mut self,
        ticket: &Ticket,
        quantum: &mut Quantum,
        look: Option<bool>,
        next: &mut Found,
    ) -> Result<Committed, NoMemory> {
        let steps = quantum.steps();
        let committed = commit(self.board, ticket, quantum, look, next)?;
        self.brought = brought_by(committed, steps, self.brought);
        Ok(committed)
    }

    fn leave_and_heal(&mut self, ticket: Option<Ticket>, thread: ThreadNo) -> Result<(), Refused> {
        leave_and_heal(self.board, 0, ticket, thread)?;
        self.brought = self.brought.saturating_add(1);
        Ok(())
    }

    ghost as_a_port = { λ old new follows. (follows.0, grown_as_called old.board.now new.board.now old.brought new.brought follows.1 follows.2) };

    ghost further = { λ first then last before after. (after.0 ∙ before.0, grown_more first.board.now then.board.now last.board.now first.brought then.brought last.brought before.1 after.1) };

    ghost grows = { λ old new continues. begins_with_seen old.board.now new.board.now old.brought new.brought continues.1 };

    ghost sees = { λ port. refl };

    ghost owns = { λ old new ticket continues own. own };

    ghost grew = { λ old new continues. continues.1 };
}
