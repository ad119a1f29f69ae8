//! What one processor has on the desk.

ghost use Rattle.std.specs.Prelude.{◌≡◌, ◌<◌, IfOk, None, Some};
ghost use Rattle.board_commits.specs.board_threads.specs.declared.tickets.Ticket.{Ticket};
ghost use Rattle.board_core.specs.quantum.specs.Ahead.{unbegun};
ghost use Rattle.board_commits.specs.Tickets.{AreAllAsOf, AreOfTicket};
ghost use Rattle.cache_board.specs.Drive.{IsCheckout, IsCommit, IsLeave, IsRunAhead, IsView};

use crate::answers::did;
use crate::board::Board;
use board_commits::{Answer, Quantum, Ticket};
use cache_ident::{NoMemory, Vpn};
use std::alloc::Global;

/// How many views a quantum on the desk may have.
pub const DESK_VIEWS: usize = 8;

/// The ticket of a processor, if it has one, and its quantum.
#[derive(Drop)]
pub(crate) struct Place {
    ticket: Option<Ticket>,
    quantum: Quantum,
}

impl Place {
    /// One without a ticket. The one call that takes memory.
    pub(crate) fn new(alloc: Global) -> Result<Place, NoMemory>
        ensures { IfOk result (λ place. place ≡ record { ticket = None; quantum = unbegun DESK_VIEWS }) }
    {
        Ok(Place {
            ticket: None,
            quantum: Quantum::new(alloc, DESK_VIEWS)?,
        })
    }

    /// Takes the next thread to the processor. Its ticket comes in place of any other, and the quantum begins with its context.
    /// Where there is none all stays.
    pub(crate) fn check_out(&mut self, board: &mut Board, cpu: u32) -> Answer
        requires processor { cpu < 8 }
        ensures { IsCheckout cpu board.old self.old result board.new self.new }
    {
        let Some(ticket) = board.checkout(cpu) else {
            return Answer::Out(None);
        };
        self.ticket = Some(ticket);
        self.quantum.begin(ticket.context, ticket.no);
        Answer::Out(Some(ticket.no))
    }

    /// Copies a page into the quantum.
    pub(crate) fn view(&mut self, board: &Board, vpn: Vpn) -> Answer
        requires kept { AreAllAsOf board.now.journal.entries self.old.quantum }
        ensures { IsView board.now vpn self.old result self.new }
    {
        let Some(ticket) = &self.ticket else {
            return Answer::NoTicket;
        };
        if !self.quantum.can_fill(vpn) {
            return Answer::NoView;
        }
        did(board.page(ticket, vpn, &mut self.quantum))
    }

    /// Runs the quantum ahead.
    pub(crate) fn run_ahead(&mut self, limit: u32) -> Answer
        ensures { IsRunAhead limit self.old result self.new }
    {
        if self.ticket.is_none() {
            return Answer::NoTicket;
        }
        Answer::Paused(self.quantum.run(limit))
    }

    /// Makes the steps of the quantum happen, and the ticket goes.
    pub(crate) fn commit(&mut self, board: &mut Board) -> Answer
        requires views { (ticket : Ticket) → self.old.ticket ≡ Some ticket → AreOfTicket board.old.journal.entries ticket.thread self.old.quantum }
        ensures { IsCommit board.old self.old result board.new self.new }
    {
        let Some(ticket) = &self.ticket else {
            return Answer::NoTicket;
        };
        match board.commit(ticket, &self.quantum) {
            Ok(steps) => {
                self.ticket = None;
                Answer::Stepped(steps)
            }
            Err(refused) => Answer::Refused(refused),
        }
    }

    /// Gives the thread back, and the ticket goes.
    pub(crate) fn leave(&mut self, board: &mut Board) -> Answer
        ensures { IsLeave board.old self.old result board.new self.new }
    {
        let Some(ticket) = &self.ticket else {
            return Answer::NoTicket;
        };
        board.leave(ticket);
        self.ticket = None;
        Answer::Did
    }
}
