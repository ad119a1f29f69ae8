//! What each processor has on its desk.

ghost use Rattle.std.specs.Prelude.{◌≡◌, ◌<◌, IfOk};
ghost use Rattle.cache_board.specs.Desks.{AreOfTickets, AtPlace, IsClear};
ghost use Rattle.cache_board.specs.Drive.{IsCheckout, IsCommit, IsLeave, IsRunAhead, IsView};

use crate::board::Board;
use crate::place::Place;
use board_commits::Answer;
use cache_ident::{NoMemory, Vpn};
use std::alloc::Global;
use std::marker::Model;

/// How many processors there are.
pub(crate) const PROCESSORS: u32 = 8;

/// A place for each of the eight processors, with its ticket, if it has one, and its quantum.
#[derive(Drop)]
pub struct Desk {
    places: Vec<Place>,
}

impl Model for Desk {
    ghost use Rattle.std.specs.Prelude.{◌≡◌, length};
    ghost use Rattle.cache_board.specs.Desks.{Desktop};

    ghost Value = { Desktop };

    ghost view = { λ d. record { places = d.places.items } };

    ghost invariant = { λ d. length d.places.items ≡ 8 };
}

impl Desk {
    /// No ticket for any processor, and new quanta. The one call that takes memory.
    pub fn new(alloc: Global) -> Result<Desk, NoMemory>
        ensures { IfOk result IsClear }
    {
        let mut places = Vec::with_capacity(alloc, PROCESSORS as usize)?;
        for _cpu in 0..PROCESSORS {
            let place = Place::new(alloc)?;
            places.push(place)?;
        }
        Ok(Desk { places })
    }

    pub(crate) fn check_out(&mut self, board: &mut Board, cpu: u32) -> Answer
        requires processor { cpu < 8 }
        ensures { AtPlace cpu (λ old new. IsCheckout cpu board.old old result board.new new) self.old self.new }
    {
        self.places[cpu as usize].check_out(board, cpu)
    }

    pub(crate) fn view(&mut self, board: &Board, cpu: u32, vpn: Vpn) -> Answer
        requires processor { cpu < 8 }
        requires views { AreOfTickets board.now.journal.entries self.old }
        ensures { AtPlace cpu (λ old new. IsView board.now vpn old result new) self.old self.new }
    {
        self.places[cpu as usize].view(board, vpn)
    }

    pub(crate) fn run_ahead(&mut self, cpu: u32, limit: u32) -> Answer
        requires processor { cpu < 8 }
        ensures { AtPlace cpu (λ old new. IsRunAhead limit old result new) self.old self.new }
    {
        self.places[cpu as usize].run_ahead(limit)
    }

    pub(crate) fn commit(&mut self, board: &mut Board, cpu: u32) -> Answer
        requires processor { cpu < 8 }
        requires views { AreOfTickets board.old.journal.entries self.old }
        ensures { AtPlace cpu (λ old new. IsCommit board.old old result board.new new) self.old self.new }
    {
        self.places[cpu as usize].commit(board)
    }

    pub(crate) fn leave(&mut self, board: &mut Board, cpu: u32) -> Answer
        requires processor { cpu < 8 }
        ensures { AtPlace cpu (λ old new. IsLeave board.old old result board.new new) self.old self.new }
    {
        self.places[cpu as usize].leave(board)
    }
}
