//! A processor that shares the board with others.

ghost use Rattle.std.specs.Prelude.{◌≡◌, ◌<◌, None, refl};
ghost use Rattle.turn_lock.specs.Passes.{end_of, first_of, lock_of, pass_lock, seen_of, IsPassOf};
ghost use Rattle.alone_run.specs.cache_board.specs.Pasts.{entries_of};
ghost use Rattle.processors.specs.Following.{begins_with_seen, goes_further, goes_nowhere, own_stays};
ghost use Rattle.processors.specs.Sharing.{IsSoOf, SeesMore};

use crate::gate::Gate;
use crate::holds::{commit, hold, look};
use crate::lengths::Ran;
use crate::run::RanLast;
use alone_run::turns::{
    Board, Committed, Found, Heard, Point, Port, PortCall, Processor, Quantum, Refused, Ticket,
    allows, leave_and_heal,
};
use cache_ident::{Ident, KernelNo, NoMemory, SpaceNo, ThreadNo, Vpn};
use rv32_exec::{Access, Status};
use std::marker::Model;
use std::sync::Wait;
use turn_lock::{Pass, Turn};

/// One of several processors on a board that is behind a lock. Each of its calls is one hold, as the processor whose number its pass
/// begins with; between two of them other processors may hold the board, so it tells none.
///
/// What it has seen is what its pass has, and that only grows. It stops with a number of steps, and looks for nobody once so many were
/// taken. A contract sees `Sharer`.
#[derive(Drop)]
pub struct Sharing<'a, R, G> {
    rt: &'a R,
    lock: &'a Turn<Board>,
    gate: &'a G,
    cpu: u32,
    limit: u64,
    // It isn't there while the board is held.
    pass: Option<Pass<Board>>,
    heard: Heard,
    brought: u64,
    // What the quantum came to that was to be committed last.
    last: Ran,
}

impl<'a, R, G> Model for Sharing<'a, R, G> {
    ghost use Rattle.turn_lock.specs.Passes.{lock_of};
    ghost use Rattle.processors.specs.Sharing.{end_by, seen_by, Sharer, Stands};

    ghost Value = { Sharer };

    ghost view = { λ s. record { lock = lock_of s.lock.now; cpu = s.cpu; end = end_by s.pass; seen = seen_by s.pass; limit = s.limit; heard = s.heard; brought = s.brought } };

    ghost invariant = { λ s. Stands s.lock.now s.cpu s.pass };
}

impl<'a, R, G> Sharing<'a, R, G> {
    /// The processor whose number the pass begins with, which stops with so many steps. Nothing was called yet.
    pub fn new(
        rt: &'a R,
        lock: &'a Turn<Board>,
        gate: &'a G,
        pass: Pass<Board>,
        limit: u64,
    ) -> Sharing<'a, R, G>
        requires lock { IsPassOf lock.now pass }
        requires processor { first_of pass < 8 }
        ensures lock { result.lock ≡ lock_of lock.now }
        ensures range { (result.cpu ≡ first_of pass) × (result.end ≡ end_of pass) }
        ensures seen { result.seen ≡ seen_of pass }
        ensures limit { result.limit ≡ limit }
        ensures begins { (result.heard ≡ record { calls = 0; said = None; asks = 0; told = None }) × (result.brought ≡ 0) }
    {
        let cpu = pass.number();
        Sharing {
            rt,
            lock,
            gate,
            cpu,
            limit,
            pass: Some(pass),
            heard: Heard::nothing(),
            brought: 0,
            last: Ran::nothing(),
        }
    }

    /// The pass, with the numbers that it came with, and all that was seen.
    pub fn into_pass(self) -> Pass<Board>
        ensures lock { pass_lock result ≡ self.entry.lock }
        ensures range { (first_of result ≡ self.entry.cpu) × (end_of result ≡ self.entry.end) }
        ensures seen { seen_of result ≡ self.entry.seen }
    {
        match self.pass {
            Some(pass) => pass,
            None => unreachable!(),
        }
    }
}

impl<R: Wait, G: Gate> Port for Sharing<'_, R, G> {
    ghost board = { λ port. None };

    ghost heard = { λ port. port.heard };

    ghost follows = { SeesMore };

    fn load_kernel(&mut self, caller: Ident, kernel: KernelNo) -> Result<Ident, Refused> {
        let mut held = hold(self.rt, self.lock, &mut self.pass);
        let answer = held.value_mut().load_kernel(self.cpu, caller, kernel);
        self.pass = Some(held.release());
        self.heard = self.heard.with_call(PortCall::LoadKernel(kernel), &answer);
        answer
    }

    fn load_space(&mut self, caller: Ident, space: SpaceNo) -> Result<Ident, Refused> {
        let mut held = hold(self.rt, self.lock, &mut self.pass);
        let answer = held.value_mut().load_space(self.cpu, caller, space);
        self.pass = Some(held.release());
        self.heard = self.heard.with_call(PortCall::LoadSpace(space), &answer);
        answer
    }

    fn load_thread(
        &mut self,
        caller: Ident,
        parent: Ident,
        thread: ThreadNo,
    ) -> Result<Ident, Refused> {
        let mut held = hold(self.rt, self.lock, &mut self.pass);
        let answer = held
            .value_mut()
            .load_thread(self.cpu, caller, parent, thread);
        self.pass = Some(held.release());
        self.heard = self.heard.with_call(PortCall::LoadThread(thread), &answer);
        answer
    }

    fn load_mapping(
        &mut self,
        caller: Ident,
        parent: Ident,
        vpn: Vpn,
        receiver: Option<Ident>,
    ) -> Result<Ident, Refused> {
        let mut held = hold(self.rt, self.lock, &mut self.pass);
        let answer = held
            .value_mut()
            .load_mapping(self.cpu, caller, parent, vpn, receiver);
        self.pass = Some(held.release());
        self.heard = self
            .heard
            .with_call(PortCall::LoadMapping(parent, vpn), &answer);
        answer
    }

    fn unload(&mut self, caller: Ident, ident: Ident) -> Result<(), Refused> {
        let mut held = hold(self.rt, self.lock, &mut self.pass);
        let answer = held.value_mut().unload(self.cpu, caller, ident);
        self.pass = Some(held.release());
        self.heard = self.heard.with_call(PortCall::Unload(ident), &answer);
        answer
    }

    fn complete(&mut self, caller: Ident, thread: Ident) -> Result<(), Refused> {
        let mut held = hold(self.rt, self.lock, &mut self.pass);
        let answer = held.value_mut().complete(self.cpu, caller, thread);
        self.pass = Some(held.release());
        self.heard = self.heard.with_call(PortCall::Complete(thread), &answer);
        self.brought = brought_after(answer, self.brought);
        answer
    }

    fn confirm_fault(&mut self, caller: Ident, thread: Ident) -> Result<(), Refused> {
        let mut held = hold(self.rt, self.lock, &mut self.pass);
        let answer = held.value_mut().confirm_fault(self.cpu, caller, thread);
        self.pass = Some(held.release());
        self.heard = self
            .heard
            .with_call(PortCall::ConfirmFault(thread), &answer);
        self.brought = brought_after(answer, self.brought);
        answer
    }

    fn status(&mut self, thread: ThreadNo) -> Option<Status> {
        let held = hold(self.rt, self.lock, &mut self.pass);
        let status = held.value().flat_thread(thread).map(|record| record.status);
        self.pass = Some(held.release());
        self.heard = self.heard.with_told(thread, status);
        status
    }

    ghost stays = { goes_nowhere };

    ghost goes_on = { goes_further };

    ghost tells = { λ old new follows. refl };
}

// How many calls brought something, once one more was answered: one that was refused brings nothing.
fn brought_after(answer: Result<(), Refused>, brought: u64) -> u64 {
    match answer {
        Ok(()) => brought.saturating_add(1),
        Err(_) => brought,
    }
}

// .. once a commit of so many steps came to this
fn brought_by(committed: Committed, steps: u32, brought: u64) -> u64 {
    match committed {
        Committed::Taken { .. } if steps > 0 => brought.saturating_add(1),
        _ => brought,
    }
}

impl<R, G> RanLast for Sharing<'_, R, G> {
    fn last(&self) -> Ran {
        self.last
    }
}

impl<R: Wait, G: Gate> Processor for Sharing<'_, R, G> {
    ghost progress = { λ port. port.brought };

    ghost seen = { λ port. entries_of port.seen };

    ghost is_so = { λ port. IsSoOf port.cpu port.limit (entries_of port.seen) };

    ghost continues = { SeesMore };

    fn brought(&self) -> u64 {
        self.brought
    }

    fn at(&self, point: Point) {
        self.gate.at(self.cpu, point);
    }

    fn look(&mut self, want_first: bool, quantum: &mut Quantum, next: &mut Found) {
        let mut held = hold(self.rt, self.lock, &mut self.pass);
        look(
            held.value_mut(),
            self.cpu,
            self.limit,
            want_first,
            quantum,
            next,
        );
        self.pass = Some(held.release());
    }

    fn page(&mut self, ticket: &Ticket, vpn: Vpn, quantum: &mut Quantum) -> Result<(), Refused> {
        let held = hold(self.rt, self.lock, &mut self.pass);
        let answer = held.value().page(ticket, vpn, quantum);
        self.pass = Some(held.release());
        answer
    }

    fn allows(&mut self, ticket: &Ticket, vpn: Vpn, access: Access) -> bool {
        let held = hold(self.rt, self.lock, &mut self.pass);
        let allowed = allows(held.value(), ticket, vpn, access);
        self.pass = Some(held.release());
        allowed
    }

    fn commit(
        &mut self,
        ticket: &Ticket,
        quantum: &mut Quantum,
        look: Option<bool>,
        next: &mut Found,
    ) -> Result<Committed, NoMemory> {
        let ran = Ran::of(quantum);
        self.last = ran;
        let mut held = hold(self.rt, self.lock, &mut self.pass);
        let answer = commit(held.value_mut(), ticket, self.limit, look, quantum, next);
        self.pass = Some(held.release());
        let committed = answer?;
        self.brought = brought_by(committed, ran.steps, self.brought);
        Ok(committed)
    }

    fn leave_and_heal(&mut self, ticket: Option<Ticket>, thread: ThreadNo) -> Result<(), Refused> {
        let mut held = hold(self.rt, self.lock, &mut self.pass);
        let answer = leave_and_heal(held.value_mut(), self.cpu, ticket, thread);
        self.pass = Some(held.release());
        self.brought = brought_after(answer, self.brought);
        answer
    }

    ghost as_a_port = { λ old new follows. follows };

    ghost further = { goes_further };

    ghost grows = { begins_with_seen };

    ghost sees = { λ port. tt };

    ghost owns = { own_stays };

    ghost grew = { λ old new continues. refl };
}
