//! What a turn asks of the board, each in one hold.

ghost use Rattle.std.specs.Prelude.{◌≡◌, ℕ, List, Option, IfOk, IfSome, IsTrue, OnErr};
ghost use Rattle.std.specs.Bool.{OnTrue};
ghost use mathlib.Core.List.{IsPrefix};
ghost use Rattle.page_views.specs.Views.{can_fill};
ghost use Rattle.cache_board.specs.run_journal.specs.declared.entries.Entry.{Entry};
ghost use Rattle.cache_board.specs.board_commits.specs.Tickets.{AreAllAsOf, AreOfTicket};
ghost use Rattle.cache_board.specs.board_threads.specs.declared.tickets.Ticket.{Ticket};
ghost use Rattle.app_kernel.specs.owner_ports.specs.Boards.{OnTold};
ghost use Rattle.board_turns.specs.declared.found.Found.{Found};
ghost use Rattle.board_turns.specs.Holds.{found_by, AreFewer, HasCommitted, HasHealed, IsPageAnswer, IsReadyFor};
ghost use Rattle.board_turns.specs.Looks.{Allows, HasLooked};
ghost use Rattle.board_turns.specs.Turning.{HasGrown};

use crate::committed::Committed;
use crate::found::Found;
use crate::point::Point;
use app_kernel::{Port, Refused};
use cache_board::{Quantum, Ticket};
use cache_ident::{NoMemory, ThreadNo, Vpn};
use rv32_exec::Access;

/// A processor on a board. Nobody else calls the board while one of these calls is answered; between two of them others may.
///
/// Where it tells its board, nobody else has that, and it is processor 0.
pub trait Processor: Port {
    // How many of its calls brought a step or a completion. It stays at its last value.
    ghost progress: { Self → ℕ };

    // The journal, as far as it has seen it.
    ghost seen: { Self → List Entry };

    // What is so where it found that last: that a ticket is its own, and why nobody was found.
    ghost is_so: { Self → Found → Type 0 };

    // Which processors may come of it. It is `follows`, but that threads may come to the processor, and leave it.
    ghost continues: { Self → Self → Type 0 };

    /// How many times steps were taken or a call was completed through it: commits with steps, healed steps, confirmed faults and
    /// completions. The count stays at its last value.
    fn brought(&self) -> u64
        ensures { result ≡ progress self.now };

    /// It stands here in its turn, and doesn't hold the board.
    fn at(&self, point: Point);

    /// Looks for the next thread: for one that can come to the processor, and where there is none for one that waits for its
    /// owners, or in the other order. Whom it finds is written to `next`. The quantum of a thread that came to the processor begins, in
    /// the same hold.
    fn look(&mut self, want_first: bool, quantum: &mut Quantum, next: &mut Found)
        requires kept { AreAllAsOf (seen self.old) quantum.old }
        ensures told { OnTold (Self.board self.old) (Self.board self.new) (λ old new. HasLooked want_first old new next.new) }
        ensures so { is_so self.new next.new }
        ensures ready { IsReadyFor (seen self.new) quantum.new next.new }
        ensures kept { AreAllAsOf (seen self.new) quantum.new }
        ensures continued { continues self.old self.new };

    /// Copies the page of a loaded row of the ticket's thread into the quantum, whatever the row's flags. Refused where no row of
    /// that page is loaded, or the ticket's identifier isn't live any more. It changes nothing of a board that is told.
    fn page(&mut self, ticket: &Ticket, vpn: Vpn, quantum: &mut Quantum) -> Result<(), Refused>
        requires room { IsTrue (can_fill quantum.old.most quantum.old.views vpn) }
        requires kept { AreAllAsOf (seen self.old) quantum.old }
        ensures told { IfSome (Self.board self.old) (λ b. IsPageAnswer b ticket.now vpn quantum.old quantum.new result) }
        ensures same { Self.board self.new ≡ Self.board self.old }
        ensures refused { OnErr result (quantum.new ≡ quantum.old) }
        ensures steps { quantum.new.steps ≡ quantum.old.steps }
        ensures views { AreOfTicket (seen self.old) ticket.now.thread quantum.old → AreOfTicket (seen self.new) ticket.now.thread quantum.new }
        ensures continued { continues self.old self.new };

    /// Whether the row of a page of the ticket's thread is loaded, and allows the access. It changes nothing of a board that is told.
    fn allows(&mut self, ticket: &Ticket, vpn: Vpn, access: Access) -> bool
        ensures told { IfSome (Self.board self.old) (λ b. OnTrue result (Allows b ticket.now.no vpn access)) }
        ensures same { Self.board self.new ≡ Self.board self.old }
        ensures continued { continues self.old self.new };

    /// Makes the steps of the quantum happen, and gives the thread back, but where they are too many; and then looks for the next
    /// thread in the given order, if one is given. Whom it finds then is written to `next`, and the quantum of a thread that came to the
    /// processor begins. A quantum whose steps happened keeps what they left of the pages.
    fn commit(
        &mut self,
        ticket: &Ticket,
        quantum: &mut Quantum,
        look: Option<bool>,
        next: &mut Found,
    ) -> Result<Committed, NoMemory>
        requires own { is_so self.old (Found.Out ticket.now) }
        requires views { AreOfTicket (seen self.old) ticket.now.thread quantum.old }
        ensures told { OnTold (Self.board self.old) (Self.board self.new) (λ old new. IfOk result (HasCommitted ticket.now quantum.old look old new next.new)) }
        ensures so { IfOk result (λ committed. IfSome (found_by next.new committed) (is_so self.new)) }
        ensures ready { IfOk result (λ committed. IfSome (found_by next.new committed) (IsReadyFor (seen self.new) quantum.new)) }
        ensures fewer { IfOk result (AreFewer quantum.old.steps) }
        ensures kept { AreAllAsOf (seen self.new) quantum.new }
        ensures continued { continues self.old self.new };

    /// Gives the ticket's thread back, where there is a ticket, and heals the next step of a thread.
    fn leave_and_heal(&mut self, ticket: Option<Ticket>, thread: ThreadNo) -> Result<(), Refused>
        requires own { IfSome ticket (λ its. is_so self.old (Found.Out its)) }
        ensures told { OnTold (Self.board self.old) (Self.board self.new) (λ old new. HasHealed 0 ticket thread old new result) }
        ensures continued { continues self.old self.new };

    // What may come of a port may come of a processor, and so may what comes of what comes of it.
    ghost as_a_port: { (old new : Self) → Self.follows old new → continues old new };

    ghost further: { (first then last : Self) → continues first then → continues then last → continues first last };

    // What was seen stays; where the board is told, it is the journal of that. A ticket that is its own stays so.
    ghost grows: { (old new : Self) → continues old new → IsPrefix (seen old) (seen new) };

    ghost sees: { (processor : Self) → IfSome (Self.board processor) (λ b. b.journal.entries ≡ seen processor) };

    ghost owns: { (old new : Self) (ticket : Ticket) → continues old new → is_so old (Found.Out ticket) → is_so new (Found.Out ticket) };

    // Where it tells its board, that grew, and what is left of its run fell by at least as many as brought something.
    ghost grew: { (old new : Self) → continues old new → OnTold (Self.board old) (Self.board new) (λ b now. HasGrown b (progress old) now (progress new)) };
}
