//! What stays so of views while the board goes on.

ghost use Rattle.std.specs.Prelude.{ℕ, ◌++◌, ◌<◌, List, length};
ghost use Rattle.cache_ident.specs.declared.idents.Ident.{Ident};
ghost use Rattle.thread_cache.specs.rv32_exec.specs.declared.contexts.Context.{Context};
ghost use Rattle.board_threads.specs.run_journal.specs.declared.entries.Entry.{Entry};
ghost use Rattle.board_threads.specs.quantum.specs.Ahead.{begun, happened, unbegun, Ahead, HasSameCopies};
ghost use Rattle.board_threads.specs.board_core.specs.Core.{IsSound, Recorded};
ghost use Rattle.board_threads.specs.declared.tickets.Ticket.{Ticket};
ghost use Rattle.board_commits.specs.Commits.{IsCommitted};
ghost use Rattle.board_commits.specs.Tickets.{AreAllAsOf, AreOfTicket};

/// Views that were copied for a ticket stay those of that ticket, and what is kept stays so, however the journal grows, and
/// wherever a quantum runs to. Once its steps happened, what it has of touched views is as of the journal's end. What a quantum
/// has is kept where it begins anew, for whatever ticket that is, and a new quantum keeps nothing.
pub fn what_is_of_a_ticket_stays_so()
    ensures views { (j es : List Entry) (thread : Ident) (a : Ahead) → AreOfTicket j thread a → AreOfTicket (j ++ es) thread a }
    ensures kept { (j es : List Entry) (a : Ahead) → AreAllAsOf j a → AreAllAsOf (j ++ es) a }
    ensures begun { (j : List Entry) (context : Context) (a : Ahead) → AreAllAsOf j a → AreAllAsOf j (begun context a) }
    ensures anew { (j : List Entry) (thread : Ident) (context : Context) (a : Ahead) → AreAllAsOf j a → AreOfTicket j thread (begun context a) }
    ensures ran { (j : List Entry) (thread : Ident) (a b : Ahead) → HasSameCopies a b → AreOfTicket j thread a → AreOfTicket j thread b }
    ensures ran_kept { (j : List Entry) (a b : Ahead) → HasSameCopies a b → AreAllAsOf j a → AreAllAsOf j b }
    ensures happened { (ticket : Ticket) (a : Ahead) (old new : Recorded) → IsSound new → IsCommitted ticket a old new → 0 < a.steps → AreAllAsOf old.journal.entries a → AreAllAsOf new.journal.entries (happened (length new.journal.entries) a) }
    ensures new { (j : List Entry) (most : ℕ) → AreAllAsOf j (unbegun most) }
{}
