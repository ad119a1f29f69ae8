//! What a pass that has seen a board's past knows of the board, and what a holder does.

ghost use Rattle.std.specs.Prelude.{◌≡◌, ℕ, true, List, Contains};
ghost use mathlib.Core.List.{IsPrefix};
ghost use Rattle.cache_ident.specs.declared.idents.Ident.{Ident};
ghost use Rattle.cache_ident.specs.Names.{first_name};
ghost use Rattle.cache_ident.specs.Residents.{IsResident};
ghost use Rattle.flat_state.specs.Events.{flat};
ghost use Rattle.run_journal.specs.declared.entries.Entry.{Entry};
ghost use Rattle.run_journal.specs.Entries.{erase};
ghost use Rattle.run_journal.specs.Legal.{first_ident};
ghost use Rattle.run_journal.specs.Told.{residents};
ghost use Rattle.turn_lock.specs.Lists.{numbers, AllMadeBelow, IsContinuedBy};
ghost use Rattle.turn_lock.specs.Passes.{value_of};
ghost use Rattle.board_core.specs.quantum.specs.Ahead.{Ahead};
ghost use Rattle.board_core.specs.desc_stores.specs.Contents.{residents_of};
ghost use Rattle.board_core.specs.cached_machine.specs.Cached.{state_of};
ghost use Rattle.board_core.specs.Core.{contents_of, IsSound, Recorded};
ghost use Rattle.board_core.specs.Going.{IsOneEvent};
ghost use Rattle.board_core.specs.Places.{IsInOnePlace};
ghost use Rattle.board_commits.specs.Tickets.{AreAllAsOf, AreOfTicket};
ghost use Rattle.cache_board.specs.Events.{author_of, past_of};
ghost use Rattle.cache_board.specs.Pasts.{entries_of, has_seal};

use crate::board::Board;
use turn_lock::Held;

/// Does nothing. A proof has from it what holds of the board that is out with a holder, as of every board.
pub fn holds_while_held(held: &Held<'_, Board>)
    ensures sound { IsSound (value_of held.now) }
    ensures places { IsInOnePlace (value_of held.now) }
    ensures first { (value_of held.now).sealed ≡ true → IsResident (residents_of (contents_of (value_of held.now))) first_ident first_name }
{
    held.value().holds();
}

/// Eight processors make all entries of a sound board's past. So a lock, which has more numbers to sign with, can be made over it.
pub fn makers_are_processors()
    ensures eight { (b : Recorded) → IsSound b → AllMadeBelow author_of 8 (past_of b) }
    ensures numbers { (b : Recorded) → IsSound b → AllMadeBelow author_of numbers (past_of b) }
{}

/// Who found a board's past goes on from it with nothing added. Each event adds to the past and takes nothing away, so any number
/// of events of one processor, in one hold, continue what was found, and it begins the past that is given back.
pub fn calls_of_a_hold_continue_the_past()
    ensures nothing { (cpu : ℕ) (b : Recorded) → IsContinuedBy author_of cpu (past_of b) (past_of b) }
    ensures event { (cpu : ℕ) (old new : Recorded) → IsOneEvent cpu old new → IsContinuedBy author_of cpu (past_of old) (past_of new) }
    ensures twice { (cpu : ℕ) (found between now : List (Entry × ℕ)) → IsContinuedBy author_of cpu found between → IsContinuedBy author_of cpu between now → IsContinuedBy author_of cpu found now }
    ensures begins { (cpu : ℕ) (found now : List (Entry × ℕ)) → IsContinuedBy author_of cpu found now → IsPrefix found now }
{}

/// The entries of a board's past are its journal; of two pasts, one of which begins the other, so do the entries; and what begins
/// what begins a past begins it.
pub fn a_past_has_the_entries()
    ensures journal { (b : Recorded) → entries_of (past_of b) ≡ b.journal.entries }
    ensures begin { (one other : List (Entry × ℕ)) → IsPrefix one other → IsPrefix (entries_of one) (entries_of other) }
    ensures same { (seen : List (Entry × ℕ)) → IsPrefix seen seen }
    ensures further { (one other more : List (Entry × ℕ)) → IsPrefix one other → IsPrefix other more → IsPrefix one more }
{}

/// Who has seen an entry of a board knows how many steps it may take at most, and who has seen the seal knows that it is sealed.
/// So a board that goes on from another one's past has that one's limit, and stays sealed.
pub fn what_was_seen_stays()
    ensures limit { (seen : List (Entry × ℕ)) (b : Recorded) (e : Entry) (limit : ℕ) → IsPrefix seen (past_of b) → Contains seen (e, limit) → b.limit ≡ limit }
    ensures seal { (seen : List (Entry × ℕ)) (b : Recorded) → IsSound b → IsPrefix seen (past_of b) → has_seal seen ≡ true → b.sealed ≡ true }
    ensures limits { (old new : Recorded) → IsSound old → IsPrefix (past_of old) (past_of new) → new.limit ≡ old.limit }
    ensures seals { (old new : Recorded) → IsSound old → IsSound new → IsPrefix (past_of old) (past_of new) → old.sealed ≡ true → new.sealed ≡ true }
    ensures seen { (b : Recorded) → IsSound b → has_seal (past_of b) ≡ b.sealed }
{}

/// Views that were copied for a ticket stay those of that ticket, and what a quantum keeps stays so, however the past grows.
pub fn what_is_of_a_ticket_stays_so_from_past_to_past()
    ensures views { (one other : List (Entry × ℕ)) (thread : Ident) (a : Ahead) → IsPrefix one other → AreOfTicket (entries_of one) thread a → AreOfTicket (entries_of other) thread a }
    ensures kept { (one other : List (Entry × ℕ)) (a : Ahead) → IsPrefix one other → AreAllAsOf (entries_of one) a → AreAllAsOf (entries_of other) a }
    ensures views_on { (seen : List (Entry × ℕ)) (b : Recorded) (thread : Ident) (a : Ahead) → IsPrefix seen (past_of b) → AreOfTicket (entries_of seen) thread a → AreOfTicket b.journal.entries thread a }
    ensures kept_on { (seen : List (Entry × ℕ)) (b : Recorded) (a : Ahead) → IsPrefix seen (past_of b) → AreAllAsOf (entries_of seen) a → AreAllAsOf b.journal.entries a }
{}

/// A sound board shows the machine with unlimited tables on its erased journal, and what that journal has resident is loaded.
pub fn a_board_shows_its_journal()
    ensures state { (b : Recorded) → IsSound b → state_of b.machine ≡ flat (erase b.journal.entries) }
    ensures residents { (b : Recorded) → IsSound b → residents_of (contents_of b) ≡ residents b.journal.entries }
{}
