//! The board's past, by which a lock ties what a holder finds to what it has seen.

ghost use Rattle.std.specs.Prelude.{ℕ, List};
ghost use Rattle.run_journal.specs.declared.entries.Entry.{Entry};
ghost use Rattle.turn_lock.specs.Lists.{IsContinuedBy};
ghost use Rattle.board_core.specs.Core.{Recorded};
ghost use Rattle.board_core.specs.Going.{IsOneEvent};
ghost use Rattle.cache_board.specs.Events.{author_of, past_of};

use crate::board::Board;
use run_journal::Entry;
use turn_lock::History;

/// The entries of its journal, each with the board's step limit beside it, so that who has seen one knows the limit. An entry's
/// maker is its processor; declarations and the seal are made by processor 0.
impl History for Board {
    type Entry = (Entry, u64);

    ghost entries = { past_of };

    ghost maker = { author_of };

    fn len(&self) -> u64 {
        self.journal().len()
    }
}

/// What a processor adds to what was found carries its number, however many events it is.
pub fn each_event_continues_the_past()
    ensures { (cpu : ℕ) (found : List (Entry × ℕ)) (old new : Recorded) → IsContinuedBy author_of cpu found (past_of old) → IsOneEvent cpu old new → IsContinuedBy author_of cpu found (past_of new) }
{}
