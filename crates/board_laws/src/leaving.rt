//! Groups that leave.

ghost use Rattle.std.specs.Prelude.{◌≢◌, ◌≡◌, ℕ, ◌<◌, ◌++◌, true, List, length};
ghost use Rattle.cache_ident.specs.Rolls.{standing_in};
ghost use Rattle.cache_ident.specs.declared.idents.Ident.{Ident};
ghost use Rattle.cache_ident.specs.declared.idents.Standing.TheVariants.{Live};
ghost use Rattle.cache_ident.specs.declared.names.Caps.{Caps};
ghost use Rattle.quantum.specs.depend_lists.specs.declared.nodes.Node.{Node};
ghost use Rattle.quantum.specs.flat_state.specs.declared.events.Machine.{Machine};
ghost use Rattle.desc_tables.specs.run_journal.specs.Legal.{first_ident};
ghost use Rattle.desc_tables.specs.run_journal.specs.declared.entries.Entry.{Entry};
ghost use Rattle.desc_tables.specs.desc_stores.specs.Contents.{Contents};
ghost use Rattle.desc_tables.specs.desc_groups.specs.declared.departures.Gone.{Gone};
ghost use Rattle.desc_tables.specs.desc_groups.specs.Whole.{AreWhole};
ghost use Rattle.board_laws.specs.Moves.{IsUnload, written_back};
ghost use Rattle.board_laws.specs.Telling.{AreAsTold};

/// What is unloaded leaves with its group, an entry each, at the places from the journal's length on. The first kernel stays.
pub fn a_group_that_leaves_is_told()
    ensures { (m : Machine) (memory : List ℕ) (caps : Caps) (old new : Contents) (pairs : List (Ident × Node)) (j : List Entry) (ident : Ident) (gone : List Gone) (cpu : ℕ)
        → AreAsTold m memory old true j → AreWhole caps old pairs → cpu < 8
        → standing_in old.issued ident ≡ Live → ident ≢ first_ident → IsUnload old new ident (length j) gone
        → AreAsTold m memory new true (j ++ written_back cpu gone) }
{}
