//! Locks, and their ends.

ghost use Rattle.std.specs.Prelude.{◌≢◌, ◌≡◌, ℕ, ◌<◌, ◌∷◌, ◌++◌, [], false, true, List};
ghost use Rattle.cache_ident.specs.Rolls.{standing_in};
ghost use Rattle.cache_ident.specs.declared.idents.Ident.{Ident};
ghost use Rattle.cache_ident.specs.declared.idents.Standing.TheVariants.{Live};
ghost use Rattle.cache_ident.specs.declared.names.Caps.{Caps};
ghost use Rattle.quantum.specs.depend_lists.specs.declared.nodes.Node.{Node};
ghost use Rattle.quantum.specs.flat_state.specs.declared.events.Machine.{Machine};
ghost use Rattle.desc_tables.specs.run_journal.specs.Legal.{first_ident};
ghost use Rattle.desc_tables.specs.run_journal.specs.declared.entries.Entry.{Entry};
ghost use Rattle.desc_tables.specs.run_journal.specs.declared.entries.Entry.TheVariants.{Locked, Unlocked};
ghost use Rattle.desc_tables.specs.desc_stores.specs.Contents.{Contents, LockIs};
ghost use Rattle.desc_tables.specs.desc_groups.specs.Moves.{MayBeLocked};
ghost use Rattle.desc_tables.specs.desc_groups.specs.Whole.{AreWhole};
ghost use Rattle.board_laws.specs.Moves.{IsLock};
ghost use Rattle.board_laws.specs.Telling.{AreAsTold};

/// A lock of what wasn't locked is one entry, and so is the end of a lock but that of the first kernel.
pub fn a_lock_is_told()
    ensures locked { (m : Machine) (memory : List ℕ) (caps : Caps) (old new : Contents) (pairs : List (Ident × Node)) (j : List Entry) (ident : Ident) (cpu : ℕ)
        → AreAsTold m memory old true j → AreWhole caps old pairs → cpu < 8
        → standing_in old.issued ident ≡ Live → LockIs old ident false → MayBeLocked old ident → IsLock old new ident true
        → AreAsTold m memory new true (j ++ Locked ident cpu ∷ []) }
    ensures unlocked { (m : Machine) (memory : List ℕ) (caps : Caps) (old new : Contents) (pairs : List (Ident × Node)) (j : List Entry) (ident : Ident) (cpu : ℕ)
        → AreAsTold m memory old true j → AreWhole caps old pairs → cpu < 8
        → standing_in old.issued ident ≡ Live → LockIs old ident true → ident ≢ first_ident → IsLock old new ident false
        → AreAsTold m memory new true (j ++ Unlocked ident cpu ∷ []) }
{}
