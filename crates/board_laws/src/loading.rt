//! Loads, and the seal.

ghost use Rattle.std.specs.Prelude.{◌≡◌, ℕ, ◌<◌, ◌∷◌, ◌++◌, [], false, true, List, length};
ghost use Rattle.cache_ident.specs.Names.{first_name};
ghost use Rattle.cache_ident.specs.declared.idents.Ident.{Ident};
ghost use Rattle.cache_ident.specs.declared.names.Caps.{Caps};
ghost use Rattle.cache_ident.specs.declared.names.Name.{Name};
ghost use Rattle.quantum.specs.depend_lists.specs.declared.nodes.Node.{Node};
ghost use Rattle.quantum.specs.flat_state.specs.declared.events.Machine.{Machine};
ghost use Rattle.desc_tables.specs.run_journal.specs.Legal.{first_ident};
ghost use Rattle.desc_tables.specs.run_journal.specs.declared.entries.Entry.{Entry};
ghost use Rattle.desc_tables.specs.run_journal.specs.declared.entries.Entry.TheVariants.{Loaded, Locked, Sealed};
ghost use Rattle.desc_tables.specs.desc_stores.specs.Contents.{Contents};
ghost use Rattle.desc_tables.specs.desc_groups.specs.declared.departures.Gone.{Gone};
ghost use Rattle.desc_tables.specs.desc_groups.specs.Moves.{MayBeLocked};
ghost use Rattle.desc_tables.specs.desc_groups.specs.Whole.{AreWhole};
ghost use Rattle.board_laws.specs.Moves.{IsLoad, IsLock, written_back};
ghost use Rattle.board_laws.specs.Telling.{AreAsTold};

/// A load is told by the departures of what was displaced for it, at the places from the journal's length on, and by one entry
/// behind them.
pub fn a_load_is_told()
    ensures { (m : Machine) (memory : List ℕ) (caps : Caps) (old new : Contents) (before after : List (Ident × Node)) (j : List Entry) (name : Name) (keep : List Ident) (gone : List Gone) (ident : Ident) (cpu : ℕ)
        → AreAsTold m memory old true j → AreWhole caps old before → AreWhole caps new after → caps ≡ m.caps → cpu < 8
        → IsLoad caps old new name keep (length j) gone ident
        → AreAsTold m memory new true (j ++ (written_back cpu gone ++ Loaded ident name cpu ∷ [])) }
{}

/// The seal is told by three entries: behind it the first kernel is loaded, for which nothing leaves, and then locked.
pub fn the_seal_is_told()
    ensures first { (m : Machine) (memory : List ℕ) (caps : Caps) (old new : Contents) (pairs : List (Ident × Node)) (j : List Entry) (keep : List Ident) (at : ℕ) (gone : List Gone) (ident : Ident)
        → AreAsTold m memory old false j → AreWhole caps old pairs → IsLoad caps old new first_name keep at gone ident
        → (gone ≡ []) × (ident ≡ first_ident) }
    ensures sealed { (m : Machine) (memory : List ℕ) (caps : Caps) (old mid new : Contents) (before after : List (Ident × Node)) (j : List Entry) (keep : List Ident) (at : ℕ) (gone : List Gone)
        → AreAsTold m memory old false j → AreWhole caps old before → AreWhole caps mid after → caps ≡ m.caps
        → IsLoad caps old mid first_name keep at gone first_ident → MayBeLocked mid first_ident → IsLock mid new first_ident true
        → AreAsTold m memory new true (j ++ Sealed ∷ Loaded first_ident first_name 0 ∷ Locked first_ident 0 ∷ []) }
{}
