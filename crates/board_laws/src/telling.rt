//! What follows where journal and tables tell the same.

ghost use Rattle.std.specs.Prelude.{◌≡◌, ℕ, Bool, List, Some};
ghost use Rattle.cache_ident.specs.Rolls.{standing_in};
ghost use Rattle.cache_ident.specs.declared.idents.Ident.{Ident};
ghost use Rattle.quantum.specs.flat_state.specs.declared.events.Machine.{Machine};
ghost use Rattle.quantum.specs.flat_state.specs.Events.{flat};
ghost use Rattle.quantum.specs.flat_state.specs.WellFormed.{IsWellFormed};
ghost use Rattle.desc_tables.specs.run_journal.specs.declared.entries.Entry.{Entry};
ghost use Rattle.desc_tables.specs.run_journal.specs.Entries.{erase};
ghost use Rattle.desc_tables.specs.run_journal.specs.Standing.{StandsAs};
ghost use Rattle.desc_tables.specs.desc_stores.specs.Contents.{Contents};
ghost use Rattle.desc_tables.specs.shown_state.specs.Shown.{shown};
ghost use Rattle.board_laws.specs.Moves.{KeepsLoaded, ShowsTheSame};
ghost use Rattle.board_laws.specs.Telling.{AreAsTold};

/// The machine that the contents show is the one that the journal's events make, and so is one that events can reach. An identifier
/// that has left by the roll has left by the entry at that place of the journal, and one that was never issued was never loaded.
pub fn what_is_told_is_so()
    ensures state { (m : Machine) (memory : List ℕ) (c : Contents) (sealed : Bool) (j : List Entry) → AreAsTold m memory c sealed j → shown (Some m) memory c ≡ flat (erase j) }
    ensures formed { (m : Machine) (memory : List ℕ) (c : Contents) (sealed : Bool) (j : List Entry) → AreAsTold m memory c sealed j → IsWellFormed (shown (Some m) memory c) }
    ensures standing { (m : Machine) (memory : List ℕ) (c : Contents) (sealed : Bool) (j : List Entry) (ident : Ident) → AreAsTold m memory c sealed j → StandsAs j ident (standing_in c.issued ident) }
{}

/// Where contents show what they showed, and the same is loaded, nothing is to be written: so where room was made, where a
/// processor took a thread or gave it back, and where only a count of locks changed.
pub fn what_shows_nothing_new_is_told()
    ensures { (m : Machine) (memory : List ℕ) (old new : Contents) (sealed : Bool) (j : List Entry) → AreAsTold m memory old sealed j → ShowsTheSame old new → KeepsLoaded old new → AreAsTold m memory new sealed j }
{}
