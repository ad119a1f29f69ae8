//! What stands at each place of a legal journal, and what is left of it once erased.

ghost use Rattle.std.specs.Prelude.{◌≡◌, ℕ, List, Some, slice_get, take};
ghost use Rattle.group_laws.specs.run_journal.specs.declared.entries.Entry.{Entry};
ghost use Rattle.group_laws.specs.run_journal.specs.Entries.{erase};
ghost use Rattle.group_laws.specs.run_journal.specs.Legal.{IsLegal, MayCome};
ghost use Rattle.group_laws.specs.run_journal.specs.Told.{told};
ghost use Rattle.legal_laws.specs.Fitting.{EachFits};

/// Each event of a legal journal, erased, fits the machine with unlimited tables that the events before it make: each
/// declaration breaks no rule, each step is of a thread that may take one, and each call that is completed can be. So `flat`,
/// which passes over an event that doesn't fit, passes over none.
pub fn each_event_fits()
    ensures { (j : List Entry) → IsLegal j → EachFits (erase j) }
{}

/// The entry at each place of a legal journal may come on what the entries before it tell.
pub fn each_entry_may_come()
    ensures { (j : List Entry) (at : ℕ) (e : Entry) → IsLegal j → slice_get j at ≡ Some e → MayCome (told (take at j)) e }
{}
