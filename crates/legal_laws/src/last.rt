//! What has to come, and what is leaving.

ghost use Rattle.std.specs.Prelude.{◌≡◌, ◌↔◌, List};
ghost use Rattle.group_laws.specs.run_journal.specs.declared.entries.Entry.{Entry};
ghost use Rattle.group_laws.specs.run_journal.specs.Told.{told, Due};
ghost use Rattle.legal_laws.specs.Last.{AreLeaving, IsNext};

/// What has to come next is said by the last entry, and for the first lock by whether it is the first load. What has left of a
/// group that goes on are the departures of dependents at the end of the journal, and what was resident before the group is what
/// the entries before them leave.
pub fn what_is_due_follows_from_the_last_entries()
    ensures due { (j : List Entry) (due : Due) → ((told j).due ≡ due) ↔ IsNext j due }
    ensures leaving { (j : List Entry) → AreLeaving j (told j).before (told j).left }
{}
