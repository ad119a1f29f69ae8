//! What a completed call leaves of what is resident.

ghost use Rattle.std.specs.Prelude.{List};
ghost use Rattle.cache_ident.specs.declared.names.ThreadNo.{ThreadNo};
ghost use Rattle.cache_ident.specs.Residents.{Resident};
ghost use Rattle.run_journal.specs.flat_state.specs.declared.events.Event.TheVariants.{Complete};
ghost use Rattle.run_journal.specs.flat_state.specs.State.{FlatState};
ghost use Rattle.run_journal.specs.flat_state.specs.Events.{applied};
ghost use Rattle.run_journal.specs.Legal.{StaysGood};
ghost use Rattle.journal_laws.specs.Touching.{Touches};

/// A completed call touches the rows of the frame to which it adds a row, the row that it takes away, or the rows of the
/// page group on which it sets rights. Every other resident that stands, is fit and has all that it depends on is so
/// afterwards too. This holds of every state.
pub fn a_call_touches_few()
    ensures { (s : FlatState) (thread : ThreadNo) (rs : List Resident) (r : Resident) → StaysGood s rs r → (Touches s thread r.name → ⊥) → StaysGood (applied s (Complete thread)) rs r }
{}
