//! What the tables are of while nothing comes or goes.

ghost use Rattle.std.specs.Prelude.{◌≡◌, ℕ, [], List};
ghost use Rattle.cache_ident.specs.declared.names.ThreadNo.{ThreadNo};
ghost use Rattle.residents.specs.flat_state.specs.declared.events.Decl.{Decl};
ghost use Rattle.residents.specs.flat_state.specs.declared.events.Event.{Event};
ghost use Rattle.residents.specs.flat_state.specs.Events.{flat};
ghost use Rattle.residents.specs.run_journal.specs.declared.entries.Entry.TheVariants as entries;
ghost use Rattle.residents.specs.run_journal.specs.Legal.{MayComplete, MayEnd, MayRun};
ghost use Rattle.residents.specs.run_journal.specs.Told.{Told, told_after};
ghost use Rattle.journal_tables.specs.declared.tables.Tables.{Tables};
ghost use Rattle.journal_tables.specs.Tables.{AreOf};

/// Tables stay of what is told while a legal journal declares, seals, takes steps and completes calls: none of these changes who
/// owns what is resident, what it depends on, or the frame of a row. Of a completed call this holds of every state that events
/// can reach.
pub fn what_is_resident_stays_through_events()
    ensures declared { (tables : Tables) (k : Told) (d : Decl) → AreOf tables k → k.residents ≡ [] → AreOf tables (told_after k (entries.Declared d)) }
    ensures sealed { (tables : Tables) (k : Told) → AreOf tables k → AreOf tables (told_after k entries.Sealed) }
    ensures ran { (tables : Tables) (k : Told) (thread : ThreadNo) (steps cpu : ℕ) → AreOf tables k → MayRun k thread steps → AreOf tables (told_after k (entries.Ran thread steps cpu)) }
    ensures ended { (tables : Tables) (k : Told) (thread : ThreadNo) (cpu : ℕ) → AreOf tables k → MayEnd k thread → AreOf tables (told_after k (entries.Ended thread cpu)) }
    ensures completed { (tables : Tables) (k : Told) (es : List Event) (thread : ThreadNo) (cpu : ℕ) → k.state ≡ flat es → AreOf tables k → MayComplete k thread → AreOf tables (told_after k (entries.Completed thread cpu)) }
{}
