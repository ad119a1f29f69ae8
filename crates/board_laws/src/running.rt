//! Steps and completed calls.

ghost use Rattle.std.specs.Prelude.{◌≡◌, ℕ, ◌<◌, ◌∷◌, ◌++◌, [], false, true, List, Contains, Some, IsSome, slice_get};
ghost use Rattle.cache_ident.specs.Residents.{IsNameResident};
ghost use Rattle.cache_ident.specs.declared.idents.Ident.{Ident};
ghost use Rattle.cache_ident.specs.declared.names.Caps.{Caps};
ghost use Rattle.cache_ident.specs.declared.names.Name.TheVariants.{Mapping, Thread};
ghost use Rattle.cache_ident.specs.declared.names.ThreadNo.{ThreadNo};
ghost use Rattle.quantum.specs.depend_lists.specs.declared.nodes.Node.{Node};
ghost use Rattle.quantum.specs.flat_state.specs.declared.events.Event.TheVariants.{Complete};
ghost use Rattle.quantum.specs.flat_state.specs.declared.events.Machine.{Machine};
ghost use Rattle.quantum.specs.flat_state.specs.declared.records.FlatThread.{FlatThread};
ghost use Rattle.quantum.specs.flat_state.specs.Events.{after_event, applied};
ghost use Rattle.quantum.specs.page_views.specs.Views.{View};
ghost use Rattle.quantum.specs.Ahead.{Ahead};
ghost use Rattle.quantum.specs.LocalRun.{committed, touched_views, CouldRun, IsLocalRun};
ghost use Rattle.desc_tables.specs.run_journal.specs.Legal.{after_steps, MayStep};
ghost use Rattle.desc_tables.specs.run_journal.specs.declared.entries.Entry.{Entry};
ghost use Rattle.desc_tables.specs.run_journal.specs.declared.entries.Entry.TheVariants.{Completed, Ended, Ran};
ghost use Rattle.desc_tables.specs.desc_stores.specs.Contents.{Contents, residents_of};
ghost use Rattle.desc_tables.specs.shown_state.specs.Shown.{shown};
ghost use Rattle.desc_tables.specs.desc_groups.specs.Whole.{AreWhole};
ghost use Rattle.board_laws.specs.Moves.{KeepsLoaded};
ghost use Rattle.board_laws.specs.Telling.{AreAsTold};

/// Steps of a thread that is loaded are one entry, where none faults and the rows that each goes through are loaded. A step that
/// faults is an entry of its own.
pub fn steps_are_told()
    ensures ran { (m : Machine) (before after : List ℕ) (old new : Contents) (j : List Entry) (thread : ThreadNo) (steps cpu : ℕ)
        → AreAsTold m before old true j → cpu < 8 → 0 < steps → IsNameResident (residents_of old) (Thread thread)
        → ((n : ℕ) → n < steps → MayStep (after_steps (shown (Some m) before old) thread n) (residents_of old) thread false)
        → shown (Some m) after new ≡ after_steps (shown (Some m) before old) thread steps → KeepsLoaded old new
        → AreAsTold m after new true (j ++ Ran thread steps cpu ∷ []) }
    ensures ended { (m : Machine) (before after : List ℕ) (old new : Contents) (j : List Entry) (thread : ThreadNo) (cpu : ℕ)
        → AreAsTold m before old true j → cpu < 8 → IsNameResident (residents_of old) (Thread thread)
        → MayStep (shown (Some m) before old) (residents_of old) thread true
        → shown (Some m) after new ≡ after_steps (shown (Some m) before old) thread 1 → KeepsLoaded old new
        → AreAsTold m after new true (j ++ Ended thread cpu ∷ []) }
{}

/// Steps that were taken ahead of the machine are one entry as well, where they are a local run, the thread could have taken them in
/// the machine, and the row of each view that they touched is loaded.
pub fn a_quantum_is_told()
    ensures { (m : Machine) (before after : List ℕ) (old new : Contents) (j : List Entry) (thread : ThreadNo) (found : FlatThread) (ahead : Ahead) (cpu : ℕ)
        → AreAsTold m before old true j → cpu < 8 → 0 < ahead.steps → IsNameResident (residents_of old) (Thread thread)
        → IsLocalRun ahead → slice_get (shown (Some m) before old).threads thread.0 ≡ Some found → CouldRun (shown (Some m) before old) found ahead
        → ((view : View) → Contains (touched_views ahead.views) view → IsNameResident (residents_of old) (Mapping found.space view.vpn))
        → shown (Some m) after new ≡ committed (shown (Some m) before old) thread.0 found ahead → KeepsLoaded old new
        → AreAsTold m after new true (j ++ Ran thread ahead.steps cpu ∷ []) }
{}

/// A completed call of a thread that is loaded is one entry, where all that is loaded has what it depends on afterwards too, as it
/// has in tables that are whole.
pub fn a_call_is_told()
    ensures { (m : Machine) (before after : List ℕ) (caps : Caps) (old new : Contents) (pairs : List (Ident × Node)) (j : List Entry) (thread : ThreadNo) (cpu : ℕ)
        → AreAsTold m before old true j → AreWhole caps new pairs → cpu < 8 → IsNameResident (residents_of old) (Thread thread)
        → IsSome (after_event (shown (Some m) before old) (Complete thread)) → shown (Some m) after new ≡ applied (shown (Some m) before old) (Complete thread) → KeepsLoaded old new
        → AreAsTold m after new true (j ++ Completed thread cpu ∷ []) }
{}
