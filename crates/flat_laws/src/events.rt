//! Events that don't fit.

ghost use Rattle.std.specs.Prelude.{◌≡◌, ℕ, false, None, Some, slice_get};
ghost use Rattle.cache_ident.specs.declared.names.ThreadNo.{ThreadNo};
ghost use Rattle.flat_state.specs.declared.events.Decl.{Decl};
ghost use Rattle.flat_state.specs.declared.events.Event.{Event};
ghost use Rattle.flat_state.specs.declared.events.Event.TheVariants.{Declare, Step, Complete};
ghost use Rattle.flat_state.specs.declared.records.FlatThread.{FlatThread};
ghost use Rattle.flat_state.specs.State.{FlatState};
ghost use Rattle.flat_state.specs.Declaration.{broken_rule};
ghost use Rattle.flat_state.specs.Signals.{is_runnable};
ghost use Rattle.flat_state.specs.Call.{is_completable};
ghost use Rattle.flat_state.specs.Events.{after_event, applied};

/// An event that doesn't fit a state leaves it as it was: a declaration that breaks a rule, a step of a thread that
/// isn't runnable, and a completion of a thread whose call can't be completed. What is said of a thread holds too
/// where there is no thread of that number.
pub fn an_event_that_does_not_fit_changes_nothing()
    ensures event { (s : FlatState) (e : Event) → after_event s e ≡ None → applied s e ≡ s }
    ensures declaration { (s : FlatState) (d : Decl) (rule : ℕ) → broken_rule s d ≡ Some rule → applied s (Declare d) ≡ s }
    ensures step { (s : FlatState) (thread : ThreadNo) → ((t : FlatThread) → slice_get s.threads thread.0 ≡ Some t → is_runnable s t ≡ false) → applied s (Step thread) ≡ s }
    ensures completion { (s : FlatState) (thread : ThreadNo) → ((t : FlatThread) → slice_get s.threads thread.0 ≡ Some t → is_completable t ≡ false) → applied s (Complete thread) ≡ s }
{}
