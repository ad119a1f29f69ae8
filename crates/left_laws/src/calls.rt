//! How many threads are in a call, and what events make of that.

ghost use Rattle.std.specs.Prelude.{◌≡◌, ◌≤◌, ◌+◌, true, List, Some, slice_get, count_by};
ghost use Rattle.cache_ident.specs.declared.names.ThreadNo.{ThreadNo};
ghost use Rattle.board_core.specs.flat_state.specs.declared.events.Event.{Event};
ghost use Rattle.board_core.specs.flat_state.specs.declared.events.Event.TheVariants.{Complete};
ghost use Rattle.board_core.specs.flat_state.specs.declared.records.FlatThread.{FlatThread};
ghost use Rattle.board_core.specs.flat_state.specs.State.{FlatState};
ghost use Rattle.board_core.specs.flat_state.specs.Call.{is_completable};
ghost use Rattle.board_core.specs.flat_state.specs.Events.{applied, after_events};
ghost use Rattle.board_core.specs.run_journal.specs.Entries.{is_step};
ghost use Rattle.left_laws.specs.Left.{calls_in};

/// Events bring at most as many threads into a call as there are steps among them. This holds of every state.
pub fn events_bring_as_many_calls_as_steps()
    ensures { (s : FlatState) (es : List Event) → calls_in (after_events s es) ≤ calls_in s + count_by is_step es }
{}

/// Once a call that can be completed is, one thread less is in a call. This holds of every state.
pub fn a_completion_takes_one_call()
    ensures { (s : FlatState) (thread : ThreadNo) (t : FlatThread) → slice_get s.threads thread.0 ≡ Some t → is_completable t ≡ true → calls_in (applied s (Complete thread)) + 1 ≡ calls_in s }
{}
