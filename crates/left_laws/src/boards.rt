//! What is left of a run on a board.

ghost use Rattle.std.specs.Prelude.{◌≡◌, ◌+◌, ◌≤◌, ℕ, true, List, Some, slice_get};
ghost use Rattle.cache_ident.specs.declared.names.ThreadNo.{ThreadNo};
ghost use Rattle.board_core.specs.flat_state.specs.declared.events.Event.TheVariants.{Complete};
ghost use Rattle.board_core.specs.flat_state.specs.declared.records.FlatThread.{FlatThread};
ghost use Rattle.board_core.specs.flat_state.specs.Call.{is_completable};
ghost use Rattle.board_core.specs.flat_state.specs.Events.{applied};
ghost use Rattle.board_core.specs.run_journal.specs.declared.entries.Entry.{Entry};
ghost use Rattle.board_core.specs.run_journal.specs.Entries.{steps_in};
ghost use Rattle.board_core.specs.cached_machine.specs.Cached.{state_of};
ghost use Rattle.board_core.specs.Core.{IsSound, Recorded};
ghost use Rattle.board_core.specs.Going.{IsOneEvent};
ghost use Rattle.board_core.specs.Growth.{GrowsBy};
ghost use Rattle.left_laws.specs.Left.{left};

/// Where a board grew, what is left of the run fell by as many as the steps that were taken, at least. So nothing that is done on a
/// board raises it, and each step lowers it.
pub fn what_is_left_falls()
    ensures grown { (es : List Entry) (old new : Recorded) → GrowsBy es old new → IsSound old → IsSound new → left new + steps_in es ≤ left old }
    ensures event { (cpu : ℕ) (old new : Recorded) → IsOneEvent cpu old new → left new + new.steps ≤ left old + old.steps }
{}

/// A board that shows what another one does but for a call that was completed, with as many steps taken and to be taken, has one
/// less left.
pub fn a_completion_leaves_less()
    ensures { (thread : ThreadNo) (t : FlatThread) (old new : Recorded) → slice_get (state_of old.machine).threads thread.0 ≡ Some t → is_completable t ≡ true
        → state_of new.machine ≡ applied (state_of old.machine) (Complete thread) → new.steps ≡ old.steps → new.limit ≡ old.limit → left new + 1 ≡ left old }
{}
