//! What calls for a thread are answered.

ghost use Rattle.std.specs.Prelude.{◌≡◌, ◌<◌, ℕ, true, Some, None, slice_get};
ghost use Rattle.std.specs.Option.{option_map};
ghost use Rattle.cache_ident.specs.declared.idents.Ident.{Ident};
ghost use Rattle.cache_ident.specs.declared.names.Name.TheVariants as name;
ghost use Rattle.cache_ident.specs.declared.names.SpaceNo.{SpaceNo};
ghost use Rattle.cache_ident.specs.declared.names.ThreadNo.{ThreadNo};
ghost use Rattle.cache_ident.specs.Residents.{IsResident};
ghost use Rattle.phys_groups.specs.Rows.{row_name};
ghost use Rattle.board_calls.specs.flat_state.specs.declared.records.FlatThread.{FlatThread};
ghost use Rattle.board_calls.specs.flat_state.specs.Call.{is_completable};
ghost use Rattle.board_calls.specs.flat_state.specs.NextSteps.{faults, fetch_row};
ghost use Rattle.board_calls.specs.flat_state.specs.State.{is_ended, is_ready};
ghost use Rattle.board_calls.specs.run_journal.specs.Legal.{IsRowResident};
ghost use Rattle.board_calls.specs.desc_stores.specs.Contents.{residents_of};
ghost use Rattle.board_calls.specs.cached_machine.specs.Cached.{state_of};
ghost use Rattle.board_calls.specs.cached_machine.specs.Posts.{mark_of};
ghost use Rattle.board_calls.specs.board_core.specs.Core.{contents_of, IsSound, Recorded};
ghost use Rattle.board_calls.specs.Calls.{IsCompletion};
ghost use Rattle.board_calls.specs.board_checks.specs.Refusals.{refusal_of_complete};
ghost use Rattle.owner_laws.specs.board_threads.specs.Faults.{HasEnded};
ghost use Rattle.owner_laws.specs.board_threads.specs.Refusals.{refusal_of_fault};
ghost use Rattle.owner_laws.specs.owners.specs.Known.{Known};
ghost use Rattle.owner_laws.specs.owners.specs.Owning.{IsThreadOf};
ghost use Rattle.reach_laws.specs.Reaching.{IsOwned, IsReached};

/// A loaded thread, of a space that is reached, has its call completed where that can be, and its fault confirmed where its next
/// step faults and may be taken.
pub fn a_reached_thread_is_called_for()
    ensures completes { (b : Recorded) (o : Known) → IsOwned b o → (space : SpaceNo) (reached : IsReached b o space) (thread : ThreadNo) → IsThreadOf (state_of b.machine) space thread
        → (t : FlatThread) → slice_get (state_of b.machine).threads thread.0 ≡ Some t → (ident : Ident) → IsResident (residents_of (contents_of b)) ident (name.Thread thread)
        → is_completable t ≡ true → refusal_of_complete (contents_of b) reached.caller ident ≡ None }
    ensures confirms { (b : Recorded) (o : Known) → IsOwned b o → (space : SpaceNo) (reached : IsReached b o space) (thread : ThreadNo) → IsThreadOf (state_of b.machine) space thread
        → (t : FlatThread) → slice_get (state_of b.machine).threads thread.0 ≡ Some t → (ident : Ident) → IsResident (residents_of (contents_of b)) ident (name.Thread thread)
        → is_ready t.status ≡ true → mark_of (contents_of b) thread ≡ None → faults (state_of b.machine) t ≡ true
        → IsRowResident (residents_of (contents_of b)) (option_map row_name (fetch_row (state_of b.machine) t)) → b.steps < b.limit
        → refusal_of_fault b reached.caller ident ≡ None }
{}

/// The thread whose fault was confirmed has ended.
pub fn a_confirmed_fault_ends_the_thread()
    ensures { (b c : Recorded) (ident : Ident) (cpu : ℕ) (thread : ThreadNo) → IsSound b → IsSound c → HasEnded ident cpu b c → IsResident (residents_of (contents_of b)) ident (name.Thread thread)
        → (t u : FlatThread) → slice_get (state_of b.machine).threads thread.0 ≡ Some t → slice_get (state_of c.machine).threads thread.0 ≡ Some u → is_ended u.status ≡ true }
{}

/// A completion takes no step.
pub fn a_completion_takes_no_step()
    ensures { (cpu : ℕ) (ident : Ident) (b c : Recorded) → IsSound b → IsSound c → IsCompletion cpu ident b c → c.steps ≡ b.steps }
{}
