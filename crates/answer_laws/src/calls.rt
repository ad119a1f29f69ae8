//! What a completion and a confirmed fault are answered.

ghost use Rattle.std.specs.Prelude.{◌≡◌, ◌<◌, true, Some, None, slice_get};
ghost use Rattle.std.specs.Option.{option_map, option_or};
ghost use Rattle.cache_ident.specs.declared.idents.Ident.{Ident};
ghost use Rattle.cache_ident.specs.declared.names.KernelNo.{KernelNo};
ghost use Rattle.cache_ident.specs.declared.names.Name.TheVariants as name;
ghost use Rattle.cache_ident.specs.declared.names.ThreadNo.{ThreadNo};
ghost use Rattle.cache_ident.specs.Residents.{IsResident};
ghost use Rattle.phys_groups.specs.Rows.{row_name};
ghost use Rattle.board_loads.specs.flat_state.specs.declared.records.FlatThread.{FlatThread};
ghost use Rattle.board_loads.specs.flat_state.specs.Call.{is_completable};
ghost use Rattle.board_loads.specs.flat_state.specs.NextSteps.{faults, fetch_row};
ghost use Rattle.board_loads.specs.flat_state.specs.State.{is_ready};
ghost use Rattle.board_threads.specs.run_journal.specs.Legal.{IsRowResident};
ghost use Rattle.board_threads.specs.desc_stores.specs.Contents.{residents_of, Contents};
ghost use Rattle.board_threads.specs.desc_stores.specs.Sound.{IsExactlyOne};
ghost use Rattle.board_loads.specs.desc_parents.specs.Seen.{seen};
ghost use Rattle.board_threads.specs.cached_machine.specs.Cached.{state_of};
ghost use Rattle.board_threads.specs.cached_machine.specs.Posts.{mark_of};
ghost use Rattle.board_threads.specs.board_core.specs.Core.{contents_of, Recorded};
ghost use Rattle.board_threads.specs.board_checks.specs.Refusals.{not_owner, not_trapped, refusal_of_complete, wait_empty};
ghost use Rattle.board_threads.specs.Refusals.{refusal_of_ending, refusal_of_fault};

/// A completion for a loaded thread is refused where the caller isn't the kernel of its space, or where the thread is in no
/// call that can be completed. That of a completable thread by its kernel is done.
pub fn a_call_is_completed()
    ensures answer { (c : Contents) → IsExactlyOne c → (caller ident : Ident) (given kernel : KernelNo) (thread : ThreadNo) (t : FlatThread)
        → IsResident (residents_of c) caller (name.Kernel given) → IsResident (residents_of c) ident (name.Thread thread)
        → slice_get (seen c).threads thread.0 ≡ Some t → slice_get (seen c).spaces t.space.0 ≡ Some kernel
        → refusal_of_complete c caller ident ≡ option_or (not_owner given kernel) (option_or (not_trapped t) (wait_empty t)) }
    ensures right { (c : Contents) → IsExactlyOne c → (caller ident : Ident) (kernel : KernelNo) (thread : ThreadNo) (t : FlatThread)
        → IsResident (residents_of c) caller (name.Kernel kernel) → IsResident (residents_of c) ident (name.Thread thread)
        → slice_get (seen c).threads thread.0 ≡ Some t → slice_get (seen c).spaces t.space.0 ≡ Some kernel → is_completable t ≡ true
        → refusal_of_complete c caller ident ≡ None }
{}

/// A fault of a loaded thread is refused where the caller isn't the kernel of its space, or for what the thread and its next
/// step are. Its kernel's call is done where the thread is ready and no processor has it, its next step faults, the row that it
/// fetches through, if any, is loaded, and a step is left.
pub fn a_fault_is_confirmed()
    ensures answer { (b : Recorded) → IsExactlyOne (contents_of b) → (caller ident : Ident) (given kernel : KernelNo) (thread : ThreadNo) (t : FlatThread)
        → IsResident (residents_of (contents_of b)) caller (name.Kernel given) → IsResident (residents_of (contents_of b)) ident (name.Thread thread)
        → slice_get (state_of b.machine).threads thread.0 ≡ Some t → slice_get (state_of b.machine).spaces t.space.0 ≡ Some kernel
        → refusal_of_fault b caller ident ≡ option_or (not_owner given kernel) (refusal_of_ending b t) }
    ensures right { (b : Recorded) → IsExactlyOne (contents_of b) → (caller ident : Ident) (kernel : KernelNo) (thread : ThreadNo) (t : FlatThread)
        → IsResident (residents_of (contents_of b)) caller (name.Kernel kernel) → IsResident (residents_of (contents_of b)) ident (name.Thread thread)
        → slice_get (state_of b.machine).threads thread.0 ≡ Some t → slice_get (state_of b.machine).spaces t.space.0 ≡ Some kernel
        → is_ready t.status ≡ true → mark_of (contents_of b) thread ≡ None → faults (state_of b.machine) t ≡ true
        → IsRowResident (residents_of (contents_of b)) (option_map row_name (fetch_row (state_of b.machine) t)) → b.steps < b.limit
        → refusal_of_fault b caller ident ≡ None }
{}
