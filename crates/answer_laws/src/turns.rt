//! Whom a turn finds.

ghost use Rattle.std.specs.Prelude.{◌≡◌, ◌<◌, ◌≤◌, ℕ, false, None};
ghost use Rattle.cache_ident.specs.declared.names.ThreadNo.{ThreadNo};
ghost use Rattle.board_loads.specs.flat_state.specs.declared.records.Settled.TheVariants.{Running};
ghost use Rattle.board_loads.specs.flat_state.specs.Settling.{settled_of};
ghost use Rattle.ready_queue.specs.declared.Candidate.{Candidate};
ghost use Rattle.board_threads.specs.cached_machine.specs.Cached.{state_of};
ghost use Rattle.board_threads.specs.cached_machine.specs.Posts.{mark_of};
ghost use Rattle.board_threads.specs.board_core.specs.Core.{contents_of, Recorded};
ghost use Rattle.board_threads.specs.Tests.{completes, IsWanted};
ghost use Rattle.board_threads.specs.Waiting.{IsWaiting};

/// Where no thread is on a processor and the run isn't over, some thread is wanted, or some waits for a processor. So whoever
/// asks for both finds one of them.
pub fn a_running_board_has_somebody_to_serve()
    ensures { (b : Recorded) → settled_of (state_of b.machine) b.steps b.limit ≡ Running → ((no : ThreadNo) → mark_of (contents_of b) no ≡ None) → IsWanted b None → ((c : Candidate) → IsWaiting b c → ⊥) → ⊥ }
{}

/// Where no call can be completed and the run isn't over, a step is left.
pub fn a_step_is_left()
    ensures { (b : Recorded) → settled_of (state_of b.machine) b.steps b.limit ≡ Running → ((n : ℕ) → completes b n ≡ false) → b.steps ≤ b.limit → b.steps < b.limit }
{}
