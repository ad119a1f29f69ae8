//! What a step may write, and what it may depend on.

ghost use Rattle.std.specs.Prelude.{◌≡◌, ◌≢◌, ℕ, length, Some, slice_get, slice_index};
ghost use Rattle.flat_state.specs.declared.records.FlatThread.{FlatThread};
ghost use Rattle.flat_state.specs.State.{FlatState};
ghost use Rattle.flat_state.specs.Step.{after_step};
ghost use Rattle.flat_state.specs.Translation.{rights_of};
ghost use Rattle.flat_laws.specs.Rights.{AgreeAfterBoth, AgreeFor, MayWrite};

/// A step changes a byte only in a page group whose write bit the thread's kernel has, and memory keeps its size. This
/// holds of every state, also of one that no events make.
pub fn a_step_writes_where_it_may()
    ensures bytes { (s u : FlatState) (n : ℕ) (t : FlatThread) → slice_get s.threads n ≡ Some t → after_step s n ≡ Some u
        → (place : ℕ) → slice_index u.memory place ≢ slice_index s.memory place → MayWrite (rights_of s t.space) place }
    ensures size { (s u : FlatState) (n : ℕ) → after_step s n ≡ Some u → length u.memory ≡ length s.memory }
{}

/// What comes of a step depends on bytes alone whose page group's read bit the thread's kernel has. Where two states
/// differ in other bytes at most, a thread's step fits both or neither, and makes of them two states that agree in
/// everything but memory. A byte that it changes in one of the two memories is the same in both afterwards.
pub fn a_step_depends_on_what_it_may_read()
    ensures { (s v : FlatState) (n : ℕ) (t : FlatThread) → slice_get s.threads n ≡ Some t → AgreeFor (rights_of s t.space) s v
        → AgreeAfterBoth s v (after_step s n) (after_step v n) }
{}
