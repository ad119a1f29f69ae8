//! Through which rows a step goes, and which bits it leaves there.

ghost use Rattle.std.specs.Prelude.{◌≡◌, ℕ, ◌%◌, true, false, is_some, List, map, Some, slice_get};
ghost use Rattle.rv32_ma.specs.declared.atomics.AmoOp.{AmoOp};
ghost use Rattle.flat_state.specs.rv32_exec.specs.declared.statuses.Access.TheVariants.{Write};
ghost use Rattle.flat_state.specs.rv32_exec.specs.declared.actions.Action.{Action};
ghost use Rattle.flat_state.specs.rv32_exec.specs.declared.actions.Action.TheVariants.{Atomic};
ghost use Rattle.flat_state.specs.declared.events.Event.{Event};
ghost use Rattle.flat_state.specs.declared.records.DataAccess.{DataAccess};
ghost use Rattle.flat_state.specs.declared.records.FlatThread.{FlatThread};
ghost use Rattle.flat_state.specs.State.{FlatState};
ghost use Rattle.flat_state.specs.Translation.{reached, row_through};
ghost use Rattle.flat_state.specs.Pages.{pages_of};
ghost use Rattle.flat_state.specs.Signals.{next_action};
ghost use Rattle.flat_state.specs.Step.{after_step};
ghost use Rattle.flat_state.specs.Events.{flat};
ghost use Rattle.flat_state.specs.NextSteps.{data_access, data_row, faults, fetch_row};
ghost use Rattle.flat_laws.specs.Marks.{marked_by};

/// A step that doesn't fault marks its fetch row and its data row, and every other row stays as it was; a step that
/// faults leaves all rows. The `marks` hold in each state that events can reach, the other clauses in every state.
pub fn a_step_marks_its_rows()
    ensures marks { (es : List Event) (n : ℕ) (t : FlatThread) (u : FlatState) → slice_get (flat es).threads n ≡ Some t → after_step (flat es) n ≡ Some u
        → faults (flat es) t ≡ false → u.rows ≡ map (marked_by (flat es) t) (flat es).rows }
    ensures faulting { (s u : FlatState) (n : ℕ) (t : FlatThread) → slice_get s.threads n ≡ Some t → after_step s n ≡ Some u → faults s t ≡ true → u.rows ≡ s.rows }
{}

/// Where a step doesn't fault there is a fetch row, and a data row where it makes an access to data. Both accesses of
/// an atomic action go through that one row. This holds of every state, also of one that no events make.
pub fn a_step_goes_through_its_rows()
    ensures fetch { (s : FlatState) (t : FlatThread) → faults s t ≡ false → is_some (fetch_row s t) ≡ true }
    ensures access { (s : FlatState) (t : FlatThread) (a : Action) (d : DataAccess) → faults s t ≡ false → next_action t.context (pages_of s t.space) ≡ Some a
        → data_access a ≡ Some d → is_some (data_row s t) ≡ true }
    ensures atomic { (s : FlatState) (t : FlatThread) (rd va : ℕ) (op : AmoOp) (operand : ℕ) → faults s t ≡ false
        → next_action t.context (pages_of s t.space) ≡ Some (Atomic rd va op operand) → va % 4 ≡ 0 → row_through (reached s Write t.space va) ≡ data_row s t }
{}
