//! What the next step over copied pages says of the machine's next step.
#![tactic(auto)]

ghost use Rattle.std.specs.Prelude.{◌≡◌, ◌⊎◌, ◌%◌, ◌&&◌, ℕ, true, false, List, Some, None, Contains, map, slice_get};
ghost use Rattle.phys_groups.specs.declared.rows.Row.{Row};
ghost use Rattle.phys_groups.specs.Translation.{through};
ghost use Rattle.flat_machine.specs.signal_pages.specs.Signals.{is_signalling};
ghost use Rattle.flat_machine.specs.rv32_exec.specs.declared.actions.Action.TheVariants.{Store};
ghost use Rattle.flat_machine.specs.rv32_exec.specs.declared.spaces.Width.TheVariants.{Word};
ghost use Rattle.flat_machine.specs.rv32_exec.specs.declared.statuses.Access.TheVariants.{Write};
ghost use Rattle.flat_machine.specs.flat_state.specs.NextSteps.{is_miss};
ghost use Rattle.flat_machine.specs.flat_state.specs.Signals.{full_among, next_action, receivers_of};
ghost use Rattle.flat_machine.specs.flat_state.specs.WellFormed.{IsWellFormed};
ghost use Rattle.ahead_laws.specs.Addresses.{address_of};
ghost use Rattle.ahead_laws.specs.Signalled.{signalled_by};
ghost use Rattle.flat_machine.specs.rv32_exec.specs.declared.contexts.Context.{Context};
ghost use Rattle.flat_machine.specs.rv32_exec.specs.declared.statuses.Access.{Access};
ghost use Rattle.flat_machine.specs.rv32_exec.specs.declared.statuses.Status.TheVariants.{Ready};
ghost use Rattle.flat_machine.specs.rv32_exec.specs.declared.steps.Stepped.TheVariants.{Miss};
ghost use Rattle.flat_machine.specs.rv32_exec.specs.Steps.{after_step as after_instruction};
ghost use Rattle.flat_machine.specs.flat_state.specs.declared.records.FlatThread.{FlatThread};
ghost use Rattle.flat_machine.specs.flat_state.specs.State.{FlatState};
ghost use Rattle.flat_machine.specs.flat_state.specs.Step.{after_step, faulted};
ghost use Rattle.flat_machine.specs.flat_state.specs.Translation.{reached, row_through};
ghost use Rattle.quantum.specs.page_views.specs.Views.{pages_of_views, view_through, View};
ghost use Rattle.quantum.specs.LocalRun.{Shows};

/// A step that is missed on copies of a ready thread's pages, by an access that doesn't translate, faults in the machine.
pub fn what_is_missed_faults()
    ensures { (s : FlatState) (n : ℕ) (t : FlatThread) (views : List View) (va : ℕ) (access : Access) → slice_get s.threads n ≡ Some t → t.status ≡ Ready
        → ((v : View) → Contains views v → Shows s t.space v v.present) → (after_instruction t.context (pages_of_views views)).answer ≡ Miss va access
        → row_through (reached s access t.space va) ≡ None → after_step s n ≡ Some (faulted s n t va access) }
{}

/// An access that is missed goes through no view.
pub fn what_is_missed_has_no_view()
    ensures { (context : Context) (views : List View) (va : ℕ) (access : Access) → (after_instruction context (pages_of_views views)).answer ≡ Miss va access
        → view_through views access va ≡ None }
{}

/// The access that is missed is the fetch, or goes to the one address that the next instruction asks for.
pub fn a_step_misses_at_pc_or_at_its_address()
    ensures { (context : Context) (views : List View) (va : ℕ) (access : Access) → (after_instruction context (pages_of_views views)).answer ≡ Miss va access
        → (va ≡ context.pc) ⊎ (address_of (next_action context (pages_of_views views)) ≡ Some va) }
{}

/// A store that signals, which is the next step over copies of a ready thread's pages, is the machine's next step, where all its
/// receivers have room: its word is in memory, the rows of the fetch and of the store have their marks, and the receivers have the
/// signal.
pub fn a_store_that_signals_is_the_next_step()
    ensures { (s : FlatState) (n : ℕ) (t : FlatThread) (views : List View) (va value : ℕ) (row : Row) → IsWellFormed s → slice_get s.threads n ≡ Some t → t.status ≡ Ready
        → ((v : View) → Contains views v → Shows s t.space v v.present) → next_action t.context (pages_of_views views) ≡ Some (Store va Word value)
        → is_miss (after_instruction t.context (pages_of_views views)).answer ≡ false → va % 4 ≡ 0 → reached s Write t.space va ≡ through row
        → (row.flags.m && is_signalling (va % 4096)) ≡ true → full_among s.threads (map (λ r. r.0) (receivers_of s row.frame)) ≡ None
        → after_step s n ≡ Some (signalled_by s n t va value row) }
{}
