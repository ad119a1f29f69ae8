//! What the checker says of what the program writes.

ghost use Rattle.std.specs.Prelude.{◌≡◌, List, ℕ, Option, Some};
ghost use Rattle.flat_state.specs.declared.events.Decl.{Decl};
ghost use Rattle.flat_state.specs.declared.records.Settled.{Settled};
ghost use Rattle.flat_state.specs.Events.{flat};
ghost use Rattle.flat_state.specs.Settling.{settled_of};
ghost use Rattle.run_journal.specs.Entries.{erase, steps_in};
ghost use Rattle.board_opening.specs.board_core.specs.Core.{Recorded};
ghost use Rattle.check_mode.specs.Answers.{HasLegalJournal};
ghost use Rattle.run_words.specs.declared.options.Options.{Options};
ghost use Rattle.proc_run.specs.declared.outcome.Kept.{Kept};
ghost use Rattle.proc_run.specs.declared.outcome.RunStatus.{RunStatus};
ghost use Rattle.proc_run.specs.Outcomes.{IsDue, IsLegalAt};
ghost use Rattle.proc_run.specs.Printed.{printed_run, AskForCheck, IsReturned, IsShortEnough};

/// The checker accepts what the program writes: the journal of a run that `run_machine` returned, printed behind its printed scenario,
/// is found legal in mode check, and its run is settled there as it was, at the same limit of steps, where both texts together are no
/// longer than an input may be. As with every input, memory may run out, and the source or the sink fail.
pub fn what_a_run_writes_is_found_legal()
    ensures legal { (words : List (List ℕ)) (o : Options) (ds : List Decl) (how : Settled) (b : Recorded) → IsReturned words o ds how b
        → HasLegalJournal (printed_run ds b.journal.entries) ds b.journal.entries }
    ensures settled { (words : List (List ℕ)) (o : Options) (ds : List Decl) (how : Settled) (b : Recorded) → IsReturned words o ds how b
        → settled_of (flat (erase b.journal.entries)) (steps_in b.journal.entries) o.steps ≡ how }
    ensures accepted { (words again : List (List ℕ)) (o : Options) (ds : List Decl) (how : Settled) (b : Recorded) → IsReturned words o ds how b
        → AskForCheck again o.steps → IsShortEnough ds b.journal.entries
        → (left : Option (List ℕ)) (status : RunStatus) (k : Kept) (text : List ℕ) → IsDue again (Some (printed_run ds b.journal.entries)) left status k text → IsLegalAt how status }
{}
