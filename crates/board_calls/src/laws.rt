//! What calls have in common with others.

ghost use Rattle.std.specs.Prelude.{◌≡◌, ℕ};
ghost use Rattle.std.specs.Option.{option_or};
ghost use Rattle.cache_ident.specs.declared.idents.Ident.{Ident};
ghost use Rattle.board_checks.specs.desc_stores.specs.Contents.{residents_of, Contents};
ghost use Rattle.board_checks.specs.desc_parents.specs.Seen.{seen};
ghost use Rattle.board_core.specs.board_laws.specs.Moves.{written_back};
ghost use Rattle.board_checks.specs.Refusals.{not_completable, refusal_of_complete, refusal_of_thread};
ghost use Rattle.board_core.specs.Core.{contents_of, Recorded};
ghost use Rattle.board_loads.specs.Holds.{IsUnloadedAs};
ghost use Rattle.board_calls.specs.Departures.{LeavesWhole};

/// The first tests of a completion are those of any call for a thread.
pub fn its_first_tests_are_those_of_a_call()
    ensures { (c : Contents) (caller thread : Ident) → refusal_of_complete c caller thread ≡ option_or (refusal_of_thread c caller thread) (not_completable c thread) }
{}

/// What an unload takes out leaves whole, as what leaves before a completion does.
pub fn what_is_unloaded_leaves_whole()
    ensures { (cpu : ℕ) (ident : Ident) (old new : Recorded) → IsUnloadedAs cpu ident old new → LeavesWhole (seen (contents_of old)) cpu ident (residents_of (contents_of old)) (written_back cpu new.machine.held.gone) (residents_of (contents_of new)) }
{}
