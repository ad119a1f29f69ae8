//! What the tests of healing have in common with others.

ghost use Rattle.std.specs.Prelude.{◌≡◌};
ghost use Rattle.std.specs.Option.{option_or};
ghost use Rattle.cache_ident.specs.declared.names.ThreadNo.{ThreadNo};
ghost use Rattle.flat_state.specs.declared.records.FlatThread.{FlatThread};
ghost use Rattle.board_core.specs.Core.{contents_of, Recorded};
ghost use Rattle.board_core.specs.Refusals.{not_waiting};
ghost use Rattle.board_heal.specs.Refusals.{refusal_of_step, refusal_of_waiting};

/// The first two tests of a healing step are those of a thread that waits, which a confirmed fault makes too.
pub fn its_first_tests_are_those_of_waiting()
    ensures { (b : Recorded) (whom : ThreadNo) (t : FlatThread) → t.no ≡ whom → refusal_of_step b whom t ≡ option_or (not_waiting (contents_of b) t) (refusal_of_waiting b t) }
{}
