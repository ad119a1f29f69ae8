//! Laws of boards: how one goes on, and where each descriptor is.

ghost use Rattle.std.specs.Prelude.{ℕ};
ghost use Rattle.board_core.specs.Core.{IsSound, Recorded};
ghost use Rattle.board_core.specs.Going.{GoesOn, Grew, IsOneEvent};
ghost use Rattle.board_core.specs.Places.{IsInOnePlace};

/// Where nothing is done a board grew by nothing, and what grew twice grew.
pub fn what_grows_twice_grew()
    ensures nothing { (cpu : ℕ) (b : Recorded) → Grew cpu b b }
    ensures twice { (cpu : ℕ) (a b c : Recorded) → Grew cpu a b → Grew cpu b c → Grew cpu a c }
{}

/// Where nothing is done a board goes on, and so does one that goes on twice.
pub fn what_goes_on_twice_goes_on()
    ensures nothing { (cpu : ℕ) (b : Recorded) → GoesOn cpu b b }
    ensures twice { (cpu : ℕ) (a b c : Recorded) → GoesOn cpu a b → GoesOn cpu b c → GoesOn cpu a c }
{}

/// On a sound board nothing done is an event, and two events of one processor, one after the other, are one.
pub fn two_events_are_one()
    ensures nothing { (cpu : ℕ) (b : Recorded) → IsSound b → IsOneEvent cpu b b }
    ensures twice { (cpu : ℕ) (a b c : Recorded) → IsOneEvent cpu a b → IsOneEvent cpu b c → IsOneEvent cpu a c }
{}

/// On a sound board each descriptor is in exactly one place.
pub fn each_descriptor_is_in_one_place()
    ensures { (b : Recorded) → IsSound b → IsInOnePlace b }
{}
