//! The healing step: all that a thread's next step needs is loaded, and the step is taken, as one event.
//!
//! So no displacement by others, before the call or between two calls, can make the step impossible.
#![tactic(auto)]

mod checks;
mod healing;
mod laws;
mod loads;

pub use healing::heal_step;
pub use laws::its_first_tests_are_those_of_waiting;
