//! What a run can still do, at most: laws. Steps are taken up to a limit, each brings at most one call, and a completion takes one;
//! so a number that falls with both is a measure of a run.
//!
//! Each is the contract of a function that does nothing.
#![tactic(auto)]

mod boards;
mod calls;

pub use boards::{a_completion_leaves_less, what_is_left_falls};
pub use calls::{a_completion_takes_one_call, events_bring_as_many_calls_as_steps};
