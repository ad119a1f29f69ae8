//! Declarations, the seal, and the completion of thread calls on the board's core.
//!
//! Each call tests first whether it may be done. It then takes the memory that it needs, and answers want of it before it answers
//! what the tests told.
#![tactic(auto)]

mod completions;
mod declarations;
mod laws;
mod leaving;

pub use completions::complete;
pub use declarations::{declare, seal};
pub use laws::{its_first_tests_are_those_of_a_call, what_is_unloaded_leaves_whole};
