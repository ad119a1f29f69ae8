//! Loads, unloads and locks on the board.
//!
//! Each call tests first whether it may be done, by what `board_checks` says of the tables as they are. It then takes the memory
//! that it needs, and answers want of it before it answers what the tests told.
#![tactic(auto)]

mod holds;
mod laws;
mod loads;

pub use holds::{lock, unload, unlock};
pub use laws::{a_lock_is_one_of_the_core, an_unload_is_one_of_the_core};
pub use loads::{load_kernel, load_mapping, load_space, load_thread};
