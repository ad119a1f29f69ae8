//! The board of a scenario: a new board, with the scenario's declarations made on it.
#![tactic(auto)]

mod opening;

pub use opening::board_of;
pub use std::alloc::AllocError as NoMemory;
