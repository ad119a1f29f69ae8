//! The run of a board on one processor.
#![tactic(auto)]

mod run;

pub use board_turns as turns;
pub use board_turns::{Board, Owners, Quantum};
pub use run::run_alone;
