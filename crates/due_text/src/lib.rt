//! What the programs that read a scenario have in common before they write: how an input is read, why no text is due, and the lines
//! that each of them may write.
#![tactic(auto)]

mod input;
mod lines;

pub use input::{Input, NoText, read_input};
pub use lines::{scenario_fault_line, too_long_line};
