//! The board by hand as text: an operation on the board from its line, and the line of an answer.
#![tactic(auto)]

mod answers;
mod lines;
mod ops;
mod printing;
mod reading;
mod refusals;

pub use answers::put_answer;
pub use lines::Line;
pub use reading::{ReadLine, read_line};
pub use std::alloc::AllocError as NoMemory;
