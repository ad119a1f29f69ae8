//! One step of a user thread: what an instruction does to a context and to an address space.
#![tactic(auto)]

mod actions;
mod contexts;
mod decoded;
mod lines;
mod outputs;
mod spaces;
mod statuses;
mod steps;

pub use actions::{Action, action_for};
pub use contexts::Context;
pub use decoded::DecodedWords;
pub use outputs::{NoMemory, Output};
pub use spaces::{Hole, Space, Width};
pub use statuses::{Access, FaultKind, Misaligned, Reason, Status};
pub use steps::{Stepped, step};
