//! The rules of the machine with unlimited tables that change it, over any tables: the next step of a thread with the
//! signals that it sends, and the completion of a thread's call.
#![tactic(auto)]

mod asked;
mod completions;
mod delivery;
mod steps;

pub use asked::{Asked, asks};
pub use completions::complete;
pub use steps::step;
