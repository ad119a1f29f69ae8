//! What can be asked of the board, what it answers, and why it refuses: types alone.
#![tactic(auto)]

mod answers;
mod ops;
mod refusals;

pub use answers::Answer;
pub use ops::Op;
pub use refusals::Refused;
