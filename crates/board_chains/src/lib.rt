//! What a thread's next step needs loaded, in the order in which it is loaded.
//!
//! A step needs its thread, the rows that its fetch and its data access go through, and all that these depend on. None of the
//! calls takes memory.
#![tactic(auto)]

mod above;
mod chains;
mod loads;
mod names;
mod ranks;

pub use chains::chain_of;
pub use loads::{Keep, loaded_among};
pub use names::Chain;
