//! What the instructions of M and Zaamo compute from two words.
#![tactic(auto)]

mod atomics;
mod products;

pub use atomics::{AmoOp, amo};
pub use products::{MulOp, mul_div};
