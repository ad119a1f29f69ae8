//! Sets of numbers below a length, a bit a number.
#![tactic(auto)]

mod bits;
mod set;

pub use set::NumberSet;
