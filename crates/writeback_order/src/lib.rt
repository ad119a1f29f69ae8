//! What leaves together, and in which order.
#![tactic(auto)]

mod gathering;
mod scratches;

pub use scratches::{Scratch, one_order, order};
