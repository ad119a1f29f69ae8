//! A sorted list whose room grows.
#![tactic(auto)]

mod list;
mod values;

pub use list::GrowingList;
pub use values::Values;
