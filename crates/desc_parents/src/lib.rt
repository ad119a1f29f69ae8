//! What a descriptor depends on, by the identifiers of what is loaded, and whether a row is fit.
#![tactic(auto)]

mod fits;
mod found;

pub use fits::kernel_of;
pub use found::{Parents, parents_of};
pub use store_residents::{FoundItem, Item, ItemRef, ResidentPairs, Stores};
