//! Descriptors come to their caches and leave them in groups, with what depends on what kept beside them, and are locked.
//!
//! The calls are over the contents of all kinds and the pairs of what depends on what, which the tables above keep as one.
#![tactic(auto)]

mod counts;
mod departures;
mod entering;
mod locks;
mod owners;
mod places;

pub use departures::{Gone, leave};
pub use desc_parents::{
    FoundItem, Item, ItemRef, Parents, ResidentPairs, Stores, kernel_of, parents_of,
};
pub use entering::enter;
pub use locks::{lock, unlock};
pub use places::there_are_places;
