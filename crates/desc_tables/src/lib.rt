//! The tables: every descriptor that stands, in its cache or with its owner, and its moves between the two.
//!
//! Above them nobody sees a slot, an index or a pair.
#![tactic(auto)]

mod names;
mod tables;

pub use desc_groups::{FoundItem, Gone, Item, ItemRef, Parents};
pub use names::Names;
pub use tables::Tables;
