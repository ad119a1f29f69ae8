//! The contents of all kinds, by name: each descriptor stands in one place, in the cache of its kind or on the shelf of
//! its owner.
#![tactic(auto)]

mod items;
mod stores;

pub use items::{FoundItem, Item, ItemRef};
pub use stores::Stores;
