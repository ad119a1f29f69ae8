//! The descriptors of one kind: each is loaded, or stands on the shelf of its owner.
#![tactic(auto)]

mod seats;
mod store;

pub use store::{Found, KindStore};
