//! What application kernels know of their descriptors, and when it is so of a journal.
#![tactic(auto)]

mod laws;
mod owners;

pub use laws::{owners_stay_owners, what_is_so_may_be_learnt};
pub use owners::Owners;
