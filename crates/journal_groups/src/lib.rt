//! What leaves together: the dependents that have left since a group began, and whether they and what leaves last are a group.
#![tactic(auto)]

mod gone;
mod group;

pub use group::Group;
pub use journal_tables::{Flat, Tables, rules as rules};
