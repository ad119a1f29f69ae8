//! What contracts see of the descriptors of a kind that aren't loaded: each stands with its owner, under its name.
#![tactic(auto)]

mod shelved;

pub use shelved::Shelved;
