//! Names in the order in which they were declared.
#![tactic(auto)]

mod names;

pub use names::DeclaredNames;
