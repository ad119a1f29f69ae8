//! Tests of what owners know, and of what they do for threads, call by call. They stand above it, since a crate with tests in it is
//! proved twice, from nothing both times.
#![tactic(auto)]

#[cfg(test)]
mod bound_tests;
#[cfg(test)]
mod calling_tests;
#[cfg(test)]
mod known_tests;
pub mod scenes;
#[cfg(test)]
mod serving_tests;
