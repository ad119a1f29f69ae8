//! Tests of the board, call by call, and of its choice among threads. They stand above it, since a crate with tests in it is proved
//! twice, from nothing both times.
#![tactic(auto)]

#[cfg(test)]
mod board_tests;
#[cfg(test)]
mod choice_tests;
pub mod machines;
#[cfg(test)]
mod refusal_tests;
