//! Tests of runs that no text of `tests/` reaches: ends that fail, calls that no program makes, and what no clause says of processors
//! that share a board: that they run at the same time, that one of them takes its turns to the end, and that the board is free for
//! others while it runs ahead. They stand above all that they call, since a crate with tests in it is proved twice, from nothing both
//! times.
#![tactic(auto)]

#[cfg(test)]
mod calls_tests;
#[cfg(test)]
mod ends_tests;
#[cfg(test)]
mod gates;
#[cfg(test)]
mod late_tests;
#[cfg(test)]
mod parts_tests;
#[cfg(test)]
mod scenes;
#[cfg(test)]
mod sides_tests;
#[cfg(test)]
mod stop_tests;
#[cfg(test)]
mod unload_tests;
