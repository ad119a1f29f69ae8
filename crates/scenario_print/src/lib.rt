//! The text of a scenario that was read: plain declarations, whatever blocks of code and executables they came from.
#![tactic(auto)]

mod printing;

pub use printing::print;
