//! The machine with unlimited tables as plain data: what is declared, what happens, and what there then is.
//!
//! The definitions of its rules stand in `specs/`. Nothing in this machine is ever displaced, so it is what every
//! run is compared with.
#![tactic(auto)]

mod events;
mod records;

pub use events::{Decl, Event, GREATEST_CAPS, MOST_DECLARED, MOST_WANTED, Machine, STEP_CAPS};
pub use records::{DataAccess, FlatKernel, FlatThread, NextStep, Settled, Signal};
