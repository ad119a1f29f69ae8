//! Processors that share a board behind its lock.
#![tactic(auto)]

mod course;
mod gate;
mod holds;
mod lengths;
mod parts;
mod run;
mod sharing;
mod side_by_side;
mod waiting;

pub use alone_run::run_alone;
pub use alone_run::turns::{Board, Owners, Point, Quantum, views_for};
pub use gate::{Gate, NoGate};
pub use run::{Stop, run_processor};
pub use sharing::Sharing;
pub use side_by_side::run_side_by_side;
