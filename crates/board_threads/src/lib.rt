//! Threads that go to processors and come back, their faults, and how the run stands, on the board's core.
#![tactic(auto)]

mod checkouts;
mod faults;
mod known;
mod standing;
mod tickets;

pub use board_checks::thread_as;
pub use board_core::{
    Answer, Core, ItemRef, Names, Op, PageView, Quantum, Refused, Tables, check_steps,
    check_waiting,
};
pub use checkouts::{checkout, clear_marks, leave};
pub use faults::confirm_fault;
pub use known::record_of;
pub use standing::{settled, want};
pub use tickets::Ticket;
