//! Turns of a processor: whom it finds, what it does for that thread, and whom it finds next.
//!
//! A turn is written once, over whatever lets a processor reach the board: each call of that is one hold of the board. Whoever
//! has the board alone meets it here.
#![tactic(auto)]

mod alone;
mod committed;
mod found;
mod holds;
mod pace;
mod pacing;
mod point;
mod processor;
mod quanta;
mod turns;
mod views;

pub use app_kernel::{Alone, Board, Heard, Owners, Port, PortCall, Refused};
pub use cache_board::{Quantum, Ticket};
pub use committed::Committed;
pub use found::Found;
pub use holds::{allows, begin, commit_steps, find, leave_and_heal};
pub use pace::Pace;
pub use point::Point;
pub use processor::Processor;
pub use turns::turn;
pub use views::views_for;
