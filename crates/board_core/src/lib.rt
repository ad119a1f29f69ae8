//! The core of the board: the machine with caches and the journal of all that happens to it, as one, with the moves that every
//! operation is made of. Each move writes its entries.
#![tactic(auto)]

mod checks;
mod core_record;
mod laws;
mod opening;
mod places;
mod processors;
mod rooms;
mod running;
mod taking_over;

pub use board_ops::{Answer, Op, Refused};
pub use cached_machine::{
    CachedMachine, ItemRef, Names, PageView, Quantum, Tables, events as events,
};
pub use checks::{check_away, check_ready, check_steps, check_waiting};
pub use core_record::Core;
pub use laws::{
    each_descriptor_is_in_one_place, two_events_are_one, what_goes_on_twice_goes_on,
    what_grows_twice_grew,
};
