//! What owners may note and learn of what a board tells them: laws.
//!
//! Each is the contract of a function with an empty body.
#![tactic(auto)]

mod learning;
mod noting;

pub use learning::{
    a_receiver_that_is_told_may_be_learnt, a_space_that_a_load_passes_may_be_learnt,
};
pub use noting::{
    owners_of_a_board_stay_so, what_is_loaded_may_be_noted, what_is_noted_names_what_is_loaded,
};
