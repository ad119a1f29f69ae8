//! What owners reach on a board that they walk over: laws.
//!
//! Each is the contract of a function with an empty body. A load that is asked for by what is reached is done, or told as done, or
//! wants memory; and what it depends on is reached still.
#![tactic(auto)]

mod calls;
mod loads;
mod owned;
mod refusals;
mod rows;
mod stays;

pub use calls::{
    a_completion_takes_no_step, a_confirmed_fault_ends_the_thread, a_reached_thread_is_called_for,
};
pub use loads::{
    a_kernel_is_got, a_row_is_got, a_space_is_got, a_thread_is_found, a_thread_is_got,
};
pub use owned::{
    owners_of_a_board_stay_owners, what_is_reached_stays, what_owners_believe_is_shown,
};
pub use refusals::{a_mapped_step_does_not_fault, a_row_is_refused_rightly};
pub use rows::{a_fillable_page_is_filled, an_unfillable_page_is_told};
pub use stays::{a_load_keeps_what_is_reached, a_plain_row_stays};
