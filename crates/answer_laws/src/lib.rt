//! What the calls of the board answer whose identifiers are live and of their kinds, what a load keeps, and whom a turn finds: laws.
//!
//! Each is the contract of a function that does nothing. A call is refused then for what the flat reading and the caches
//! tell, and not for its identifiers.
#![tactic(auto)]

mod calls;
mod keeping;
mod loads;
mod turns;

pub use calls::{a_call_is_completed, a_fault_is_confirmed};
pub use keeping::a_load_keeps_all_that_it_depends_on;
pub use loads::{
    a_kernel_is_loaded, a_page_without_a_row, a_row_is_loaded, a_space_is_loaded,
    a_thread_is_loaded, what_is_refused_as_loaded,
};
pub use turns::{a_running_board_has_somebody_to_serve, a_step_is_left};
