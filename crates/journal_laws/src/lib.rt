//! Laws of legal journals beyond their growth: what a completed call can touch, what stays of residents that are whole,
//! and when what left is a group.
//!
//! Each is the contract of a function with an empty body.
#![tactic(auto)]

mod calls;
mod leaving;
mod staying;

pub use calls::a_call_touches_few;
pub use leaving::a_group_is_what_lacks_a_parent;
pub use staying::what_stays_good_depends_on_the_same;
