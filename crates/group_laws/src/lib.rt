//! Laws of lists of residents: what holds while a group leaves one after another, and as descriptors are loaded and locked.
//!
//! Each is the contract of a function with an empty body. They ask of a state only what they need of its rows, so they also
//! hold of states without a machine or memory, which no events reach.
#![tactic(auto)]

mod leaving;
mod locks;
mod ones;
mod staying;

pub use leaving::{a_group_leaves_from_below, what_left_is_not_resident};
pub use locks::{a_lock_that_is_there_changes_nothing, locks_are_counted};
pub use ones::{each_stays_one, idents_stay_apart};
pub use staying::{nothing_depends_on_what_is_new, what_stays_stays_good};
