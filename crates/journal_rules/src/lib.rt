//! The rules of a legal journal that ask about the machine and what is resident: whether something stays good, whether a
//! thread may take its steps, and whether its call may be completed.
#![tactic(auto)]

mod calls;
mod follow;
mod names;
mod steps;

pub use calls::complete;
pub use flat_machine::Flat;
pub use follow::is_followed;
pub use names::{cap, class, has_parents, limit, owner, reliances, stands, stays_good};
pub use steps::{may_step, run};
