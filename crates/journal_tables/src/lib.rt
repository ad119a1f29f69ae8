//! All that the checker of a journal keeps of what is resident: each with its identifier, its name and its lock, the slots of
//! each kind, what depends on what, which rows rely on what, and how many are locked.
#![tactic(auto)]

mod kind_slots;
mod laws;
mod locks;
mod tables;

pub use journal_rules as rules;
pub use journal_rules::Flat;
pub use laws::what_is_resident_stays_through_events;
pub use tables::Tables;
