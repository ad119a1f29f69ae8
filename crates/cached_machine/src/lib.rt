//! The machine whose descriptors stand in caches of fixed size or with their owners, as the rules see it.
//!
//! It meets `Records` and `Steps` of `flat_rules`, and `Reported` of `flat_report`, over the tables, memory and the sets of threads. So every rule that only
//! reads, and every step, is that of the machine with unlimited tables that it shows, and a step moves no descriptor.
#![tactic(auto)]

mod completing;
mod declaring;
mod machine;
mod moves;
mod posts;
mod processors;
mod reading;
mod records;
mod reported;
mod rooms;
mod stepping;
mod steps;

pub use board_laws::{Gone, ItemRef, Names, PageView, Paused, Quantum, Tables};
pub use flat_machine::events as events;
pub use machine::CachedMachine;
