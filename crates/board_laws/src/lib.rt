//! Why each move of the tables, once it is written into the journal, keeps the journal legal, and keeps journal and tables telling
//! the same.
//!
//! Each is the contract of a function with an empty body.
#![tactic(auto)]

mod admitting;
mod declaring;
mod leaving;
mod loading;
mod locking;
mod opening;
mod running;
mod telling;

pub use admitting::{the_first_kernel_may_come, what_breaks_no_rule_may_be_declared};
pub use declaring::a_declaration_is_told;
pub use desc_tables::{Gone, Item, ItemRef, Names, Tables};
pub use leaving::a_group_that_leaves_is_told;
pub use loading::{a_load_is_told, the_seal_is_told};
pub use locking::a_lock_is_told;
pub use opening::the_first_kernel_stays;
pub use quantum::{PageView, Part, Paused, Quantum};
pub use running::{a_call_is_told, a_quantum_is_told, steps_are_told};
pub use telling::{what_is_told_is_so, what_shows_nothing_new_is_told};
