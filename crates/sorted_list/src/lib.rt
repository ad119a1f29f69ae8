//! A sorted list in memory that is made beforehand: searched and changed in logarithmic time.
#![tactic(auto)]

mod fixed;
mod nodes;
mod run;
mod search;
mod sorted;

pub use run::Run;
pub use sorted::SortedList;
