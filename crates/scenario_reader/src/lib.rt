//! Reads the text of a scenario: the declarations of one machine.
#![tactic(auto)]

mod blocks;
mod fault;
mod opening;
mod places;
mod reader;
mod scenario;
mod standing;

pub use fault::ScenarioFault;
pub use opening::read_opening;
pub use scenario::{Scenario, read};
