//! Whether a journal is legal and begins with the declarations of a scenario, and where it first breaks a rule.
#![tactic(auto)]

mod checking;
mod places;

pub use checking::{Verdict, check};
pub use flat_machine::{Flat, NoMemory};
