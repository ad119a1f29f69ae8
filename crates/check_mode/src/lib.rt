//! What mode check answers: a scenario and a printed journal are read, the journal is checked, and the text that is due is made.
#![tactic(auto)]

mod answers;
mod inputs;
mod laws;
mod texts;

pub use answers::{Checked, answer};
pub use inputs::parts;
pub use laws::a_printed_scenario_is_cut_off;
