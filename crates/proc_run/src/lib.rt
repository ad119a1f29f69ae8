//! The whole run: from words and the bytes of a scenario to the text that is due.
#![tactic(auto)]

mod laws;
mod machine;
mod outcome;
mod run;
mod text;

pub use laws::what_a_run_writes_is_found_legal;
pub use machine::run_machine;
pub use outcome::{Kept, Outcome, RunStatus};
pub use processors::{Board, Gate, NoGate, Point};
pub use run_journal::{Entry, Journal};
pub use run_words::{Words, program_words};

/// Memory ran out, and what was called is as it was before.
pub use cache_ident::NoMemory;
