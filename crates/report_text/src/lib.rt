//! The text of a report: how a run is settled, how many steps it took, what its spaces hold, and where each thread
//! stands and what it put out.
#![tactic(auto)]

mod lines;
mod words;

pub use flat_state::Settled;
pub use lines::{ReportLines, summary};
pub use std::alloc::AllocError as NoMemory;
pub use words::{access_text, reason_text, word_text};
