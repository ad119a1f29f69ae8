//! The report of a machine, whoever keeps its records.
#![tactic(auto)]

mod counts;
mod reported;
mod reporting;

pub use counts::{RowCounts, RowTally};
pub use reported::Reported;
pub use reporting::{output_bytes, report};
