//! The rows of the machine with unlimited tables, in declared order, with the indexes that find them.
#![tactic(auto)]

mod iter;
mod pages;
mod signals;
mod stamped;
mod table;

pub use iter::Rows;
pub use table::RowTable;
