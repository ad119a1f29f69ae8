//! The rows, each loaded or on the shelf of its owner, in declared order and by frame.
#![tactic(auto)]

mod frames;
mod iter;
mod signals;
mod store;

pub use frames::RowsOf;
pub use iter::SignalRows;
pub use store::RowStore;
