//! A scenario on one processor with fewer frames than it has: some pages are kept, and the others are in a store.
#![tactic(auto)]

mod fault;
mod opening;
mod pager;
mod run;
mod sure_store;
mod turns;

pub use fault::PagedFault;
pub use page_store::{Failed, MemStore, Store};
pub use run::{PagedRun, run_paged};
pub use sure_store::run_in_memory;
