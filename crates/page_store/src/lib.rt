//! A memory of which only some pages are kept, and the store that holds the others.
#![tactic(auto)]

mod mem_store;
mod page;
mod paged;
mod store;

pub use byte_ports::Failed;
pub use cache_ident::NoMemory;
pub use mem_store::MemStore;
pub use paged::Paged;
pub use store::Store;
