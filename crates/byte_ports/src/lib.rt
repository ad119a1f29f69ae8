//! Where the program's bytes come from and where they go: sources and sinks that may give and take
//! less than was asked for, and may fail.
#![tactic(auto)]

mod memory;
mod ports;
mod streams;
mod whole;

pub use memory::{MemSink, MemSource};
pub use ports::{Failed, Sink, Source};
pub use streams::{FromRead, ToWrite};
pub use whole::{ReadError, read_to_end, write_all};

/// There was no memory, and what was called is as it was before.
pub use std::alloc::AllocError as NoMemory;
