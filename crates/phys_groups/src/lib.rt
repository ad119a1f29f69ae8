//! Physical memory, the rights of kernels on its groups, and the rows that map pages to its frames.
#![tactic(auto)]

mod bytes;
mod grants;
mod rows;

pub use bytes::{Memory, PAGE_BYTES, PAGE_LENGTH};
pub use cache_ident::NoMemory;
pub use grants::{GROUP_FRAMES, Rights};
pub use rows::{Flags, Row};
