//! Static executables for 32-bit RISC-V: which bytes are one, and which parts of its address space they fill.
#![tactic(auto)]

mod fault;
mod headers;
mod images;

pub use fault::ElfFault;
pub use images::{Image, Part, read};
pub use phys_groups::Flags;
