//! Text to words and words to text: an assembler for blocks of instructions, and a lister.
#![tactic(auto)]

mod block;
mod fault;
mod fields;
mod forms;
mod labels;
mod line;
mod listing;

pub use block::assemble;
pub use fault::AsmFault;
pub use listing::list;
pub use std::alloc::AllocError as NoMemory;
