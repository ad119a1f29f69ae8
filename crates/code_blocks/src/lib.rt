//! Blocks of code in a scenario: their lines one after another, and then their words or their first fault.
#![tactic(auto)]

mod blocks;
mod fault;

pub use blocks::CodeBlock;
pub use fault::CodeFault;
