//! What memory and rows are for the threads of one space: which row an access goes through, and what it reads, stores
//! and marks there.
#![tactic(auto)]

mod mmu;

pub use mmu::Mmu;
