//! Large scenarios, each made from a number: three pipelines of four kernels that pass messages on, beside workers
//! that go over many pages.
#![tactic(auto)]

mod lines;
mod programs;
mod scenario;

pub use scenario::generate;
pub use std::alloc::AllocError as NoMemory;
