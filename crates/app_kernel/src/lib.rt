//! Application kernels: who own descriptors, load what a thread needs, and answer its calls and faults.
#![tactic(auto)]

mod rows;
mod serving;
mod walk;

pub use fault_forward::Notice;
pub use owner_ports::{Alone, Board, Heard, Port, PortCall, Refused, Said, Told};
pub use owners::Owners;
pub use serving::{Served, serve};
