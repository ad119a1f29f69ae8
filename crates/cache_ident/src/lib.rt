//! Names and classes of descriptors, the identifiers that they get at each load, and where each identifier stands.
#![tactic(auto)]

mod classes;
mod idents;
mod names;
mod rolls;

pub use classes::Class;
pub use idents::{Cause, Ident, Kind, Standing};
pub use names::{Caps, Frame, KernelNo, Name, SpaceNo, ThreadNo, Vpn};
pub use rolls::{NoMemory, Roll};
