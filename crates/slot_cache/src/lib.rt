//! The slots of the descriptors of one kind, of which each is filled and emptied, and the seats in which those stand.
#![tactic(auto)]

mod index;
mod iter;
mod loaded;
mod rows;
mod seats;
mod serials;
mod slots;

pub use iter::Iter;
pub use loaded::{Descriptor, Loaded};
pub use seats::{Seat, held};
pub use serials::relist;
pub use slots::Slots;
