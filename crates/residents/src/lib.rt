//! What is resident at a place of a journal: each with its identifier, its name and its lock, the slots that are free,
//! what depends on what, and which rows rely on what.
#![tactic(auto)]

mod dependents;
mod list;
mod relying;
mod slots;

pub use dependents::Dependents;
pub use list::{Held, Residents};
pub use relying::{Reliance, RelyingRows};
pub use slots::Slots;
