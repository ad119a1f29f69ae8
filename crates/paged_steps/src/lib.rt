//! What a thread does next on a machine of which some pages are kept and the others are in a store, and what comes of it.
#![tactic(auto)]

mod ahead;
mod finding;
mod happening;
mod looking;
mod notes;
mod order;

pub use ahead::{Stands, run_ahead};
pub use finding::find;
pub use happening::{commit, end, send};
pub use looking::{Next, look};
pub use order::{Order, first_completable};
