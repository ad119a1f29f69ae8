//! What a thread that can't go on asks of its owner: the notice of a fault or of a thread call, and the effect
//! that completing the call has.
#![tactic(auto)]

mod calls;
mod effects;

pub use calls::effect;
pub use effects::{Effect, Notice};
