//! What depends on what among what is resident, by identifiers, and in which order it leaves.
#![tactic(auto)]

mod laws;
mod pairs;

pub use laws::{
    a_lock_keeps_the_pairs, the_same_dependence_keeps_the_pairs, what_is_resident_has_room,
};
pub use pairs::ResidentPairs;
