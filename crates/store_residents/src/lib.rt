//! What the contents of the stores say of a list of residents, and the list of them.
#![tactic(auto)]

mod laws;

pub use desc_stores::{FoundItem, Item, ItemRef, Stores};
pub use laws::{
    a_resident_has_a_content, a_victim_is_a_resident, each_resident_is_one,
    residents_are_what_is_loaded, rows_of_a_frame_are_residents, slots_are_those_of_residents,
    slots_stay,
};
pub use resident_pairs::ResidentPairs;
