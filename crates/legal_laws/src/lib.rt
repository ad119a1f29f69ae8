//! What a legal journal says, in the words of a reader: each event fits where it stands, no cache holds more than its capacity, the
//! first kernel stays loaded, and what is told entry by entry is so of the list as a whole.
//!
//! Each is the contract of a function with an empty body. Where a law asks for no legal journal it holds of every list of entries.
#![tactic(auto)]

mod caches;
mod events;
mod last;
mod places;

pub use caches::{the_first_kernel_stays_loaded, what_is_resident_is_within_capacity};
pub use events::{each_entry_may_come, each_event_fits};
pub use last::what_is_due_follows_from_the_last_entries;
pub use places::{
    an_identifier_comes_and_goes_once, an_identifier_stands_in_one_way,
    what_is_resident_was_loaded_and_has_not_left,
};
