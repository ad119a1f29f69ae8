//! What comes of the rows of pages as owners load what these depend on: laws.
//!
//! Each is the contract of a function with an empty body.
#![tactic(auto)]

mod keeping;
mod pages;

pub use keeping::loads_in_a_space_keep_its_rows;
pub use pages::{
    a_fetch_goes_through_a_plain_row_of_its_space, a_row_call_keeps_what_is_reached,
    an_unfillable_page_is_refused, pages_stay_as_they_are,
};
