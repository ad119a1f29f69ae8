//! The machine with unlimited tables that the contents of the caches and shelves show: by name, in declared order, without
//! identifiers, locks and checkouts.
//!
//! Each function here is a law: it has an empty body, and what it says stands in its contract.
#![tactic(auto)]

mod alike;
mod changes;
mod dependence;
mod lookups;
mod moves;
mod owners;

pub use alike::what_shows_alike_is_shown_alike;
pub use changes::{
    a_change_shows_in_its_place, a_declaration_shows_as_the_last, nothing_shows_nothing,
    what_changes_is_the_content_of_its_name, what_is_retracted_is_shown_no_more,
};
pub use dependence::dependence_is_of_the_contents;
pub use lookups::what_is_shown_is_the_content;
pub use moves::{a_change_keeps_the_names, what_only_moves_shows_alike};
pub use owners::{an_owner_is_found_by_name, owners_stay, what_is_owned_stays_owned};
