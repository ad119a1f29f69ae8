//! What happened to a machine with caches, in order, and when it is legal.
#![tactic(auto)]

mod entries;
mod journal;
mod laws;

pub use entries::Entry;
pub use journal::Journal;
pub use laws::{
    a_group_leaves_in_its_order, a_journal_grows_behind_its_seal, a_journal_grows_by_what_may_come,
    a_journal_grows_until_its_seal, a_longer_journal_tells_more, a_step_that_may_be_taken_fits,
    rules_hold_at_each_place, what_is_resident_is_whole, what_is_told_is_so,
};
