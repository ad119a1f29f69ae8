//! Laws of the machine with unlimited tables. Each is the contract of a function that does nothing: what it ensures
//! holds of all states, or of all that events can reach.
#![tactic(auto)]

mod chains;
mod events;
mod keeps;
mod marks;
mod parents;
mod receivers;
mod rights;

pub use chains::{a_chain_is_short, a_chain_is_whole};
pub use events::an_event_that_does_not_fit_changes_nothing;
pub use keeps::{a_step_keeps_dependence, an_event_keeps_places};
pub use marks::{a_step_goes_through_its_rows, a_step_marks_its_rows};
pub use parents::{all_parents_are_few, parents_stand_and_leave_later};
pub use receivers::receivers_are_of_signal_rows;
pub use rights::{a_step_depends_on_what_it_may_read, a_step_writes_where_it_may};
