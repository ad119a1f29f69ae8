//! The board: a machine with caches, whose descriptors are loaded, displaced and given back to their owners, with the journal of
//! all that happens; and lists of operations on it.
//!
//! Each call is one event: it is refused and leaves the board as it was, or it is done whole. Behind the caches and the journal
//! the board shows the machine with unlimited tables.
#![tactic(auto)]

mod answers;
mod board;
mod desk;
mod driving;
mod histories;
mod pasts;
mod place;

pub use board::Board;
pub use board_commits::{Answer, Names, Op, Quantum, Refused, Ticket};
pub use desk::Desk;
pub use driving::drive;
pub use histories::each_event_continues_the_past;
pub use pasts::{
    a_board_shows_its_journal, a_past_has_the_entries, calls_of_a_hold_continue_the_past,
    holds_while_held, makers_are_processors, what_is_of_a_ticket_stays_so_from_past_to_past,
    what_was_seen_stays,
};
pub use place::DESK_VIEWS;
