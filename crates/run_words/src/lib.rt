//! The words of a command line: which the programs take, and what they ask for.
#![tactic(auto)]

mod command;
mod drive;
mod options;
mod ranges;
mod words;

pub use command::{
    bare, matches_in, number_option, number_within, read, steps_option, which_words_are_taken,
};
pub use drive::read_steps;
pub use options::{Mode, Options, WordsFault};
pub use ranges::{ANY_NUMBER, NumberRange, STEPS};
pub use std::alloc::AllocError as NoMemory;
pub use words::{Words, program_words};
