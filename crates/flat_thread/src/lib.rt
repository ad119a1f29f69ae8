//! A thread of the machine with unlimited tables by itself: what its call does to it, what the numbers of its call mean,
//! and what its next instruction asks for.
#![tactic(auto)]

mod actions;
mod calls;
mod numbers;

pub use actions::{action_for_word, data_access, stored_word};
pub use calls::{answer, carry_out, give};
pub use numbers::{are_flags, bit, flags_of, receiver_of, refusal};
