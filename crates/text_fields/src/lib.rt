//! Texts in lines, lines in fields, and the numbers that fields write.
#![tactic(auto)]

mod fields;
mod lines;
mod numbers;

pub use fields::{four, is_blank, is_space, next_field, one, three, two};
pub use lines::{are_plain, is, is_plain, next_line, without_comment};
pub use numbers::{digit, number, put_word, skip, word};
