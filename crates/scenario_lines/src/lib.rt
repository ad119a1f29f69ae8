//! The lines of a scenario, one at a time: what each says by its form, or the first rule of its form that it breaks.
//!
//! Rule 1 is broken where a byte outside of a comment is neither printing ASCII nor a space or tab, rule 2 where the first
//! field is no line's word, rule 3 where there are too few or too many fields or an option that isn't the line's,
//! and rule 4 where a field doesn't have its form or a number needs more than 32 bits.
#![tactic(auto)]

mod blocks;
mod forms;
mod lines;
mod shapes;
mod values;

pub use blocks::{CodeLine, ImageLine, read_code_line, read_image_line};
pub use forms::Line;
pub use lines::read_line;
