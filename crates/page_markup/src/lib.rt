//! Elements of a page as data, and their text, which is well-formed whatever they say.
#![tactic(auto)]

mod attributes;
mod elements;
mod laws;

pub use attributes::{Attribute, AttributeName, Tag, put_closing, put_opening};
pub use elements::{Element, Group, put_element, put_elements, put_group};
pub use laws::what_is_written_is_well_formed;
