//! Copied pages, as a space in which a thread takes steps ahead of its machine.
#![tactic(auto)]

mod index;
mod lines;
mod page;
mod part;
mod recent;
mod slots;
mod space;
mod spots;
mod table;

pub use page::PageView;
pub use part::Part;
pub use recent::MOST_RECENT;
pub use table::{MOST_VIEWS, PageViews};
