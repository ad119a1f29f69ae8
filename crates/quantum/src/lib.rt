//! Steps of a thread ahead of its machine, on copied pages.
#![tactic(auto)]

mod ahead;
mod paused;

pub use ahead::Quantum;
pub use page_views::{MOST_RECENT, MOST_VIEWS, PageView, Part};
pub use paused::{Paused, SignalStore};
