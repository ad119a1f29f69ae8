//! A ticket lock over a value with a history, which ties what a holder finds to what it has seen before.
//!
//! Who wants the value draws a ticket, mostly one that is served at once, and waits until it is served. It takes the value
//! out, changes it, puts it back and lets the next ticket be served. Beside the lock there are passes. A pass has a range of
//! numbers, by which its holder signs what it adds, and it remembers the history as it stood when the pass was last given back.
#![tactic(auto)]

mod held;
mod history;
mod laws;
mod pass;
mod patience;
mod rule;
#[cfg(test)]
mod tests;
mod turn;

pub use held::Held;
pub use history::History;
pub use laws::at_most_one_holds;
pub use pass::Pass;
pub use turn::Turn;
