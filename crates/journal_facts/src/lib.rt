//! What the checker of a journal knows at a place of it: whether the entry there is in order and keeps the rule of its kind, and
//! what is known behind it.
#![tactic(auto)]

mod facts;
mod order;
mod rules;

pub use facts::Facts;
pub use rules::{each_rule_asks_its_kind, number};
