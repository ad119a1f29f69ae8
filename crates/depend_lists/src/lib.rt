//! Which loaded descriptor depends on which.
#![tactic(auto)]

mod depends;
mod nodes;

pub use cache_ident::Class;
pub use depends::Depends;
pub use nodes::{MOST_PARENTS, Node, most_loaded};
