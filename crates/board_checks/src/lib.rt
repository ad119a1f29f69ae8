//! Why calls on what is loaded are refused, as far as the tables alone tell.
//!
//! A call of the board tests, in this order, the identifiers of its arguments one after the other, each for all that can be
//! wrong with it, and then the call itself by the order of `Refused`. What the journal, memory or a quantum have to tell is
//! tested elsewhere. No check takes memory, and each takes a time logarithmic in what is there.
#![tactic(auto)]

mod completions;
mod fits;
mod holds;
mod idents;
mod keeps;
mod loads;
mod owners;

pub use board_ops::Refused;
pub use completions::{check_complete, check_thread};
pub use desc_tables::{Item, ItemRef, Tables};
pub use holds::{check_lock, check_unload, check_unlock};
pub use idents::{kernel_as, live, receiver_as, space_as, thread_as};
pub use keeps::Keep;
pub use loads::{
    Loadable, check_load_kernel, check_load_mapping, check_load_space, check_load_thread,
};
