//! The machine with unlimited tables as a plain program: memory, kernels, spaces, rows and threads in declared order, and
//! the events that change them. What it does is what the definitions of `flat_state` say, by the rules of `flat_rules` and
//! `flat_events` over its tables.
#![tactic(auto)]

mod apply;
mod changes;
mod flat;
mod records;

pub use apply::new_context;
pub use cache_ident::NoMemory;
pub use changes::{answer_to, carry_out_of, give_to, store_in};
pub use flat::Flat;
pub use flat_events as events;
pub use flat_state::{
    DataAccess, Decl, Event, FlatKernel, FlatThread, GREATEST_CAPS, MOST_DECLARED, Machine,
    NextStep, Settled, Signal,
};
pub use row_table::Rows;
