//! The text of a journal: one line for each entry, in one form.
#![tactic(auto)]

mod fault;
mod fields;
mod lines;
mod printing;
mod reading;

pub use fault::JournalFault;
pub use fields::{field, ident, number};
pub use lines::entry_at;
pub use printing::{print, put_decl, put_field, put_flags, put_ident, put_number, put_rights};
pub use reading::read;
