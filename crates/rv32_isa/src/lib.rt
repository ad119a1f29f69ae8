//! The user instructions of RV32I with M and Zaamo: 57 forms, and the words that they are.
#![tactic(auto)]

mod fields;
mod forms;
mod reading;
mod writing;

pub use forms::Instr;
pub use reading::decode;
pub use writing::encode;
