//! The rules of the machine with unlimited tables that change nothing, over any tables.
//!
//! `Records` says what the rules read of a machine, `Steps` how a step changes it, and `Changes` how any event does. What
//! they mean is the flat state of `flat_state`, and what each rule answers is that crate's definition of it. So whoever
//! keeps a machine's records, in whatever form, has all its rules.
#![tactic(auto)]

mod changes;
mod declarations;
mod depends;
mod look;
mod records;
mod settling;
mod signals;
mod steps;
mod threads;
mod translation;

pub use changes::Changes;
pub use declarations::{admit, first_machine, rule_of_machine};
pub use depends::parents;
pub use look::{next_signal, next_step};
pub use records::Records;
pub use settling::{settled, settled_by};
pub use signals::{full_among, full_receiver, receivers_for};
pub use steps::Steps;
pub use threads::{has_ended, is_completable, is_ready, queued, thread_at};
pub use translation::{is_fit, is_fit_row, reached, rights_of, wants};
