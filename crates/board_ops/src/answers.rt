//! What the board answers.

use crate::refusals::Refused;
use cache_ident::{Ident, ThreadNo};
use quantum::Paused;

/// What an operation on the board is answered.
#[derive(Clone, Copy, PartialEq, Eq, Debug)]
pub enum Answer {
    /// It is done, and there is nothing to tell.
    Did,
    /// It is loaded, under that identifier.
    Loaded(Ident),
    /// That thread lies on the desk, or none where none can be taken.
    Out(Option<ThreadNo>),
    /// Why the quantum on the desk stands.
    Paused(Paused),
    /// So many steps happened.
    Stepped(u32),
    /// It is refused, and nothing changed.
    Refused(Refused),
    /// No thread lies on the desk of that processor.
    NoTicket,
    /// The quantum has no room for a view of that page, or has one.
    NoView,
    /// There is no processor of that number.
    NoCpu,
}
