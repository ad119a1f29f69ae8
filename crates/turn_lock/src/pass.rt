//! What a thread carries from one hold to the next.
ghost use Rattle.std.specs.Prelude.{◌≡◌};
ghost use Rattle.turn_lock.specs.Seats.{IsAtRest, Signs};

use crate::history::History;
use crate::rule::View;
use atomic_table::Seat;

/// A range of numbers, which no other pass of the same lock shares, and the history that was seen with it.
///
/// A pass that is dropped takes its range with it, and then the lock can no longer be closed.
#[derive(Drop)]
pub struct Pass<V: History> {
    pub(crate) seat: Seat<Option<V>, View<V::Entry>>,
    pub(crate) number: u32,
    ghost at_rest: { IsAtRest seat },
    ghost signs: { Signs seat number },
}

impl<V: History> Pass<V> {
    ghost use Rattle.turn_lock.specs.Passes.{first_of};

    /// The number to sign new entries with.
    pub fn number(&self) -> u32
        ensures { result ≡ first_of self.now }
    {
        self.number
    }
}
