//! Where a descriptor stands, whether it is loaded or not.

ghost use Rattle.std.specs.Prelude.{◌≡◌, option_copied};
ghost use Rattle.slot_cache.specs.Seats.{held_in, ident_of};

use super::loaded::Loaded;
use cache_ident::{Ident, KernelNo};
use slab::Slab;

/// A descriptor in the place that it keeps while it comes and goes.
#[derive(Drop)]
pub struct Seat<T> {
    /// Who owned it when it last left, or was declared. It counts only while the descriptor isn't loaded.
    pub owner: KernelNo,
    pub is_loaded: bool,
    /// Identifier and lock count only while it is loaded.
    pub loaded: Loaded<T>,
}

impl<T> Seat<T> {
    /// The identifier with which the descriptor is loaded; `None` where it isn't.
    #[inline(always)]
    pub fn ident(&self) -> Option<Ident>
        ensures { result ≡ ident_of self.now }
    {
        if self.is_loaded {
            Some(self.loaded.ident)
        } else {
            None
        }
    }
}

/// What a slot holds, by the key of its seat.
#[inline(always)]
pub fn held<T>(records: &Slab<Seat<T>>, slot: Option<usize>) -> Option<&Loaded<T>>
    ensures { option_copied result ≡ held_in records.now.slots slot }
{
    match slot {
        Some(key) => match records.get(key) {
            Some(seat) => Some(&seat.loaded),
            None => None,
        },
        None => None,
    }
}
