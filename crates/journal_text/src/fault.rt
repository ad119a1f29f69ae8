//! Why a journal could not be read.

ghost use Rattle.std.specs.Prelude.{◌≡◌};
ghost use Rattle.journal_text.specs.declared.fault.JournalFault.TheVariants.{NoMemory};

use std::alloc::{AllocError, AllocFailed};
use thiserror::Error;

#[derive(Clone, Copy, Debug, PartialEq, Eq, Error)]
pub enum JournalFault {
    #[error("out of memory")]
    NoMemory,
    /// This line, counted from 1, is the first that isn't the line of an entry. A last line without its line feed is
    /// none either.
    #[error("line {0} is not the line of an entry")]
    Line(u64),
}

impl From<AllocError> for JournalFault {
    ghost from_gives = { λ _ e. e ≡ NoMemory };

    fn from(_e: AllocError) -> JournalFault {
        JournalFault::NoMemory
    }
}

impl<T: Drop> From<AllocFailed<T>> for JournalFault {
    ghost from_gives = { λ _ e. e ≡ NoMemory };

    fn from(_e: AllocFailed<T>) -> JournalFault {
        JournalFault::NoMemory
    }
}
