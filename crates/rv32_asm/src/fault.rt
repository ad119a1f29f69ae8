//! Why a block could not be assembled.

ghost use Rattle.std.specs.Prelude.{◌≡◌};
ghost use Rattle.rv32_asm.specs.declared.fault.AsmFault.TheVariants.{NoMemory};

use std::alloc::{AllocError, AllocFailed};
use thiserror::Error;

/// The first line that fails, counted from 0, and on that line the first of these in their order.
#[derive(Clone, Copy, Debug, PartialEq, Eq, Error)]
pub enum AsmFault {
    #[error("out of memory")]
    NoMemory,
    /// The words before this line's fill the room.
    #[error("line {line} is past the room")]
    Room { line: u64 },
    /// The line spells neither a label nor a word nor an instruction.
    #[error("line {line} is not in any form")]
    BadLine { line: u64 },
    /// No line of the block defines the label that this line goes to.
    #[error("line {line} goes to a label that is not defined")]
    NoLabel { line: u64 },
    /// An earlier line defines the same label.
    #[error("line {line} defines a label again")]
    TwiceLabel { line: u64 },
    /// The target is further away than the instruction can go.
    #[error("line {line} goes too far")]
    OutOfReach { line: u64 },
}

impl From<AllocError> for AsmFault {
    ghost from_gives = { λ _ e. e ≡ NoMemory };

    fn from(_e: AllocError) -> AsmFault {
        AsmFault::NoMemory
    }
}

impl<T: Drop> From<AllocFailed<T>> for AsmFault {
    ghost from_gives = { λ _ e. e ≡ NoMemory };

    fn from(_e: AllocFailed<T>) -> AsmFault {
        AsmFault::NoMemory
    }
}
