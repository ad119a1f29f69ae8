//! Why a block of code has no words.

ghost use Rattle.std.specs.Prelude.{◌≡◌};
ghost use Rattle.code_blocks.specs.declared.fault.CodeFault.TheVariants.{NoMemory};

use std::alloc::{AllocError, AllocFailed};
use thiserror::Error;

#[derive(Clone, Copy, Debug, PartialEq, Eq, Error)]
pub enum CodeFault {
    #[error("out of memory")]
    NoMemory,
    /// The first line that breaks a rule, by its number in the scenario, and the lowest rule that it breaks: 1, it has
    /// a byte that no line may have; 15, the words before it fill the room; 20, it is in no form; 21, it goes to a
    /// label that no line defines; 22, it defines a label again; 23, it goes too far.
    #[error("line {line} breaks rule {rule}")]
    Broken { line: u64, rule: u32 },
}

impl From<AllocError> for CodeFault {
    ghost from_gives = { λ _ e. e ≡ NoMemory };

    fn from(_e: AllocError) -> CodeFault {
        CodeFault::NoMemory
    }
}

impl<T: Drop> From<AllocFailed<T>> for CodeFault {
    ghost from_gives = { λ _ e. e ≡ NoMemory };

    fn from(_e: AllocFailed<T>) -> CodeFault {
        CodeFault::NoMemory
    }
}
