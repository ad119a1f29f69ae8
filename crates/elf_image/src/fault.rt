//! Why an image could not be read.

ghost use Rattle.std.specs.Prelude.{◌≡◌};
ghost use Rattle.elf_image.specs.declared.fault.ElfFault.TheVariants.{NoMemory};

use std::alloc::{AllocError, AllocFailed};
use thiserror::Error;

#[derive(Clone, Copy, Debug, PartialEq, Eq, Error)]
pub enum ElfFault {
    #[error("out of memory")]
    NoMemory,
    /// The bytes are no image that can be loaded. The rule is the lowest that they break:
    /// 27, they don't begin with the header of a static executable for 32-bit RISC-V; 28, a range that a
    /// header names passes its end; 29, a program header asks for a loader at run time; 30, a part can
    /// neither be read, written nor run, or the parts are more than 8,388,608 bytes together.
    #[error("the image breaks rule {rule}")]
    Broken { rule: u32 },
}

impl From<AllocError> for ElfFault {
    ghost from_gives = { λ _ e. e ≡ NoMemory };

    fn from(_e: AllocError) -> ElfFault {
        ElfFault::NoMemory
    }
}

impl<T: Drop> From<AllocFailed<T>> for ElfFault {
    ghost from_gives = { λ _ e. e ≡ NoMemory };

    fn from(_e: AllocFailed<T>) -> ElfFault {
        ElfFault::NoMemory
    }
}
