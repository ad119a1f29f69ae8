//! Why a run gave no answer.

ghost use Rattle.std.specs.Prelude.{◌≡◌};
ghost use Rattle.paged_run.specs.declared.fault.PagedFault.TheVariants as faults;

use page_store::Failed;
use std::alloc::AllocError;

/// Why a run with few frames gave no answer.
#[derive(Clone, Copy, PartialEq, Eq, Debug)]
pub enum PagedFault {
    NoMemory,
    /// A call of the store failed.
    StoreFault,
}

impl From<AllocError> for PagedFault {
    ghost from_gives = { λ _ e. e ≡ faults.NoMemory };

    fn from(_: AllocError) -> PagedFault {
        PagedFault::NoMemory
    }
}

impl From<Failed> for PagedFault {
    ghost from_gives = { λ _ e. e ≡ faults.StoreFault };

    fn from(_: Failed) -> PagedFault {
        PagedFault::StoreFault
    }
}
