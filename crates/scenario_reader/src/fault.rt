//! Why a scenario could not be read.

ghost use Rattle.std.specs.Prelude.{◌≡◌};
ghost use Rattle.scenario_reader.specs.declared.fault.ScenarioFault.TheVariants.{NoMemory};

use std::alloc::{AllocError, AllocFailed};
use thiserror::Error;

#[derive(Clone, Copy, Debug, PartialEq, Eq, Error)]
pub enum ScenarioFault {
    #[error("out of memory")]
    NoMemory,
    /// The text is no scenario. The line is the first that breaks a rule, counted from 1, and the rule is the
    /// lowest that it breaks. The end of the text counts as its last line, which is the one behind its last line feed.
    #[error("line {line} breaks rule {rule}")]
    Bad { line: u64, rule: u32 },
}

impl From<AllocError> for ScenarioFault {
    ghost from_gives = { λ _ e. e ≡ NoMemory };

    fn from(_e: AllocError) -> ScenarioFault {
        ScenarioFault::NoMemory
    }
}

impl<T: Drop> From<AllocFailed<T>> for ScenarioFault {
    ghost from_gives = { λ _ e. e ≡ NoMemory };

    fn from(_e: AllocFailed<T>) -> ScenarioFault {
        ScenarioFault::NoMemory
    }
}
