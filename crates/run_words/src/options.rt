//! What the words ask for.

ghost use Rattle.std.specs.Prelude.{◌≡◌};
ghost use Rattle.run_words.specs.declared.options.WordsFault.TheVariants.{NoMemory};
ghost use Rattle.run_words.specs.Options.{mode_named};

use std::alloc::AllocError;

/// What a run gives.
#[derive(Clone, Copy)]
pub enum Mode {
    /// The report of a scenario's run.
    Run,
    /// The journal of a scenario's run, and behind it the report.
    Journal,
    /// The summary of the run of the scenario that is made from the seed.
    Gen,
    /// What the check of a journal finds, which stands behind its scenario.
    Check,
    /// The report of a scenario's run with few frames.
    Page,
}

impl Mode {
    pub(crate) fn named(name: &str) -> Option<Mode>
        ensures { result ≡ mode_named name.now }
    {
        match name {
            "run" => Some(Mode::Run),
            "journal" => Some(Mode::Journal),
            "gen" => Some(Mode::Gen),
            "check" => Some(Mode::Check),
            "page" => Some(Mode::Page),
            _ => None,
        }
    }
}

/// What the words of a command line ask for.
#[derive(Clone, Copy)]
pub struct Options {
    pub mode: Mode,
    /// How many processors, 1 to 8.
    pub cpus: u32,
    /// How many steps the run may take, 1 to 1,000,000; in mode check, at how many steps it is over.
    pub steps: u32,
    /// What the scenario of mode gen is made from.
    pub seed: u32,
    /// How many frames a pager may have, 2 to 2,048.
    pub frames: u32,
}

/// Why words could not be read.
#[derive(Clone, Copy)]
pub enum WordsFault {
    NoMemory,
    /// The program doesn't take these words.
    Refused,
}

impl From<AllocError> for WordsFault {
    ghost from_gives = { λ _ e. e ≡ NoMemory };

    fn from(_e: AllocError) -> WordsFault {
        WordsFault::NoMemory
    }
}
