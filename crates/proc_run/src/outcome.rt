//! How the whole run came out.

ghost use Rattle.std.specs.Prelude.{◌≡◌};
ghost use Rattle.proc_run.specs.Outcomes.{exit_status};

use flat_state::Settled;
use processors::Board;
use run_journal::Journal;

/// How the whole run came out.
#[derive(Clone, Copy)]
pub enum RunStatus {
    /// All threads have ended.
    Done,
    /// Some haven't, and each of these is held or waits for a signal.
    Stalled,
    /// Neither, the step limit is reached, and no thread's call can be completed.
    Spent,
    /// The source failed. Nothing was written.
    ReadFault,
    /// The sink failed. What was written is the beginning of the text that was due.
    WriteFault,
    /// The bytes are no scenario. The line is the first that breaks a rule, counted from 1, and the rule is the lowest
    /// that it breaks.
    BadScenario { line: u64, rule: u32 },
    /// Memory ran out. Nothing was written.
    NoMemory,
    /// The words aren't taken.
    Usage,
    /// More than 4,194,304 bytes came.
    TooLong,
    /// In mode check: the journal is legal and begins as its scenario says. At the limit of steps its run stands so.
    Checked { settled: Settled },
    /// In mode check: that is the first place of the journal that breaks a rule, counted from 0, and the number of the first rule
    /// that it breaks.
    NotLegal { at: u64, point: u32 },
    /// In mode check: what stands behind the scenario is no journal. This line of it, counted from 1, is the first that isn't an
    /// entry's.
    BadJournal { line: u64 },
    /// In mode page: the run with few frames is over, and stands so: done, stalled or spent.
    Paged { settled: Settled },
}

impl RunStatus {
    /// The status with which the program ends.
    pub fn exit_status(self) -> u8
        ensures { result ≡ exit_status self }
    {
        match self {
            RunStatus::Done => 0,
            RunStatus::Stalled => 1,
            RunStatus::Spent => 2,
            RunStatus::ReadFault => 3,
            RunStatus::WriteFault => 4,
            RunStatus::BadScenario { .. } => 5,
            RunStatus::NoMemory => 6,
            RunStatus::Usage => 7,
            RunStatus::TooLong => 8,
            RunStatus::Checked { .. } => 10,
            RunStatus::NotLegal { .. } => 11,
            RunStatus::BadJournal { .. } => 12,
            RunStatus::Paged { .. } => 13,
        }
    }
}

/// What is kept of a run.
#[derive(Drop)]
pub enum Kept {
    Nothing,
    Journal(Journal),
    Board(Board),
}

/// How a run came out, and what is kept of it: the board on which it ran, for `Done`, `Stalled` and `Spent`; the journal that was read,
/// for `Checked` and `NotLegal`; the journal of the run, for `Paged`; and for a `WriteFault` that of the answer in whose place it came.
#[derive(Drop)]
pub struct Outcome {
    pub status: RunStatus,
    pub kept: Kept,
}
