//! How the whole run came out.

ghost use Rattle.std.specs.Prelude.{◌≡◌};
ghost use Rattle.v_drive.specs.Endings.{exit_status};

/// How the run came out.
#[derive(Clone, Copy)]
pub(crate) enum Ending {
    /// Each operation was made, and its answer written.
    Done,
    /// The source failed. Nothing was written.
    ReadFault,
    /// The sink failed. What was written is the beginning of the text that was due.
    WriteFault,
    /// The bytes up to the line `end` declare no machine. The line is the first that breaks a rule, counted from 1, and the rule
    /// is the lowest that it breaks.
    BadScenario { line: u64, rule: u32 },
    /// That line, counted from 1, is no operation's. What stands before it was made, and answered.
    BadOperation { line: u64 },
    /// Memory ran out. Nothing was written.
    NoMemory,
    /// The words aren't taken.
    Usage,
    /// More than 4,194,304 bytes came.
    TooLong,
}

impl Ending {
    /// The status with which the program ends.
    pub(crate) fn exit_status(self) -> u8
        ensures { result ≡ exit_status self }
    {
        match self {
            Ending::Done => 0,
            Ending::ReadFault => 3,
            Ending::WriteFault => 4,
            Ending::BadScenario { .. } => 5,
            Ending::BadOperation { .. } => 5,
            Ending::NoMemory => 6,
            Ending::Usage => 7,
            Ending::TooLong => 8,
        }
    }
}
