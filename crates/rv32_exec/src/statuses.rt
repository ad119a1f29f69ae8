// What a thread is doing, and why it may have ended.

/// What an access wants of a page.
#[derive(Clone, Copy, Debug, PartialEq, Eq)]
pub enum Access {
    /// The word of an instruction; asks for flag x.
    Fetch,
    /// A load; asks for flag r.
    Read,
    /// A store; asks for flag w.
    Write,
}

/// Why an access does not translate; the first that holds, in this order.
#[derive(Clone, Copy, Debug, PartialEq, Eq)]
pub enum FaultKind {
    /// The page has no row.
    Page,
    /// The row lacks the flag.
    Flags,
    /// The rights of the row's owner do not cover it.
    Rights,
}

/// What was asked at an address that its width does not divide.
#[derive(Clone, Copy, Debug, PartialEq, Eq)]
pub enum Misaligned {
    /// A jump, or a branch that is taken, to an address that 4 does not divide.
    Jump,
    /// A load.
    Load,
    /// A store, or an atomic operation.
    Store,
}

/// Why a thread has ended.
#[derive(Clone, Copy, Debug, PartialEq, Eq)]
pub enum Reason {
    /// It asked to end, with this code.
    Exited {
        code: u32,
    },
    /// An access to `va` does not translate.
    Fault {
        kind: FaultKind,
        access: Access,
        va: u32,
    },
    /// The word at its pc is no instruction.
    Illegal {
        word: u32,
    },
    /// The address `va` is not aligned.
    Misaligned {
        what: Misaligned,
        va: u32,
    },
    /// It met a breakpoint.
    Breakpoint,
    /// It made a call that there is not.
    BadCall {
        number: u32,
    },
}

/// What a thread is doing.
#[derive(Clone, Copy, Debug, PartialEq, Eq)]
pub enum Status {
    /// It takes steps.
    Ready,
    /// It waits for the answer to a call.
    Trapped,
    /// It takes no further step.
    Ended(Reason),
}
