//! The classes of descriptors.

/// The classes of descriptors, in the order in which they leave.
#[derive(Clone, Copy, PartialEq, Eq, PartialOrd, Ord, Hash, Debug)]
pub enum Class {
    /// A row with flag m, which depends on the signal rows of its frame.
    MessageRow,
    /// A row with a receiver, on which message rows depend.
    SignalRow,
    OtherRow,
    Thread,
    Space,
    Kernel,
}
