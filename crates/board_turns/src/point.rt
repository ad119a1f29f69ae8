//! Where a processor stands in its turn.

/// Where a processor stands in its turn while it doesn't hold the board.
#[derive(Clone, Copy)]
pub enum Point {
    /// It begins a quantum.
    InQuantum,
    /// It has run ahead, and commits next.
    BeforeCommit,
}
