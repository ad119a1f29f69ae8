//! What a line can say.

use board_ops::Op;

/// What a line says.
#[derive(Clone, Copy, PartialEq, Eq, Debug)]
pub enum Line {
    /// An operation on the board.
    Operation(Op),
    /// The journal so far is to be shown. This is no operation on the board.
    Journal,
}
