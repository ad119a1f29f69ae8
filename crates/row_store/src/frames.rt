//! The rows of a frame, message rows apart from others.

ghost use Rattle.std.specs.Prelude.{◌≡◌};
ghost use Rattle.row_store.specs.Frames.{rows_of};

use cache_ident::Frame;
use phys_groups::Row;

/// Which rows: the message rows of a frame, or its others.
#[derive(Clone, Copy, PartialEq, Eq, PartialOrd, Ord)]
pub struct RowsOf {
    pub frame: Frame,
    pub message: bool,
}

/// Those among which a row is.
pub(crate) fn rows_with(row: &Row) -> RowsOf
    ensures { result ≡ rows_of row.now }
{
    RowsOf {
        frame: row.frame,
        message: row.flags.m,
    }
}
