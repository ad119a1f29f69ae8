//! Rows, which map a page of a space to a frame.

use cache_ident::{Frame, SpaceNo, ThreadNo, Vpn};

/// What a row allows. Through a row with `m`, the message flag, certain stores signal.
#[derive(Clone, Copy, PartialEq, Eq, Hash, Debug, Default)]
pub struct Flags {
    /// Loads.
    pub r: bool,
    /// Stores.
    pub w: bool,
    /// Fetches.
    pub x: bool,
    pub m: bool,
}

/// A page mapping: the page `vpn` of the space is the frame.
#[derive(Clone, Copy, PartialEq, Eq, Debug, Default)]
pub struct Row {
    pub space: SpaceNo,
    pub vpn: Vpn,
    pub frame: Frame,
    pub flags: Flags,
    /// The thread that gets the frame's signals. A row with a receiver is a signal row.
    pub receiver: Option<ThreadNo>,
    /// A step went through this row.
    pub referenced: bool,
    /// A store went through this row.
    pub modified: bool,
}
