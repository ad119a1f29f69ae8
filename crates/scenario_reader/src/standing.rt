//! Where the lines of a scenario stand.

ghost use Rattle.std.specs.Prelude.{◌<◌};

use cache_ident::{Frame, SpaceNo, ThreadNo};

/// What a block of an executable begins with.
#[derive(Clone, Copy)]
pub(crate) struct ImageHead {
    pub space: SpaceNo,
    pub frame: Frame,
    pub thread: ThreadNo,
    pub ghost in_memory: { frame.0 < 2048 },
}

/// Where the next line stands.
#[derive(Clone, Copy)]
pub(crate) enum Place {
    /// Before the line `mem`.
    Start,
    /// Right behind it.
    Memory { groups: u32 },
    /// Behind the lines `mem` and `caps`, and outside of blocks.
    Body,
    /// Within a block of code.
    Code { frame: Frame, offset: u32 },
    /// Within a block of an executable.
    Image(ImageHead),
    /// Behind the line `end`.
    Ended,
}
