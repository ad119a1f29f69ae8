//! What there is in a machine, and what can be said of it.

use arrayvec::ArrayVec;
use cache_ident::{Caps, Frame, Name, SpaceNo, ThreadNo};
use phys_groups::Rights;
use rv32_exec::{Access, Context, Output, Status};

/// A kernel: how many descriptors of each kind it may lock, and what its spaces may map.
#[derive(Clone, Copy)]
pub struct FlatKernel {
    pub limits: Caps,
    pub rights: Rights,
}

/// A thread.
#[derive(Drop)]
pub struct FlatThread {
    pub no: ThreadNo,
    pub space: SpaceNo,
    pub context: Context,
    pub status: Status,
    /// 0 to 31; the higher number runs first.
    pub priority: u32,
    /// The addresses of the signals that it hasn't taken yet, the oldest first.
    pub queue: ArrayVec<u32, 64>,
    pub output: Output,
}

/// Whether a run is over.
#[derive(Clone, Copy, PartialEq, Eq, Debug)]
pub enum Settled {
    /// Each thread has ended.
    Done,
    /// Not done, and each thread that hasn't ended is held, or waits for a signal.
    Stalled,
    /// Neither, no thread's call can be completed, and all steps are taken.
    Spent,
    Running,
}

/// What can be said of a thread's next step. Of a thread that isn't ready nothing can: both truth values are
/// false, and there are no rows.
#[derive(Clone, Copy, PartialEq, Eq, Debug)]
pub struct NextStep {
    /// It may be taken: no receiver of its signals lacks room for them.
    pub runnable: bool,
    /// It ends the thread because an access doesn't translate.
    pub faults: bool,
    /// The row that its fetch goes through, where it translates.
    pub fetch_row: Option<Name>,
    /// The row that its data access goes through, where it makes one that translates.
    pub data_row: Option<Name>,
}

/// A signal that a step sends: the frame in which it stored a word, and at which offset.
#[derive(Clone, Copy)]
pub struct Signal {
    pub frame: Frame,
    pub offset: u32,
}

/// An access of a step to data: what for, and where.
#[derive(Clone, Copy)]
pub struct DataAccess {
    pub access: Access,
    pub va: u32,
}
