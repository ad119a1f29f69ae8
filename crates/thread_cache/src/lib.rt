//! The record of a thread.
#![tactic(auto)]

ghost use Rattle.std.specs.Prelude.{◌≡◌};
ghost use Rattle.cache_ident.specs.declared.idents.Kind.TheVariants.{Thread};
ghost use Rattle.thread_cache.specs.Threads.{name_of};

use arrayvec::ArrayVec;
use cache_ident::{Kind, Name, SpaceNo, ThreadNo};
use rv32_exec::{Context, Output, Status};
use slot_cache::Descriptor;

/// A thread of a space.
#[derive(Drop)]
pub struct ThreadRec {
    pub no: ThreadNo,
    pub space: SpaceNo,
    pub context: Context,
    pub status: Status,
    /// Of the threads that can run, those with the highest priority run first.
    pub priority: u32,
    /// Addresses of message slots that wait for the thread, in the order in which they were stored.
    pub queue: ArrayVec<u32, 64>,
    /// What the thread has put out.
    pub output: Output,
    /// The processor that has checked the thread out. A thread that isn't loaded has none.
    pub on_cpu: Option<u32>,
    /// The number of the thread's last checkout, 0 before the first.
    pub last: u64,
}

impl Descriptor for ThreadRec {
    ghost KIND = { Thread };

    ghost called = { name_of };

    const KIND: Kind = Kind::Thread;

    fn name(&self) -> Name {
        Name::Thread(self.no)
    }
}
