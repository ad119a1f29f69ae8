//! What the rules read of the machine's tables.

use crate::flat::Flat;
use arrayvec::ArrayVec;
use cache_ident::{Caps, Frame, KernelNo, SpaceNo, ThreadNo, Vpn};
use flat_rules::Records;
use flat_state::{FlatThread, Machine};
use phys_groups::{Memory, Rights, Row};
use rv32_exec::{Context, Status};

impl Records for Flat {
    type Thread = FlatThread;

    ghost state = { λ flat. flat };

    ghost shown = { λ thread. thread };

    fn holds(&self) {
        let _ = &self.memory;
    }

    fn machine(&self) -> Option<Machine> {
        self.machine
    }

    fn granted(&self) -> Caps {
        self.granted
    }

    fn kernel_count(&self) -> u32 {
        self.kernels.len() as u32
    }

    fn space_count(&self) -> u32 {
        self.spaces.len() as u32
    }

    fn thread_count(&self) -> u32 {
        self.threads.len() as u32
    }

    fn row_count(&self) -> u32 {
        self.rows.len() as u32
    }

    fn kernel_of(&self, space: SpaceNo) -> Option<KernelNo> {
        self.spaces.get(space.0 as usize).copied()
    }

    fn rights(&self, kernel: KernelNo) -> Option<Rights> {
        let kernel = self.kernels.get(kernel.0 as usize)?;
        Some(kernel.rights)
    }

    fn row(&self, space: SpaceNo, vpn: Vpn) -> Option<&Row> {
        self.rows.get(space, vpn)
    }

    fn signal_rows(&self, frame: Frame) -> ArrayVec<Row, 4> {
        self.rows.signal_rows(frame)
    }

    fn memory(&self) -> &Memory {
        &self.memory
    }

    fn thread(&self, no: ThreadNo) -> Option<&FlatThread> {
        self.threads.get(no.0 as usize)
    }

    fn space_of(thread: &FlatThread) -> SpaceNo {
        thread.space
    }

    fn context_of(thread: &FlatThread) -> &Context {
        &thread.context
    }

    fn status_of(thread: &FlatThread) -> Status {
        thread.status
    }

    fn queued_of(thread: &FlatThread) -> u32 {
        thread.queue.len() as u32
    }
}
