//! What the rules read of the machine.

ghost use Rattle.std.specs.Prelude.{◌≡◌, slice_get};
ghost use Rattle.std.specs.Option.{option_copied, option_map};
ghost use Rattle.board_laws.specs.shown_state.specs.Shown.{flat_thread};
ghost use Rattle.cached_machine.specs.Cached.{state_of};

use crate::machine::CachedMachine;
use crate::reading;
use arrayvec::ArrayVec;
use cache_ident::{Caps, Frame, Ident, KernelNo, SpaceNo, ThreadNo, Vpn};
use flat_rules::Records;
use flat_state::Machine;
use phys_groups::{Memory, Rights, Row};
use rv32_exec::{Context, Status};
use thread_cache::ThreadRec;

impl CachedMachine {
    /// The record of a thread, as `thread` gives it. Where it is loaded with the identifier `near`, that takes constant time.
    pub fn thread_near(&self, no: ThreadNo, near: Option<Ident>) -> Option<&ThreadRec>
        ensures { option_map flat_thread (option_copied result) ≡ slice_get (state_of self.now).threads no.0 }
    {
        reading::thread(&self.tables, no, near)
    }
}

impl Records for CachedMachine {
    type Thread = ThreadRec;

    ghost state = { state_of };

    ghost shown = { flat_thread };

    fn holds(&self) {
        let _ = &self.memory;
    }

    fn machine(&self) -> Option<Machine> {
        Some(self.machine)
    }

    fn granted(&self) -> Caps {
        self.granted
    }

    fn kernel_count(&self) -> u32 {
        reading::known(&self.tables);
        self.tables.kernel_count()
    }

    fn space_count(&self) -> u32 {
        reading::known(&self.tables);
        self.tables.space_count()
    }

    fn thread_count(&self) -> u32 {
        reading::known(&self.tables);
        self.tables.thread_count()
    }

    fn row_count(&self) -> u32 {
        reading::known(&self.tables);
        reading::row_count(&self.tables)
    }

    fn kernel_of(&self, space: SpaceNo) -> Option<KernelNo> {
        reading::kernel_of(&self.tables, space)
    }

    fn rights(&self, kernel: KernelNo) -> Option<Rights> {
        reading::rights(&self.tables, kernel)
    }

    fn row(&self, space: SpaceNo, vpn: Vpn) -> Option<&Row> {
        reading::row(&self.tables, space, vpn)
    }

    fn signal_rows(&self, frame: Frame) -> ArrayVec<Row, 4> {
        reading::signal_rows(&self.tables, frame)
    }

    fn memory(&self) -> &Memory {
        &self.memory
    }

    fn thread(&self, no: ThreadNo) -> Option<&ThreadRec> {
        self.thread_near(no, None)
    }

    fn space_of(thread: &ThreadRec) -> SpaceNo {
        thread.space
    }

    fn context_of(thread: &ThreadRec) -> &Context {
        &thread.context
    }

    fn status_of(thread: &ThreadRec) -> Status {
        thread.status
    }

    fn queued_of(thread: &ThreadRec) -> u32 {
        thread.queue.len() as u32
    }
}
