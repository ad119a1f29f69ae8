//! What the rules read of a machine.

ghost use Rattle.std.specs.Prelude.{◌≡◌, filter, length, slice_get};
ghost use Rattle.std.specs.Option.{option_copied, option_map};
ghost use Rattle.phys_groups.specs.Translation.{row_of};
ghost use Rattle.signal_pages.specs.Signals.{is_signal_row_of};
ghost use Rattle.flat_state.specs.declared.records.FlatThread.{FlatThread};
ghost use Rattle.flat_state.specs.State.{FlatState};
ghost use Rattle.flat_state.specs.Declaration.{locks_granted};
ghost use Rattle.flat_state.specs.WellFormed.{IsWellFormed};

use arrayvec::ArrayVec;
use cache_ident::{Caps, Frame, KernelNo, SpaceNo, ThreadNo, Vpn};
use flat_state::Machine;
use phys_groups::{Memory, Rights, Row};
use rv32_exec::{Context, Status};

/// The records of a machine, wherever they stand.
///
/// What they mean is a flat state: memory as bytes, and kernels, spaces, rows and threads in declared order. Each call
/// answers a part of that state, and takes no memory. How long it takes is the implementor's affair; the rules ask for a
/// record once where they can.
pub trait Records {
    /// The record of a thread.
    type Thread;

    ghost state: { Self → FlatState };

    // The thread that a record is of.
    ghost shown: { Self.Thread → FlatThread };

    /// Does nothing. A proof has from it what holds of every state that events can reach.
    fn holds(&self)
        ensures { IsWellFormed (state self.now) };

    /// The machine, if it was declared.
    fn machine(&self) -> Option<Machine>
        ensures { result ≡ (state self.now).machine };

    /// The lock limits of all kernels, summed by kind.
    fn granted(&self) -> Caps
        ensures { result ≡ locks_granted (state self.now).kernels };

    /// How many kernels there are.
    fn kernel_count(&self) -> u32
        ensures { result ≡ length (state self.now).kernels };

    /// How many spaces there are.
    fn space_count(&self) -> u32
        ensures { result ≡ length (state self.now).spaces };

    /// How many threads there are.
    fn thread_count(&self) -> u32
        ensures { result ≡ length (state self.now).threads };

    /// How many rows there are.
    fn row_count(&self) -> u32
        ensures { result ≡ length (state self.now).rows };

    /// The kernel of a space, and none where there is no such space.
    fn kernel_of(&self, space: SpaceNo) -> Option<KernelNo>
        ensures { result ≡ slice_get (state self.now).spaces space.0 };

    /// The rights of a kernel, and none where there is no such kernel.
    fn rights(&self, kernel: KernelNo) -> Option<Rights>
        ensures { result ≡ option_map (λ k. k.rights) (slice_get (state self.now).kernels kernel.0) };

    /// The row of a page, and none where there is none.
    fn row(&self, space: SpaceNo, vpn: Vpn) -> Option<&Row>
        ensures { option_copied result ≡ row_of (state self.now).rows space vpn.0 };

    /// The rows of a frame that have a receiver, in declared order.
    fn signal_rows(&self, frame: Frame) -> ArrayVec<Row, 4>
        ensures { result.items ≡ filter (is_signal_row_of frame) (state self.now).rows };

    /// All of memory.
    fn memory(&self) -> &Memory
        ensures { result.now ≡ (state self.now).memory };

    /// The record of the thread of that number, and none where there is none.
    fn thread(&self, no: ThreadNo) -> Option<&Self::Thread>
        ensures { option_map shown (option_copied result) ≡ slice_get (state self.now).threads no.0 };

    /// The space of a thread.
    fn space_of(thread: &Self::Thread) -> SpaceNo
        ensures { result ≡ (shown thread.now).space };

    /// The registers and the pc of a thread.
    fn context_of(thread: &Self::Thread) -> &Context
        ensures { result.now ≡ (shown thread.now).context };

    /// What a thread is doing.
    fn status_of(thread: &Self::Thread) -> Status
        ensures { result ≡ (shown thread.now).status };

    /// How many signals a thread has that it hasn't taken yet.
    fn queued_of(thread: &Self::Thread) -> u32
        ensures { result ≡ length (shown thread.now).queue.items };
}
