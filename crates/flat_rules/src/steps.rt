//! How a step changes a machine.

ghost use Rattle.std.specs.Prelude.{◌≡◌, ◌%◌, ◌+◌, ◌<◌, ◌≤◌, false, length, map, slice_get};
ghost use Rattle.phys_groups.specs.Rows.{marked};
ghost use Rattle.rv32_exec.specs.Pages.{put_bytes, size_of};
ghost use Rattle.flat_state.specs.State.{is_ended, with_thread};
ghost use Rattle.flat_state.specs.Signals.{sent_to};
ghost use Rattle.flat_state.specs.Call.{answered};
ghost use Rattle.flat_rules.specs.Readings.{OfThread};

use crate::records::Records;
use cache_ident::{SpaceNo, ThreadNo, Vpn};
use rv32_exec::{Context, Status, Width};

/// Records that a step can change.
///
/// Each call changes its own part of the flat state and leaves all else, also what the records keep beside that state:
/// no descriptor comes or goes by a step. No call takes memory.
pub trait Steps: Records {
    // What the records keep beside the flat state.
    ghost Rest: { Type 0 };

    ghost rest: { Self → Rest };

    /// Puts the low bytes of a number at a place of memory.
    fn store(&mut self, at: u32, width: Width, value: u32)
        requires within { at + size_of width ≤ length (Self.state self.old).memory }
        requires aligned { at % size_of width ≡ 0 }
        ensures state { Self.state self.new ≡ record (Self.state self.old) { memory = put_bytes (size_of width) (Self.state self.old).memory at value } }
        ensures rest { rest self.new ≡ rest self.old };

    /// Marks the row of a page, if there is one, as used, and where `written` as stored to.
    fn mark(&mut self, space: SpaceNo, vpn: Vpn, written: bool)
        ensures state { Self.state self.new ≡ record (Self.state self.old) { rows = map (marked space vpn.0 written) (Self.state self.old).rows } }
        ensures rest { rest self.new ≡ rest self.old };

    /// Gives a thread its registers and its pc, and what it is doing.
    fn put(&mut self, no: ThreadNo, context: &Context, status: Status)
        requires there { no.0 < length (Self.state self.old).threads }
        requires aligned { context.now.pc % 4 ≡ 0 }
        ensures state { OfThread (Self.state self.old) no.0 (λ t. Self.state self.new ≡ with_thread (Self.state self.old) no.0 (record t { context = context.now; status = status })) }
        ensures rest { rest self.new ≡ rest self.old };

    /// Appends an address to a thread's queue, unless the thread has ended.
    fn give(&mut self, no: ThreadNo, va: u32)
        requires there { no.0 < length (Self.state self.old).threads }
        requires room { OfThread (Self.state self.old) no.0 (λ t. is_ended t.status ≡ false → length t.queue.items < 64) }
        ensures state { Self.state self.new ≡ record (Self.state self.old) { threads = sent_to (Self.state self.old).threads no va (slice_get (Self.state self.old).threads no.0) } }
        ensures rest { rest self.new ≡ rest self.old };

    /// A thread goes on, with an answer in a0.
    fn answer(&mut self, no: ThreadNo, value: u32)
        requires { no.0 < length (Self.state self.old).threads }
        ensures state { OfThread (Self.state self.old) no.0 (λ t. Self.state self.new ≡ with_thread (Self.state self.old) no.0 (answered t value)) }
        ensures rest { rest self.new ≡ rest self.old };
}
