//! What can be asked of the board.

use cache_ident::{Ident, KernelNo, SpaceNo, ThreadNo, Vpn};
use flat_state::Decl;

/// One operation on the board. `cpu` is the processor that asks, 0 to 7, and `caller` the identifier of the kernel
/// that it asks for.
#[derive(Clone, Copy, PartialEq, Eq, Debug)]
pub enum Op {
    /// Declare something.
    Declare {
        decl: Decl,
    },
    /// End the declarations, and load the first kernel and lock it.
    Seal,
    LoadKernel {
        cpu: u32,
        caller: Ident,
        kernel: KernelNo,
    },
    LoadSpace {
        cpu: u32,
        caller: Ident,
        space: SpaceNo,
    },
    /// Load a thread into the loaded space `parent`.
    LoadThread {
        cpu: u32,
        caller: Ident,
        parent: Ident,
        thread: ThreadNo,
    },
    /// Load the row of a page into the loaded space `parent`, with the loaded thread that receives its signals.
    LoadMapping {
        cpu: u32,
        caller: Ident,
        parent: Ident,
        vpn: Vpn,
        receiver: Option<Ident>,
    },
    Unload {
        cpu: u32,
        caller: Ident,
        ident: Ident,
    },
    Lock {
        cpu: u32,
        caller: Ident,
        ident: Ident,
    },
    Unlock {
        cpu: u32,
        caller: Ident,
        ident: Ident,
    },
    /// Take the next thread onto the processor's desk, and begin a quantum of it.
    Checkout {
        cpu: u32,
    },
    /// Copy a page into the quantum on the desk.
    View {
        cpu: u32,
        vpn: Vpn,
    },
    /// Take at most `limit` steps of the quantum on the desk.
    RunAhead {
        cpu: u32,
        limit: u32,
    },
    /// Make the steps of the quantum happen.
    Commit {
        cpu: u32,
    },
    /// Give back the thread on the desk.
    Leave {
        cpu: u32,
    },
    /// Complete the call that a thread is in.
    Complete {
        cpu: u32,
        caller: Ident,
        thread: Ident,
    },
    /// Take the next step of a thread, which faults.
    ConfirmFault {
        cpu: u32,
        caller: Ident,
        thread: Ident,
    },
    /// Load all that the next step of a thread needs, and take it.
    HealStep {
        cpu: u32,
        thread: ThreadNo,
    },
    /// Make room for `n` more identifiers and entries. While there is room for 22 and one more for each descriptor that is
    /// loaded, no call wants memory but a declaration, a completion and this one.
    Reserve {
        n: usize,
    },
}
