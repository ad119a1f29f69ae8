//! What can happen to a machine.

use cache_ident::{Caps, Frame, KernelNo, SpaceNo, ThreadNo, Vpn};
use phys_groups::Flags;

/// The greatest capacities that a machine's caches can have.
pub const GREATEST_CAPS: Caps = Caps {
    kernels: 16,
    spaces: 64,
    threads: 256,
    mappings: 65_536,
};

/// The most that can be declared of each kind.
pub const MOST_DECLARED: Caps = Caps {
    kernels: 1_024,
    spaces: 4_096,
    threads: 16_384,
    mappings: 262_144,
};

/// The most of each kind that one step wants loaded, which no limits of locks take from a machine's capacities.
pub const STEP_CAPS: Caps = Caps {
    kernels: 5,
    spaces: 5,
    threads: 5,
    mappings: 6,
};

/// The most descriptors that one step wants loaded: those of `STEP_CAPS`, of all kinds.
pub const MOST_WANTED: usize = (STEP_CAPS.kernels
    + STEP_CAPS.spaces
    + STEP_CAPS.threads
    + STEP_CAPS.mappings) as usize;

/// How much memory a machine has, and how much its caches hold.
#[derive(Clone, Copy, PartialEq, Eq, Debug)]
pub struct Machine {
    /// Page groups of 524,288 bytes, 1 to 16.
    pub groups: u32,
    /// The capacity of each cache: at most 16 kernels, 64 spaces, 256 threads and 65,536 mappings. The machine with
    /// unlimited tables has them for the rule on lock limits alone.
    pub caps: Caps,
}

/// A declaration. Numbers of kernels, spaces and threads are the next of their kind, from 0 on.
#[derive(Clone, Copy, PartialEq, Eq, Debug)]
pub enum Decl {
    /// The machine, before all else.
    Machine {
        machine: Machine,
    },
    /// A kernel without rights, and how many descriptors of each kind it may lock.
    Kernel {
        no: KernelNo,
        limits: Caps,
    },
    /// The rights of a kernel on a page group, in the place of those before.
    Right {
        kernel: KernelNo,
        group: u32,
        read: bool,
        write: bool,
    },
    /// A space of a kernel.
    Space {
        no: SpaceNo,
        kernel: KernelNo,
    },
    /// A ready thread of a space. Registers but a0 and a1 are zero.
    Thread {
        no: ThreadNo,
        space: SpaceNo,
        pc: u32,
        /// 0 to 31; the higher number runs first.
        priority: u32,
        a0: u32,
        a1: u32,
    },
    /// A row, with both bits clear, behind all others.
    Map {
        space: SpaceNo,
        vpn: Vpn,
        frame: Frame,
        flags: Flags,
        receiver: Option<ThreadNo>,
    },
    /// A word of memory, at an offset of a frame.
    Word {
        frame: Frame,
        offset: u32,
        value: u32,
    },
}

/// What happens to a machine, one at a time.
#[derive(Clone, Copy, PartialEq, Eq, Debug)]
pub enum Event {
    /// Something is declared.
    Declare(Decl),
    /// A thread takes its next step.
    Step(ThreadNo),
    /// The call that a thread is in is completed.
    Complete(ThreadNo),
}
