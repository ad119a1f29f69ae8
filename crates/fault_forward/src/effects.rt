//! Notices, and what calls bring about.

use rv32_exec::{Access, Reason};

/// Why a thread can't go on by itself.
#[derive(Clone, Copy, Debug, PartialEq, Eq)]
pub enum Notice {
    /// The access at this address finds no row, or one that doesn't allow it.
    Fault { va: u32, access: Access },
    /// It is in a thread call.
    Trap,
}

/// What a completed call brings about, beside its answer in a0.
#[derive(Clone, Copy, Debug, PartialEq, Eq)]
pub enum Effect {
    /// The thread goes on, and nothing else happens.
    Ready,
    /// The byte goes to the output.
    Put(u8),
    /// The number goes to the output in decimal.
    Decimal(u32),
    /// The thread ends.
    End(Reason),
    /// A row is asked for: its page, its frame, its flags as bits (1 r, 2 w, 4 x, 8 m), and 0 for no receiver or else
    /// the receiver's number and 1. The answer in a0 is the caller's to give, as it is for the three below.
    Map {
        vpn: u32,
        frame: u32,
        flags: u32,
        receiver: u32,
    },
    /// The row of this page is to go.
    Unmap {
        vpn: u32,
    },
    /// A thread is asked for, with its pc, its a0 and its priority.
    Spawn {
        pc: u32,
        a0: u32,
        priority: u32,
    },
    /// The rights of a kernel on a page group are to be these bits: 1 read, 2 write.
    Grant {
        kernel: u32,
        group: u32,
        bits: u32,
    },
}
