//! Why the board refuses a call.

ghost use Rattle.std.specs.Prelude.{◌≡◌};
ghost use Rattle.board_ops.specs.declared.refusals.Refused.TheVariants.{NoMemory};

use cache_ident::{Frame, Ident, KernelNo, Kind, Name, SpaceNo, ThreadNo, Vpn};
use rv32_exec::Status;
use std::alloc::{AllocError, AllocFailed};

/// Why the board refuses a call. After each of them the board is as it was. They stand in the order in which a call
/// tests them, but that it tests the identifiers of its arguments one after the other, each for all that can be wrong
/// with it.
#[derive(Clone, Copy, PartialEq, Eq, Debug)]
pub enum Refused {
    /// Memory ran out.
    NoMemory,
    /// The identifier was not issued.
    Unknown {
        ident: Ident,
    },
    /// The identifier's descriptor left its cache, by the journal's entry `at`, counted from 0.
    Stale {
        ident: Ident,
        at: u64,
    },
    /// The identifier is live, and of another kind than the call asks for.
    WrongKind {
        ident: Ident,
    },
    /// Nothing of that name is declared.
    NotDeclared {
        name: Name,
    },
    /// The caller is kernel `given`, and what the call names belongs to kernel `owner`.
    NotOwner {
        given: KernelNo,
        owner: KernelNo,
    },
    /// The thread's space, or the receiver of the row, is not the one that was given.
    WrongParent {
        given: Option<Name>,
        declared: Option<Name>,
    },
    /// What is to be loaded is loaded, under that identifier.
    AlreadyLoaded {
        ident: Ident,
    },
    /// The rights of the row's kernel don't cover its flags on that frame, which is of that page group.
    Rights {
        frame: Frame,
        group: u32,
    },
    /// That row, which takes the signals of the message row's frame, isn't loaded; it is the first such row in
    /// declared order.
    ReceiversAbsent {
        space: SpaceNo,
        vpn: Vpn,
    },
    /// The kernel has as many locked descriptors of the kind as it may have.
    LimitReached {
        kernel: KernelNo,
        kind: Kind,
        limit: u32,
    },
    /// The first kernel stays, and stays locked.
    FirstKernel,
    /// The thread is in no call.
    NotTrapped {
        status: Status,
    },
    /// The thread waits for a signal, and has none.
    WaitEmpty {
        thread: ThreadNo,
    },
    /// The thread takes no steps.
    NotRunnable {
        status: Status,
    },
    /// The thread is marked as on that processor.
    OnCpu {
        cpu: u32,
    },
    /// The thread's next step doesn't fault: all its accesses translate. That is the page of its data access, or of
    /// its fetch where it makes none.
    Mapped {
        space: SpaceNo,
        vpn: Vpn,
    },
    /// The thread is not where it was: on that processor or on none, or on the same one with another context.
    Moved {
        cpu: Option<u32>,
    },
    /// No row of that page is loaded, or no longer the one that was copied from.
    NotLoaded {
        vpn: Vpn,
    },
    /// A frame whose copy was touched has other contents now.
    Changed {
        frame: Frame,
    },
    /// More steps are asked for than are left, which are so many.
    Over {
        left: u64,
    },
    /// The thread's next step would signal a receiver that has no room for it.
    Held {
        receiver: ThreadNo,
    },
    /// Declarations have ended.
    Sealed,
    /// Declarations haven't ended.
    NotSealed,
    /// The declaration breaks that rule of scenarios, and none before it.
    BadDecl {
        rule: u32,
    },
}

impl From<AllocError> for Refused {
    ghost from_gives = { λ _ refused. refused ≡ NoMemory };

    fn from(_e: AllocError) -> Refused {
        Refused::NoMemory
    }
}

impl<T: Drop> From<AllocFailed<T>> for Refused {
    ghost from_gives = { λ _ refused. refused ≡ NoMemory };

    fn from(_e: AllocFailed<T>) -> Refused {
        Refused::NoMemory
    }
}
