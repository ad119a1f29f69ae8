//! Why a run ahead stands.

use cache_ident::Vpn;
use rv32_exec::{Access, Context, Reason};

/// Why a run ahead stands.
#[derive(Clone, Copy, PartialEq, Eq, Debug)]
pub enum Paused {
    /// So many steps were taken as were asked for.
    Limit,
    /// The last step was a call.
    Call,
    /// The last step ended the thread.
    Stopped(Reason),
    /// The next step needs a page that no view has, or whose flags forbid it.
    Miss { va: u32, access: Access },
    /// The next step is a store that signals.
    Signal,
}

/// What a store that signals would do, before which a run pauses.
#[derive(Clone, Copy, PartialEq, Eq, Debug)]
pub struct SignalStore {
    /// The page of its address.
    pub vpn: Vpn,
    /// The place of its word in the page, in bytes.
    pub offset: u32,
    /// The word that it stores.
    pub word: u32,
    /// The thread's context behind it.
    pub context: Context,
}
