//! Whom a processor finds.

use cache_board::Ticket;
use cache_ident::ThreadNo;

/// Whom a look at the board finds.
///
/// It is large, since a ticket has a thread's context. So what may look for the next thread behind something else is given the place
/// that whom it finds is written to, and answers whether it looked.
#[derive(Clone, Copy)]
pub enum Found {
    /// This thread came to the processor, whose quantum begins with its context.
    Out(Ticket),
    /// This thread waits for its owners, in a call or not, with that pc.
    Wanted {
        no: ThreadNo,
        trapped: bool,
        pc: u32,
    },
    /// No thread can come to the processor, and none waits for its owners.
    Nothing,
    /// The run is over for this processor. Nobody was looked for.
    Over,
}
