//! What a checkout gives.

ghost use Rattle.std.specs.Prelude.{◌≡◌, ◌%◌, ◌<◌};
ghost use Rattle.cache_ident.specs.declared.idents.Kind.TheVariants.{Thread};

use cache_ident::{Ident, ThreadNo};
use rv32_exec::Context;

/// A thread that was checked out: its identifier then, its number, the processor, and its registers and pc at that moment.
///
/// The thread is the one that the identifier names; the number is for those who read it.
#[derive(Clone, Copy)]
pub struct Ticket {
    pub thread: Ident,
    pub no: ThreadNo,
    pub cpu: u32,
    pub context: Context,
    pub ghost kind: { thread.kind ≡ Thread },
    pub ghost processor: { cpu < 8 },
    pub ghost aligned: { context.pc % 4 ≡ 0 },
}
