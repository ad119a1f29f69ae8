//! The thread calls.

ghost use Rattle.std.specs.Prelude.{◌≡◌};
ghost use Rattle.fault_forward.specs.Calls.{IsCompletable, completion_of};

use crate::effects::Effect;
use arrayvec::ArrayVec;
use cache_ident::ThreadNo;
use rv32_exec::{Context, Reason};

/// The effect of the call that the thread is in. It takes the call's address off the queue and puts the call's
/// answer into a0, but for the calls whose answer is left to the caller. `no` is the thread's number.
///
/// It takes no memory, and no longer than a queue of 64 addresses takes to move up.
pub fn effect(no: ThreadNo, context: &mut Context, queue: &mut ArrayVec<u32, 64>) -> Effect
    requires { IsCompletable context.old queue.old.items }
    ensures effect { result ≡ (completion_of no context.old queue.old.items).effect }
    ensures context { context.new ≡ (completion_of no context.old queue.old.items).context }
    ensures queue { queue.new.items ≡ (completion_of no context.old queue.old.items).queue }
{
    let [a0, a1, a2, a3] = [
        context.regs[10],
        context.regs[11],
        context.regs[12],
        context.regs[13],
    ];
    match context.regs[17] {
        0 => Effect::End(Reason::Exited { code: a0 }),
        1 => Effect::Put((a0 % 256) as u8),
        2 => Effect::Decimal(a0),
        3 => {
            context.regs[10] = queue.remove(0);
            Effect::Ready
        }
        4 => Effect::Ready,
        5 => {
            context.regs[10] = no.0;
            Effect::Ready
        }
        6 => Effect::Map {
            vpn: a0,
            frame: a1,
            flags: a2,
            receiver: a3,
        },
        7 => Effect::Unmap { vpn: a0 },
        8 => Effect::Spawn {
            pc: a0,
            a0: a1,
            priority: a2,
        },
        9 => Effect::Grant {
            kernel: a0,
            group: a1,
            bits: a2,
        },
        number => Effect::End(Reason::BadCall { number }),
    }
}
