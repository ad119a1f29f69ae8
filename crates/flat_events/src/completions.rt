//! The completion of a thread's call.

ghost use Rattle.std.specs.Prelude.{◌≡◌, OnOk, OnErr, unwrap_or};
ghost use Rattle.flat_state.specs.Call.{after_completion};

use crate::asked::{Asked, asks};
use cache_ident::{NoMemory, ThreadNo};
use flat_rules::{Changes, is_completable, thread_at};
use flat_thread::refusal;

/// Completes the call that a thread is in, if that can be done. For want of memory nothing happens. A row that comes or
/// goes costs what the tables take for it, and all else a look at the thread.
pub fn complete<T: Changes>(tables: &mut T, no: ThreadNo) -> Result<(), NoMemory>
    ensures ok { OnOk result (T.state tables.new ≡ unwrap_or (after_completion (T.state tables.old) no.0) (T.state tables.old)) }
    ensures err { OnErr result (T.state tables.new ≡ (T.state tables.old)) }
{
    if tables.thread_count() <= no.0 {
        return Ok(());
    }
    if !is_completable::<T>(thread_at(tables, no)) {
        return Ok(());
    }
    match asks(tables, no) {
        Asked::Nothing => tables.carry_out(no)?,
        Asked::Refused { rule } => tables.answer(no, refusal(rule)),
        Asked::Declares { decl, answer } => {
            tables.declare(&decl)?;
            tables.answer(no, answer);
        }
        Asked::Unmaps { space, vpn } => {
            tables.remove_row(space, vpn);
            tables.answer(no, 0);
        }
    }
    Ok(())
}
