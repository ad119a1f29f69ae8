//! What is tested before a thread's call is completed.

ghost use Rattle.std.specs.Prelude.{◌≡◌, true, Some, IfOk};
ghost use Rattle.std.specs.Option.{option_or};
ghost use Rattle.std.specs.Result.{result_err};
ghost use Rattle.board_ops.specs.flat_state.specs.Call.{is_completable};
ghost use Rattle.desc_tables.specs.desc_stores.specs.Contents.{item_as};
ghost use Rattle.desc_tables.specs.desc_stores.specs.declared.items.Item.{Item};
ghost use Rattle.desc_tables.specs.shown_state.specs.Shown.{flat_thread};
ghost use Rattle.board_checks.specs.Refusals.{not_trapped, refusal_of_complete, refusal_of_thread, wait_empty};

use crate::idents::{kernel_as, thread_as};
use crate::owners::check_owner;
use board_ops::Refused;
use cache_ident::Ident;
use desc_tables::{ItemRef, Tables};
use rv32_exec::Status;
use thread_cache::ThreadRec;

// The number of the thread call that takes a signal.
const WAIT: u32 = 3;

/// The thread that is loaded with an identifier, where it is one of the kernel `caller`.
pub fn check_thread(tables: &Tables, caller: Ident, thread: Ident) -> Result<&ThreadRec, Refused>
    ensures exact { result_err result ≡ refusal_of_thread tables.now.contents caller thread }
    ensures found { IfOk result (λ found. item_as tables.now.contents thread ≡ Some (Item.Thread found.now)) }
{
    tables.are_sound();
    let given = kernel_as(tables, caller)?.no;
    let found = thread_as(tables, thread)?;
    check_owner(tables, given, ItemRef::Thread(found), None)?;
    Ok(found)
}

/// Whether the call of the thread that is loaded with an identifier may be completed for the kernel `caller`; the thread, if
/// so.
pub fn check_complete(tables: &Tables, caller: Ident, thread: Ident) -> Result<&ThreadRec, Refused>
    ensures exact { result_err result ≡ refusal_of_complete tables.now.contents caller thread }
    ensures found { IfOk result (λ found. item_as tables.now.contents thread ≡ Some (Item.Thread found.now)) }
    ensures completable { IfOk result (λ found. is_completable (flat_thread found.now) ≡ true) }
{
    let found = check_thread(tables, caller, thread)?;
    check_call(found)?;
    Ok(found)
}

// Refuses the completion of a thread that is in no call (`NotTrapped`), or waits for a signal (`WaitEmpty`).
fn check_call(thread: &ThreadRec) -> Result<(), Refused>
    ensures { result_err result ≡ option_or (not_trapped (flat_thread thread.now)) (wait_empty (flat_thread thread.now)) }
{
    if thread.status != Status::Trapped {
        return Err(Refused::NotTrapped {
            status: thread.status,
        });
    }
    if thread.context.regs[17] == WAIT && thread.queue.is_empty() {
        return Err(Refused::WaitEmpty { thread: thread.no });
    }
    Ok(())
}
