//! What the next step of a thread would do, without taking it.

ghost use Rattle.std.specs.Prelude.{◌≡◌, ◌%◌, IfSome, true, not};
ghost use Rattle.std.specs.Option.{option_map};
ghost use Rattle.phys_groups.specs.Memory.{word_at as word_at_def};
ghost use Rattle.phys_groups.specs.Translation.{place_in};
ghost use Rattle.rv32_exec.specs.declared.statuses.Access.TheVariants.{Write};
ghost use Rattle.rv32_exec.specs.Pages.{fetched, translates};
ghost use Rattle.flat_state.specs.State.{is_ready as is_ready_def};
ghost use Rattle.flat_state.specs.Translation.{reached as reached_def};
ghost use Rattle.flat_state.specs.Pages.{pages_of};
ghost use Rattle.flat_state.specs.Signals.{next_action as next_action_def, next_signal as next_signal_def, signal_of as signal_of_def, signal_through as signal_through_def};
ghost use Rattle.phys_groups.specs.Rows.{row_name as row_name_def};
ghost use Rattle.flat_state.specs.NextSteps.{fetch_row as fetch_row_def, faults as faults_def, next_step as next_step_def, next_step_of as next_step_of_def, row_of_action as row_of_action_def};
ghost use Rattle.flat_rules.specs.Looking.{does_any_miss, does_miss};
ghost use Rattle.flat_rules.specs.Readings.{IsInMemory, IsThreadOf};

use crate::records::Records;
use crate::signals::full_for;
use crate::threads::{is_ready, thread_at};
use crate::translation::reached;
use cache_ident::{Name, ThreadNo};
use flat_state::{NextStep, Signal};
use flat_thread::{action_for_word, data_access, stored_word};
use phys_groups::{PAGE_BYTES, Row};
use rv32_exec::{Access, Action};
use signal_pages::signals;

/// The name of a row.
pub(crate) fn row_name(row: Row) -> Name
    ensures { result ≡ row_name_def row }
{
    Name::Mapping(row.space, row.vpn)
}

// The name of a row, if there is one.
fn name_of(row: Option<Row>) -> Option<Name>
    ensures { result ≡ option_map row_name_def row }
{
    row.map(row_name)
}

/// What can be said of a thread's next step, and none where there is no such thread. It costs a look at a few rows and,
/// where the step sends a signal, at its receivers.
#[tactic(auto, unfolding(flat_state::specs::NextSteps::next_step))]
pub fn next_step<T: Records>(tables: &T, no: ThreadNo) -> Option<NextStep>
    ensures { result ≡ next_step_def (T.state tables.now) no.0 }
{
    if tables.thread_count() <= no.0 {
        return None;
    }
    Some(next_step_of(tables, thread_at(tables, no)))
}

fn next_step_of<T: Records>(tables: &T, thread: &T::Thread) -> NextStep
    requires { IsThreadOf (T.state tables.now) (T.shown thread.now) }
    ensures { result ≡ next_step_of_def (T.state tables.now) (T.shown thread.now) }
{
    if is_ready::<T>(thread) {
        next_step_of_ready(tables, thread)
    } else {
        NextStep {
            runnable: false,
            faults: false,
            fetch_row: None,
            data_row: None,
        }
    }
}

// The same of a thread that is ready. It fetches and decodes once.
fn next_step_of_ready<T: Records>(tables: &T, thread: &T::Thread) -> NextStep
    requires thread { IsThreadOf (T.state tables.now) (T.shown thread.now) }
    requires ready { is_ready_def (T.shown thread.now).status ≡ true }
    ensures { result ≡ next_step_of_def (T.state tables.now) (T.shown thread.now) }
{
    let fetch_row = fetch_row(tables, thread);
    let word = word_through(tables, thread, fetch_row);
    let action = action_of(tables, thread, word);
    NextStep {
        runnable: full_for(tables, signal_of(tables, thread, action)).is_none(),
        faults: faults(tables, thread, word, action),
        fetch_row: name_of(fetch_row),
        data_row: name_of(row_of_action(tables, thread, action)),
    }
}

fn fetch_row<T: Records>(tables: &T, thread: &T::Thread) -> Option<Row>
    ensures row { result ≡ fetch_row_def (T.state tables.now) (T.shown thread.now) }
    ensures in_memory { IfSome result (λ row. IsInMemory (T.state tables.now).memory row.frame) }
{
    let pc = T::context_of(thread).pc;
    reached(tables, Access::Fetch, T::space_of(thread), pc).ok()
}

// The row that the first access to data of the action goes through, if there is an action.
fn row_of_action<T: Records>(tables: &T, thread: &T::Thread, action: Option<Action>) -> Option<Row>
    ensures { result ≡ row_of_action_def (T.state tables.now) (T.shown thread.now) action }
{
    let access = data_access(action?)?;
    reached(tables, access.access, T::space_of(thread), access.va).ok()
}

// The word at the thread's pc, where its fetch goes through that row.
fn word_through<T: Records>(tables: &T, thread: &T::Thread, row: Option<Row>) -> Option<u32>
    requires thread { IsThreadOf (T.state tables.now) (T.shown thread.now) }
    requires row { row ≡ fetch_row_def (T.state tables.now) (T.shown thread.now) }
    requires in_memory { IfSome row (λ row. IsInMemory (T.state tables.now).memory row.frame) }
    ensures { result ≡ fetched (pages_of (T.state tables.now) (T.shown thread.now).space) (T.shown thread.now).context.pc }
{
    match row {
        Some(row) => Some(word_at(tables, &row, T::context_of(thread).pc)),
        None => None,
    }
}

// The word at an address of the row's page.
fn word_at<T: Records>(tables: &T, row: &Row, va: u32) -> u32
    requires in_memory { IsInMemory (T.state tables.now).memory row.now.frame }
    requires aligned { va % 4 ≡ 0 }
    ensures { result ≡ word_at_def (T.state tables.now).memory (place_in row.now.frame va) }
{
    tables
        .memory()
        .word(row.frame.0 * PAGE_BYTES + va % PAGE_BYTES)
}

// What the thread's next instruction asks for; none where its fetch doesn't translate, or the word is no instruction.
fn next_action<T: Records>(tables: &T, thread: &T::Thread) -> Option<Action>
    requires { IsThreadOf (T.state tables.now) (T.shown thread.now) }
    ensures { result ≡ next_action_def (T.shown thread.now).context (pages_of (T.state tables.now) (T.shown thread.now).space) }
{
    let fetch_row = fetch_row(tables, thread);
    action_of(tables, thread, word_through(tables, thread, fetch_row))
}

// The same where that is the word fetched, if there is one.
#[tactic(auto, unfolding(flat_state::specs::Signals::next_action))]
fn action_of<T: Records>(tables: &T, thread: &T::Thread, word: Option<u32>) -> Option<Action>
    requires { word ≡ fetched (pages_of (T.state tables.now) (T.shown thread.now).space) (T.shown thread.now).context.pc }
    ensures { result ≡ next_action_def (T.shown thread.now).context (pages_of (T.state tables.now) (T.shown thread.now).space) }
{
    match word {
        Some(word) => action_for_word(T::context_of(thread), word),
        None => None,
    }
}

// Whether an access of the thread's next step doesn't translate, where that is the word fetched and what it asks for.
fn faults<T: Records>(
    tables: &T,
    thread: &T::Thread,
    word: Option<u32>,
    action: Option<Action>,
) -> bool
    requires word { word ≡ fetched (pages_of (T.state tables.now) (T.shown thread.now).space) (T.shown thread.now).context.pc }
    requires action { action ≡ next_action_def (T.shown thread.now).context (pages_of (T.state tables.now) (T.shown thread.now).space) }
    ensures { result ≡ faults_def (T.state tables.now) (T.shown thread.now) }
{
    match word {
        Some(_) => misses_any(tables, thread, action),
        None => true,
    }
}

// Whether an access to data of the action, if there is one, doesn't translate.
fn misses_any<T: Records>(tables: &T, thread: &T::Thread, action: Option<Action>) -> bool
    ensures { result ≡ does_any_miss (T.shown thread.now).context (pages_of (T.state tables.now) (T.shown thread.now).space) action }
{
    match action {
        Some(action) => misses(tables, thread, action),
        None => false,
    }
}

// Whether an access to data of the action doesn't translate.
#[tactic(auto, using(crate::proofs::Missing::missing), unfolding(rv32_exec::specs::Steps::after_action))]
fn misses<T: Records>(tables: &T, thread: &T::Thread, action: Action) -> bool
    ensures { result ≡ does_miss (T.shown thread.now).context (pages_of (T.state tables.now) (T.shown thread.now).space) action }
{
    match action {
        Action::Load { va, width, .. } => {
            va % width.size() == 0 && lacks(tables, thread, Access::Read, va)
        }
        Action::Store { va, width, .. } => {
            va % width.size() == 0 && lacks(tables, thread, Access::Write, va)
        }
        Action::Atomic { va, .. } => {
            va % 4 == 0
                && (lacks(tables, thread, Access::Read, va)
                    || lacks(tables, thread, Access::Write, va))
        }
        Action::Set { .. } | Action::Pass | Action::Jump { .. } | Action::Call | Action::Break =>
            false,
    }
}

// Whether an access of the thread doesn't translate.
fn lacks<T: Records>(tables: &T, thread: &T::Thread, access: Access, va: u32) -> bool
    ensures { result ≡ not (translates (pages_of (T.state tables.now) (T.shown thread.now).space) va access) }
{
    reached(tables, access, T::space_of(thread), va).is_err()
}

/// The signal that the thread's next step sends. It costs a look at one or two rows.
#[tactic(auto, unfolding(flat_state::specs::Signals::next_signal))]
pub fn next_signal<T: Records>(tables: &T, thread: &T::Thread) -> Option<Signal>
    requires { IsThreadOf (T.state tables.now) (T.shown thread.now) }
    ensures { result ≡ next_signal_def (T.state tables.now) (T.shown thread.now) }
{
    signal_of(tables, thread, next_action(tables, thread))
}

// The signal that an action of the thread sends, if there is an action.
fn signal_of<T: Records>(tables: &T, thread: &T::Thread, action: Option<Action>) -> Option<Signal>
    ensures { result ≡ signal_of_def (T.state tables.now) (T.shown thread.now) action }
{
    match action {
        Some(action) => match stored_word(action) {
            Some(va) => signal_through(tables, thread, va),
            None => None,
        },
        None => None,
    }
}

// The signal of a word that is stored at an address.
fn signal_through<T: Records>(tables: &T, thread: &T::Thread, va: u32) -> Option<Signal>
    ensures { result ≡ signal_through_def va (reached_def (T.state tables.now) Write (T.shown thread.now).space va) }
{
    let offset = va % PAGE_BYTES;
    match reached(tables, Access::Write, T::space_of(thread), va) {
        Ok(row) if row.flags.m && signals(offset) => Some(Signal {
            frame: row.frame,
            offset,
        }),
        _ => None,
    }
}
