//! What a step does to memory, to a row and to a thread.

ghost use Rattle.std.specs.Prelude.{◌≡◌, ◌<◌, ◌||◌, true, length, IsSome};
ghost use Rattle.board_laws.specs.desc_stores.specs.Contents.{content_of};
ghost use Rattle.cached_machine.specs.Stepping.{lacks_mark as lacks_mark_def, left_by, IfThread, IsMarked, IsStepped};
ghost use Rattle.thread_sets.specs.Sets.{noted};

use board_laws::{ItemRef, Tables};
use cache_ident::{Ident, Name, SpaceNo, ThreadNo, Vpn};
use phys_groups::Row;
use rv32_exec::{Context, Status};
use thread_cache::ThreadRec;
use thread_sets::ThreadSets;

// Marks a row as used, and where `written` as stored to.
pub(crate) fn mark_row(row: &mut Row, written: bool)
    ensures { row.new ≡ record row.old { referenced = true; modified = row.old.modified || written } }
{
    row.referenced = true;
    row.modified = row.modified || written;
}

// What a step changes of a thread.
#[derive(Clone, Copy)]
pub(crate) enum Change {
    // It has these registers and this pc, and does that.
    Put { context: Context, status: Status },
    // An address comes to its queue, unless it has ended.
    Give { va: u32 },
    // It goes on, with an answer in a0.
    Answer { value: u32 },
}

// Changes a thread.
fn change_thread(thread: &mut ThreadRec, change: Change)
    ensures { thread.new ≡ left_by change thread.old }
{
    match change {
        Change::Put { context, status } => {
            thread.context = context;
            thread.status = status;
        }
        Change::Give { va } => {
            if !thread.queue.is_full() {
                flat_thread::give(thread.status, &mut thread.queue, va);
            }
        }
        Change::Answer { value } => {
            flat_thread::answer(&mut thread.context, &mut thread.status, value);
        }
    }
}

// Changes a thread where it stands, and notes what it can do then. `near` may be the identifier that it is loaded with.
pub(crate) fn update(
    tables: &mut Tables,
    sets: &mut ThreadSets,
    no: ThreadNo,
    near: Option<Ident>,
    change: Change,
)
    requires there { IsSome (content_of tables.old.contents (Name.Thread no)) }
    requires numbered { no.0 < length sets.old.completable }
    ensures { IsStepped change tables.old tables.new sets.old sets.new no }
{
    tables.update_thread_named(
        Name::Thread(no),
        near,
        |thread| change_thread(thread, change),
    );
    note(tables, sets, no, near);
}

// The sets have a thread as it is now.
pub(crate) fn note(tables: &Tables, sets: &mut ThreadSets, no: ThreadNo, near: Option<Ident>)
    requires { no.0 < length sets.old.completable }
    ensures { IfThread (content_of tables.now.contents (Name.Thread no)) (λ thread. sets.new ≡ noted sets.old thread) }
{
    if let Some(ItemRef::Thread(thread)) = tables.item_near(Name::Thread(no), near) {
        sets.note(thread);
    }
}

// Marks the row of a page where it stands, if there is one. One that has its marks is left alone. `near` may be the identifier
// that it is loaded with.
pub(crate) fn mark_named(
    tables: &mut Tables,
    space: SpaceNo,
    vpn: Vpn,
    near: Option<Ident>,
    written: bool,
)
    ensures { IsMarked tables.old tables.new space vpn written }
{
    let name = Name::Mapping(space, vpn);
    if lacks_mark(tables, name, near, written) {
        tables.update_row_named(name, near, |row| mark_row(row, written));
    }
}

// Whether there is a row of that name which isn't marked as used, or, where `written`, as stored to.
fn lacks_mark(tables: &Tables, name: Name, near: Option<Ident>, written: bool) -> bool
    ensures { result ≡ lacks_mark_def written (content_of tables.now.contents name) }
{
    match tables.item_near(name, near) {
        Some(ItemRef::Mapping(row)) => !row.referenced || written && !row.modified,
        _ => false,
    }
}
