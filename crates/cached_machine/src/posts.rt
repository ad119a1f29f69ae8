//! Threads that go to processors and come back.

ghost use Rattle.std.specs.Prelude.{◌≡◌, ◌≤◌, ◌∷◌, [], map, Contains, IsSome};
ghost use Rattle.cache_ident.specs.declared.names.ThreadNo.{ThreadNo};
ghost use Rattle.board_laws.specs.desc_stores.specs.Contents.{content_of};
ghost use Rattle.cached_machine.specs.Posts.{mark_of, posted, AreBackFrom, IsPosted, OnlyLoadedAreOut};

use arrayvec::ArrayVec;
use board_laws::Tables;
use cache_ident::{Ident, Name, ThreadNo};
use thread_cache::ThreadRec;

// As many threads as can be loaded.
const MOST_LOADED: usize = 256;

// Where a thread goes.
#[derive(Clone, Copy)]
pub(crate) enum Post {
    // To a processor, by the checkout of that number.
    Out { cpu: u32, number: u64 },
    // Away from its processor.
    In,
}

fn post_thread(thread: &mut ThreadRec, post: Post)
    ensures { thread.new ≡ posted post thread.old }
{
    match post {
        Post::Out { cpu, number } => {
            thread.on_cpu = Some(cpu);
            thread.last = number;
        }
        Post::In => thread.on_cpu = None,
    }
}

// Sends a thread where it goes. What it can do then is what it could do. `near` may be the identifier that it is loaded with.
pub(crate) fn send(tables: &mut Tables, no: ThreadNo, near: Option<Ident>, post: Post)
    requires { IsSome (content_of tables.old.contents (Name.Thread no)) }
    ensures { IsPosted post tables.old tables.new no }
{
    tables.update_thread_named(Name::Thread(no), near, |thread| post_thread(thread, post));
}

// The threads that have just left are on no processor any more.
pub(crate) fn take_back(tables: &mut Tables)
    requires { (no : ThreadNo) → Contains tables.old.left (Name.Thread no) → IsSome (content_of tables.old.contents (Name.Thread no)) }
    ensures { AreBackFrom tables.old.left tables.old tables.new }
{
    for i in 0..tables.left_names().len() {
        let left = tables.left_names()[i];
        take_back_one(tables, left);
    }
}

// What left is on no processor any more, if it is a thread.
fn take_back_one(tables: &mut Tables, left: Name)
    requires { (no : ThreadNo) → left ≡ Name.Thread no → IsSome (content_of tables.old.contents (Name.Thread no)) }
    ensures { AreBackFrom (left ∷ []) tables.old tables.new }
{
    if let Name::Thread(no) = left {
        send(tables, no, None, Post::In);
    }
}

// These threads are on no processor any more.
pub(crate) fn bring_back(tables: &mut Tables, nos: &[ThreadNo])
    requires { (no : ThreadNo) → Contains nos.now no → IsSome (content_of tables.old.contents (Name.Thread no)) }
    ensures { AreBackFrom (map Name.Thread nos.now) tables.old tables.new }
{
    for no in nos {
        send(tables, *no, None, Post::In);
    }
}

// The threads that are on a processor, found by those that are loaded.
pub(crate) fn threads_out(tables: &Tables) -> ArrayVec<ThreadNo, MOST_LOADED>
    requires few { tables.now.caps.threads ≤ 256 }
    requires out { OnlyLoadedAreOut tables.now.contents }
    ensures all { (no : ThreadNo) → IsSome (mark_of tables.now.contents no) → Contains result.items no }
    ensures stand { (no : ThreadNo) → Contains result.items no → IsSome (content_of tables.now.contents (Name.Thread no)) }
{
    tables.are_sound();
    let mut out = ArrayVec::new();
    for loaded in tables.loaded_threads() {
        if loaded.value.on_cpu.is_some() {
            out.push(loaded.value.no);
        }
    }
    out
}
