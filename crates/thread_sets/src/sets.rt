//! The sets of threads, and what puts a thread into each.

ghost use Rattle.std.specs.Prelude.{◌≡◌, ◌+◌, ◌<◌, ◌≤◌, ◌^◌, [], length, IsOk, OnErr, OnOk};
ghost use Rattle.number_set.specs.First.{IsFirstFrom};
ghost use Rattle.number_set.specs.Members.{is_in};
ghost use Rattle.shown_state.specs.flat_state.specs.State.{is_ready as is_ready_status};
ghost use Rattle.thread_sets.specs.Sets.{can_be_completed as can_be_completed_def, noted, pushed, AreAlike, SameButRoom};

use cache_ident::NoMemory;
use number_set::NumberSet;
use rv32_exec::Status;
use std::alloc::Global;
use std::marker::Model;
use thread_cache::ThreadRec;

/// Whether the call that the thread is in can be completed.
pub fn can_be_completed(thread: &ThreadRec) -> bool
    ensures { result ≡ can_be_completed_def thread.now }
{
    matches!(thread.status, Status::Trapped)
        && !(thread.context.regs[17] == 3 && thread.queue.is_empty())
}

// Whether the thread takes steps.
fn is_ready(thread: &ThreadRec) -> bool
    ensures { result ≡ is_ready_status thread.now.status }
{
    matches!(thread.status, Status::Ready)
}

/// Of all threads that stand, by number: those whose call can be completed, and those that are ready.
///
/// A contract sees the sets `completable` and `ready`, which are as long as there are threads, and the `room`, which is how
/// many threads can come without memory. Laws say of a list of threads that has these sets (`AreSetsOf`) which
/// list has them after a call. Only `make_room` takes memory. Unless it says otherwise, a call takes constant time.
#[derive(Drop)]
pub struct ThreadSets {
    completable: NumberSet,
    ready: NumberSet,
}

impl Model for ThreadSets {
    ghost use Rattle.std.specs.Prelude.{◌≡◌, length, min};
    ghost use Rattle.thread_sets.specs.Sets.{Sets};

    ghost Value = { Sets };

    ghost view = { λ all. record {
      completable = all.completable.flags;
      ready = all.ready.flags;
      room = min all.completable.room all.ready.room;
    } };

    ghost invariant = { λ all. length all.ready.flags ≡ length all.completable.flags };
}

impl ThreadSets {
    /// No threads, and no room for any. It takes no memory.
    pub fn new(alloc: Global) -> ThreadSets
        ensures { result ≡ record { completable = []; ready = []; room = 0 } }
    {
        ThreadSets {
            completable: NumberSet::new(alloc),
            ready: NumberSet::new(alloc),
        }
    }

    /// Makes room for at least one thread more, if there is none. Its time, which grows with the threads, is constant for
    /// each thread that it makes room for. Where memory is wanted, or the threads and the room would be 2^32 or more, nothing
    /// changes.
    pub fn make_room(&mut self) -> Result<(), NoMemory>
        ensures same { SameButRoom self.old self.new }
        ensures kept { self.old.room ≤ self.new.room }
        ensures ok { OnOk result (0 < self.new.room) }
        ensures enough { 0 < self.old.room → IsOk result × (self.new ≡ self.old) }
        ensures err { OnErr result (self.new ≡ self.old) }
        ensures alike { AreAlike self.new }
    {
        self.completable.make_room()?;
        self.ready.make_room()
    }

    /// How many threads can come without memory.
    pub fn room(&self) -> usize
        ensures { result ≡ self.now.room }
    {
        self.completable.room().min(self.ready.room())
    }

    /// How many threads there are.
    pub fn len(&self) -> usize
        ensures len { result ≡ length self.now.completable }
        ensures small { result + self.now.room < 2 ^ 32 }
        ensures alike { AreAlike self.now }
    {
        self.completable.len()
    }

    /// A thread comes that has just been declared. It has the next number. It takes no memory.
    pub fn push(&mut self, thread: &ThreadRec)
        requires room { 0 < self.old.room }
        requires next { thread.now.no.0 ≡ length self.old.completable }
        ensures sets { self.new ≡ pushed self.old thread.now }
        ensures alike { AreAlike self.new }
    {
        self.completable.push(can_be_completed(thread));
        self.ready.push(is_ready(thread));
    }

    /// The thread is now as its record says.
    pub fn note(&mut self, thread: &ThreadRec)
        requires { thread.now.no.0 < length self.old.completable }
        ensures sets { self.new ≡ noted self.old thread.now }
        ensures alike { AreAlike self.new }
    {
        let number = thread.no.0;
        self.completable.set(number, can_be_completed(thread));
        self.ready.set(number, is_ready(thread));
    }

    /// The first thread from a number on whose call can be completed. It takes the time of `NumberSet::next`.
    pub fn next_completable(&self, from: u32) -> Option<u32>
        ensures { IsFirstFrom (is_in self.now.completable) from result }
    {
        self.completable.next(from)
    }

    /// The first thread from a number on that is ready. It takes the time of `NumberSet::next`.
    pub fn next_ready(&self, from: u32) -> Option<u32>
        ensures { IsFirstFrom (is_in self.now.ready) from result }
    {
        self.ready.next(from)
    }
}
