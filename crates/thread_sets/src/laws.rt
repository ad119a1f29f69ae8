//! Of which threads the sets are, as threads come and change.

ghost use Rattle.std.specs.Prelude.{◌≡◌, ℕ, ◌<◌, Bool, false, ◌&&◌, List, [], ◌∷◌, ◌++◌, length, slice_get, slice_set, None, Some, IsTrue};
ghost use Rattle.std.specs.List.{list_any};
ghost use Rattle.shown_state.specs.flat_state.specs.declared.records.FlatThread.{FlatThread};
ghost use Rattle.shown_state.specs.flat_state.specs.Call.{is_completable};
ghost use Rattle.shown_state.specs.flat_state.specs.State.{is_ready};
ghost use Rattle.number_set.specs.First.{IsFirstFrom};
ghost use Rattle.number_set.specs.Members.{is_in};
ghost use Rattle.thread_cache.specs.declared.ThreadRec.{ThreadRec};
ghost use Rattle.shown_state.specs.Shown.{flat_thread};
ghost use Rattle.thread_sets.specs.Sets.{Sets, noted, pushed, SameButRoom};
ghost use Rattle.thread_sets.specs.SetsOf.{takes_steps, AreSetsOf, IsThread};

/// Where there are no threads, nothing is in the sets.
pub fn no_threads_have_empty_sets()
    ensures { (room : ℕ) → AreSetsOf [] (record { completable = []; ready = []; room = room }) }
{}

/// Whatever room there is, the sets are those of the same threads.
pub fn room_keeps_the_sets()
    ensures { (threads : List FlatThread) (sets new : Sets) → SameButRoom sets new
        → AreSetsOf threads sets → AreSetsOf threads new }
{}

/// Where a thread is ready as before, and its call can be completed as before, nothing needs to be noted.
pub fn a_change_may_keep_the_sets()
    ensures { (threads : List FlatThread) (sets : Sets) (number : ℕ) (old new : FlatThread)
        → slice_get threads number ≡ Some old → is_completable new ≡ is_completable old
        → is_ready new.status ≡ is_ready old.status → AreSetsOf threads sets
        → AreSetsOf (slice_set threads number new) sets }
{}

/// Once a thread is noted, the sets are those of the threads with it in its place.
pub fn a_noted_thread_has_its_place()
    ensures { (threads : List FlatThread) (sets : Sets) (thread : ThreadRec) → thread.no.0 < length threads
        → AreSetsOf threads sets → AreSetsOf (slice_set threads thread.no.0 (flat_thread thread)) (noted sets thread) }
{}

/// Once a thread has come, the sets are those of the threads with it as the last.
pub fn a_pushed_thread_comes_last()
    ensures { (threads : List FlatThread) (sets : Sets) (thread : ThreadRec)
        → AreSetsOf threads sets → AreSetsOf (threads ++ flat_thread thread ∷ []) (pushed sets thread) }
{}

/// The sets are as long as there are threads.
pub fn sets_are_as_long()
    ensures { (threads : List FlatThread) (sets : Sets) → AreSetsOf threads sets
        → length sets.completable ≡ length threads }
{}

/// Who is in a set stands.
pub fn who_is_in_a_set_stands()
    ensures completable { (threads : List FlatThread) (sets : Sets) (number : ℕ) → AreSetsOf threads sets
        → IsTrue (is_in sets.completable number) → IsThread threads number is_completable }
    ensures ready { (threads : List FlatThread) (sets : Sets) (number : ℕ) → AreSetsOf threads sets
        → IsTrue (is_in sets.ready number) → IsThread threads number takes_steps }
{}

/// What the sets say of the thread of a number.
pub fn sets_tell_of_each_thread()
    ensures completable { (threads : List FlatThread) (sets : Sets) (number : ℕ) (thread : FlatThread)
        → AreSetsOf threads sets → slice_get threads number ≡ Some thread
        → is_in sets.completable number ≡ is_completable thread }
    ensures ready { (threads : List FlatThread) (sets : Sets) (number : ℕ) (thread : FlatThread)
        → AreSetsOf threads sets → slice_get threads number ≡ Some thread
        → is_in sets.ready number ≡ is_ready thread.status }
{}

/// Where no number is in a set, there is no such thread.
pub fn no_number_is_no_thread()
    ensures completable { (threads : List FlatThread) (sets : Sets) → AreSetsOf threads sets
        → IsFirstFrom (is_in sets.completable) 0 None → list_any is_completable threads ≡ false }
    ensures ready { (threads : List FlatThread) (sets : Sets) → AreSetsOf threads sets
        → IsFirstFrom (is_in sets.ready) 0 None → list_any takes_steps threads ≡ false }
{}
