//! Notes of which threads are held and which frames are watched.

ghost use Rattle.std.specs.Prelude.{◌≡◌, ◌<◌, ℕ, Some, true, Contains, length, slice_get};
ghost use Rattle.quantum.specs.page_views.specs.Views.{View};
ghost use Rattle.paged_steps.specs.Knowing.{AreWatched, KnowsNobody};

use quantum::PageView;

// None of these is so any more.
pub(crate) fn clear(notes: &mut Vec<bool>)
    ensures none { KnowsNobody notes.new.items }
    ensures len { length notes.new.items ≡ length notes.old.items }
{
    for n in 0..notes.len() {
        notes[n] = false;
    }
}

// The frames of copies are watched.
pub(crate) fn watch(watched: &mut Vec<bool>, copies: &[PageView])
    requires frames { (v : View) → Contains copies.now v → v.frame.0 < length watched.old.items }
    ensures watched { AreWatched watched.new.items copies.now }
    ensures more { (f : ℕ) → slice_get watched.old.items f ≡ Some true → slice_get watched.new.items f ≡ Some true }
    ensures len { length watched.new.items ≡ length watched.old.items }
{
    for view in copies {
        watched[view.frame().0 as usize] = true;
    }
}
