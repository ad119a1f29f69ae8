//! What shows the same.

ghost use Rattle.std.specs.Prelude.{◌≡◌, ℕ, List, Option};
ghost use Rattle.flat_state.specs.declared.events.Machine.{Machine};
ghost use Rattle.desc_stores.specs.Changes.{KeepsContents};
ghost use Rattle.desc_stores.specs.Contents.{Contents};
ghost use Rattle.shown_state.specs.Shown.{shown, HasSameNames, ShowsAlike};

/// Contents that show alike show one machine. Where each name has the content that it had, and no name came or went,
/// contents show alike, as they do after what moves no content.
pub fn what_shows_alike_is_shown_alike()
    ensures shown { (machine : Option Machine) (memory : List ℕ) (old new : Contents) → ShowsAlike old new → shown machine memory new ≡ shown machine memory old }
    ensures kept { (old new : Contents) → KeepsContents old new → HasSameNames old new → ShowsAlike old new }
    ensures itself { (c : Contents) → ShowsAlike c c }
    ensures onward { (a b c : Contents) → ShowsAlike a b → ShowsAlike b c → ShowsAlike a c }
{}
