//! What is found in what is shown.

ghost use Rattle.std.specs.Prelude.{◌≡◌, ℕ, List, Option, filter, filter_map, map};
ghost use Rattle.cache_ident.specs.declared.names.Frame.{Frame};
ghost use Rattle.phys_groups.specs.Rows.{row_name, HasOneRowAPage};
ghost use Rattle.flat_state.specs.signal_pages.specs.Signals.{is_signal_row_of};
ghost use Rattle.flat_state.specs.declared.events.Machine.{Machine};
ghost use Rattle.desc_stores.specs.row_store.specs.Kept.{signal_names};
ghost use Rattle.desc_stores.specs.Contents.{content_of, Contents};
ghost use Rattle.desc_stores.specs.Sound.{IsExactlyOne};
ghost use Rattle.shown_state.specs.Shown.{row_of_item, shown};
ghost use Rattle.shown_state.specs.Found.{AreFound, AreListed};

/// What is found under a number or a page is what the content of that name shows. There are as many kernels, spaces and
/// threads as were declared, each thread at the place of its number, and of the rows one for each name, in the order of the
/// names. No page has two rows, and the signal rows of a frame are those that are listed for it, in that order.
pub fn what_is_shown_is_the_content()
    ensures found { (machine : Option Machine) (memory : List ℕ) (c : Contents) → IsExactlyOne c → AreFound (shown machine memory c) c }
    ensures listed { (machine : Option Machine) (memory : List ℕ) (c : Contents) → IsExactlyOne c → AreListed (shown machine memory c) c }
    ensures one_row { (machine : Option Machine) (memory : List ℕ) (c : Contents) → IsExactlyOne c → HasOneRowAPage (shown machine memory c).rows }
    ensures signal_names { (machine : Option Machine) (memory : List ℕ) (c : Contents) → IsExactlyOne c → (frame : Frame) → map row_name (filter (is_signal_row_of frame) (shown machine memory c).rows) ≡ signal_names c.rows frame }
    ensures signal_rows { (machine : Option Machine) (memory : List ℕ) (c : Contents) → (frame : Frame) → filter (is_signal_row_of frame) (shown machine memory c).rows ≡ filter_map (λ name. row_of_item (content_of c name)) (signal_names c.rows frame) }
{}
