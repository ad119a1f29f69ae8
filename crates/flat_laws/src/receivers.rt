//! Who receives the signals of a frame.

ghost use Rattle.std.specs.Prelude.{◌≡◌, ◌&&◌, true, filter};
ghost use Rattle.cache_ident.specs.declared.names.Frame.{Frame};
ghost use Rattle.phys_groups.specs.declared.rows.Row.{Row};
ghost use Rattle.flat_state.specs.signal_pages.specs.Signals.{is_signal_row_of};
ghost use Rattle.flat_state.specs.State.{FlatState};
ghost use Rattle.flat_state.specs.Translation.{is_fit_row};
ghost use Rattle.flat_state.specs.Signals.{receivers_of};
ghost use Rattle.flat_state.specs.Dependence.{signal_rows_of};
ghost use Rattle.flat_laws.specs.Rows.{receivers_among};

/// The receivers of a frame are those of its fit signal rows, each with its row's page, in the order of the rows. So a
/// message row depends on exactly the rows by which its stores signal. This holds of every state.
pub fn receivers_are_of_signal_rows()
    ensures frame { (s : FlatState) (frame : Frame) → receivers_of s frame ≡ receivers_among (filter (λ row. is_signal_row_of frame row && is_fit_row s row) s.rows) }
    ensures message { (s : FlatState) (row : Row) → row.flags.m ≡ true → receivers_of s row.frame ≡ receivers_among (signal_rows_of s row) }
{}
