//! What calls tell that were made by what is noted, whether it is live or not.

ghost use Rattle.std.specs.Prelude.{◌≡◌, ℕ, false, true, None, Option, Some, slice_get};
ghost use Rattle.cache_ident.specs.declared.idents.Ident.{Ident};
ghost use Rattle.cache_ident.specs.declared.names.Frame.{Frame};
ghost use Rattle.cache_ident.specs.declared.names.Name.{Name};
ghost use Rattle.cache_ident.specs.declared.names.Name.TheVariants as name;
ghost use Rattle.cache_ident.specs.declared.names.SpaceNo.{SpaceNo};
ghost use Rattle.cache_ident.specs.declared.names.ThreadNo.{ThreadNo};
ghost use Rattle.cache_ident.specs.declared.names.Vpn.{Vpn};
ghost use Rattle.cache_ident.specs.Residents.{IsResident};
ghost use Rattle.phys_groups.specs.declared.rows.Row.{Row};
ghost use Rattle.phys_groups.specs.Translation.{row_of};
ghost use Rattle.board_calls.specs.flat_state.specs.declared.records.FlatThread.{FlatThread};
ghost use Rattle.board_calls.specs.flat_state.specs.NextSteps.{faults};
ghost use Rattle.board_calls.specs.flat_state.specs.Translation.{is_fit_row};
ghost use Rattle.board_calls.specs.desc_stores.specs.Contents.{residents_of};
ghost use Rattle.board_calls.specs.board_ops.specs.declared.refusals.Refused.TheVariants as why;
ghost use Rattle.board_calls.specs.cached_machine.specs.Cached.{state_of};
ghost use Rattle.board_calls.specs.board_core.specs.Core.{contents_of, Recorded};
ghost use Rattle.board_calls.specs.board_checks.specs.Identifiers.{space_as};
ghost use Rattle.board_calls.specs.board_checks.specs.Refusals.{refusal_of_load_mapping};
ghost use Rattle.board_calls.specs.board_loads.specs.Loads.{IsLoadedAs};
ghost use Rattle.owner_laws.specs.board_threads.specs.Refusals.{refusal_of_fault};
ghost use Rattle.owner_laws.specs.owners.specs.Known.{ident_of, Known};
ghost use Rattle.reach_laws.specs.Reaching.{IsOwned};

/// The row of a page that is asked for by what is noted for its space, and refused: as loaded it is, as not declared there is none,
/// and for rights it isn't fit. Where one is loaded it is of that space, and was fit.
pub fn a_row_is_refused_rightly()
    ensures space { (b : Recorded) (o : Known) → IsOwned b o → (space : SpaceNo) (parent : Ident) → ident_of o (name.Space space) ≡ Some parent → (other : SpaceNo) → space_as (contents_of b) parent ≡ Some other → other ≡ space }
    ensures loaded { (b : Recorded) (o : Known) → IsOwned b o → (caller parent : Ident) (space : SpaceNo) → ident_of o (name.Space space) ≡ Some parent → (vpn : Vpn) (receiver : Option Ident) (ident : Ident)
        → refusal_of_load_mapping (contents_of b) caller parent vpn receiver ≡ Some (why.AlreadyLoaded ident) → IsResident (residents_of (contents_of b)) ident (name.Mapping space vpn) }
    ensures absent { (b : Recorded) (o : Known) → IsOwned b o → (caller parent : Ident) (space : SpaceNo) → ident_of o (name.Space space) ≡ Some parent → (vpn : Vpn) (receiver : Option Ident) (m : Name)
        → refusal_of_load_mapping (contents_of b) caller parent vpn receiver ≡ Some (why.NotDeclared m) → row_of (state_of b.machine).rows space vpn.0 ≡ None }
    ensures unfit { (b : Recorded) (o : Known) → IsOwned b o → (caller parent : Ident) (space : SpaceNo) → ident_of o (name.Space space) ≡ Some parent → (vpn : Vpn) (receiver : Option Ident) (frame : Frame) (group : ℕ)
        → refusal_of_load_mapping (contents_of b) caller parent vpn receiver ≡ Some (why.Rights frame group) → (row : Row) × (row_of (state_of b.machine).rows space vpn.0 ≡ Some row) × (is_fit_row (state_of b.machine) row ≡ false) }
    ensures fit { (b : Recorded) (o : Known) → IsOwned b o → (cpu : ℕ) (space : SpaceNo) (vpn : Vpn) (ident : Ident) (c : Recorded) → IsLoadedAs cpu (name.Mapping space vpn) ident b c
        → (row : Row) × (row_of (state_of b.machine).rows space vpn.0 ≡ Some row) × (is_fit_row (state_of b.machine) row ≡ true) }
{}

/// A thread whose next step is said to go through rows, by what is noted for the thread, doesn't fault in it.
pub fn a_mapped_step_does_not_fault()
    ensures { (b : Recorded) (o : Known) → IsOwned b o → (caller ident : Ident) (thread : ThreadNo) → ident_of o (name.Thread thread) ≡ Some ident → (t : FlatThread) → slice_get (state_of b.machine).threads thread.0 ≡ Some t
        → (space : SpaceNo) (vpn : Vpn) → refusal_of_fault b caller ident ≡ Some (why.Mapped space vpn) → faults (state_of b.machine) t ≡ false }
{}
