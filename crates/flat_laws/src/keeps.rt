//! What an event keeps, and what a step keeps.

ghost use Rattle.std.specs.Prelude.{◌≡◌, ℕ, Some, slice_get};
ghost use Rattle.cache_ident.specs.declared.names.KernelNo.{KernelNo};
ghost use Rattle.cache_ident.specs.declared.names.Name.{Name};
ghost use Rattle.cache_ident.specs.declared.names.SpaceNo.{SpaceNo};
ghost use Rattle.cache_ident.specs.declared.names.ThreadNo.{ThreadNo};
ghost use Rattle.phys_groups.specs.declared.rows.Row.{Row};
ghost use Rattle.phys_groups.specs.Translation.{row_of};
ghost use Rattle.flat_state.specs.declared.events.Event.{Event};
ghost use Rattle.flat_state.specs.declared.events.Event.TheVariants.{Step};
ghost use Rattle.flat_state.specs.declared.records.FlatKernel.{FlatKernel};
ghost use Rattle.flat_state.specs.declared.records.FlatThread.{FlatThread};
ghost use Rattle.flat_state.specs.State.{FlatState};
ghost use Rattle.flat_state.specs.Translation.{is_fit_row};
ghost use Rattle.flat_state.specs.Dependence.{all_parents, owner, parents};
ghost use Rattle.flat_state.specs.Names.{class_of, is_fit_name, stands};
ghost use Rattle.flat_state.specs.Events.{applied};
ghost use Rattle.flat_laws.specs.Rows.{IsButForBits};

/// Kernels, spaces and threads never go: a kernel keeps its limits, a space its kernel and a thread its space, whatever
/// happens. A row that stands before and after an event keeps all but its bits. This holds of every state.
pub fn an_event_keeps_places()
    ensures kernels { (s : FlatState) (e : Event) (n : ℕ) (k : FlatKernel) → slice_get s.kernels n ≡ Some k → (l : FlatKernel) × (slice_get (applied s e).kernels n ≡ Some l) × (l.limits ≡ k.limits) }
    ensures spaces { (s : FlatState) (e : Event) (n : ℕ) (kernel : KernelNo) → slice_get s.spaces n ≡ Some kernel → slice_get (applied s e).spaces n ≡ Some kernel }
    ensures threads { (s : FlatState) (e : Event) (n : ℕ) (t : FlatThread) → slice_get s.threads n ≡ Some t → (u : FlatThread) × (slice_get (applied s e).threads n ≡ Some u) × (u.space ≡ t.space) }
    ensures rows { (s : FlatState) (e : Event) (space : SpaceNo) (vpn : ℕ) (row now : Row) → row_of s.rows space vpn ≡ Some row → row_of (applied s e).rows space vpn ≡ Some now → IsButForBits row now }
{}

/// A step changes neither what stands, nor its class, nor what depends on what, nor who owns what, nor which rows are
/// fit. This holds of every state.
pub fn a_step_keeps_dependence()
    ensures parents { (s : FlatState) (thread : ThreadNo) (name : Name) → parents (applied s (Step thread)) name ≡ parents s name }
    ensures all_parents { (s : FlatState) (thread : ThreadNo) (name : Name) → all_parents (applied s (Step thread)) name ≡ all_parents s name }
    ensures owner { (s : FlatState) (thread : ThreadNo) (name : Name) → owner (applied s (Step thread)) name ≡ owner s name }
    ensures stands { (s : FlatState) (thread : ThreadNo) (name : Name) → stands (applied s (Step thread)) name ≡ stands s name }
    ensures class { (s : FlatState) (thread : ThreadNo) (name : Name) → class_of (applied s (Step thread)) name ≡ class_of s name }
    ensures fit { (s : FlatState) (thread : ThreadNo) (name : Name) → is_fit_name (applied s (Step thread)) name ≡ is_fit_name s name }
    ensures rights { (s : FlatState) (thread : ThreadNo) (row : Row) → is_fit_row (applied s (Step thread)) row ≡ is_fit_row s row }
{}
