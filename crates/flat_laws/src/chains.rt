//! All that one step wants.

ghost use Rattle.std.specs.Prelude.{◌≡◌, ℕ, List, Contains, Some, slice_get};
ghost use Rattle.cache_ident.specs.declared.idents.Kind.TheVariants.{Kernel, Space, Thread, Mapping};
ghost use Rattle.cache_ident.specs.declared.names.Name.{Name};
ghost use Rattle.flat_state.specs.declared.events.Event.{Event};
ghost use Rattle.flat_state.specs.declared.records.FlatThread.{FlatThread};
ghost use Rattle.flat_state.specs.Events.{flat};
ghost use Rattle.flat_state.specs.Dependence.{Depends};
ghost use Rattle.flat_state.specs.NextSteps.{chain};
ghost use Rattle.flat_laws.specs.Counts.{AtMost};

/// In each state that events can reach, the chain of each thread's next step has at most 5 kernels, 5 spaces,
/// 5 threads and 6 rows. So a cache with that much room beside its locked descriptors can hold all that a step wants.
pub fn a_chain_is_short()
    ensures kernels { (es : List Event) (n : ℕ) (t : FlatThread) → slice_get (flat es).threads n ≡ Some t → AtMost 5 Kernel (chain (flat es) t) }
    ensures spaces { (es : List Event) (n : ℕ) (t : FlatThread) → slice_get (flat es).threads n ≡ Some t → AtMost 5 Space (chain (flat es) t) }
    ensures threads { (es : List Event) (n : ℕ) (t : FlatThread) → slice_get (flat es).threads n ≡ Some t → AtMost 5 Thread (chain (flat es) t) }
    ensures rows { (es : List Event) (n : ℕ) (t : FlatThread) → slice_get (flat es).threads n ≡ Some t → AtMost 6 Mapping (chain (flat es) t) }
{}

/// In each such state the chain of each thread's next step has, with each descriptor, all that it depends on. So
/// where the chain is loaded, the step wants nothing more.
pub fn a_chain_is_whole()
    ensures { (es : List Event) (n : ℕ) (t : FlatThread) → slice_get (flat es).threads n ≡ Some t → (child parent : Name) → Contains (chain (flat es) t) child → Depends (flat es) child parent → Contains (chain (flat es) t) parent }
{}
