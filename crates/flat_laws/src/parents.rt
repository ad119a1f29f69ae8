//! What a descriptor depends on, over any number of steps.

ghost use Rattle.std.specs.Prelude.{◌≡◌, ◌<◌, ◌↔◌, true, List, ◌∷◌, Contains};
ghost use Rattle.cache_ident.specs.declared.idents.Kind.TheVariants.{Kernel, Space, Thread, Mapping};
ghost use Rattle.cache_ident.specs.declared.names.Name.{Name};
ghost use Rattle.flat_state.specs.declared.events.Event.{Event};
ghost use Rattle.flat_state.specs.Events.{flat};
ghost use Rattle.writeback_order.specs.Order.{rank_of};
ghost use Rattle.flat_state.specs.Dependence.{all_parents, Depends, DependsFar};
ghost use Rattle.flat_state.specs.Names.{class_of, stands};
ghost use Rattle.flat_laws.specs.Counts.{AtMost};

/// In each state that events can reach, the list of all that a name depends on is whole and has nothing else. With the
/// name itself it has at most 5 kernels, 5 spaces, 5 threads and 6 rows. So a cache with that much room beside its
/// locked descriptors can hold any descriptor with all that it depends on.
pub fn all_parents_are_few()
    ensures whole { (es : List Event) (child parent : Name) → Contains (all_parents (flat es) child) parent ↔ DependsFar (flat es) child parent }
    ensures kernels { (es : List Event) (name : Name) → AtMost 5 Kernel (name ∷ all_parents (flat es) name) }
    ensures spaces { (es : List Event) (name : Name) → AtMost 5 Space (name ∷ all_parents (flat es) name) }
    ensures threads { (es : List Event) (name : Name) → AtMost 5 Thread (name ∷ all_parents (flat es) name) }
    ensures rows { (es : List Event) (name : Name) → AtMost 6 Mapping (name ∷ all_parents (flat es) name) }
{}

/// In each state that events can reach, what a descriptor depends on stands, and its class leaves later. So whoever
/// leaves class by class leaves nothing behind that lacks what it depends on.
pub fn parents_stand_and_leave_later()
    ensures stand { (es : List Event) (child parent : Name) → Depends (flat es) child parent → stands (flat es) parent ≡ true }
    ensures later { (es : List Event) (child parent : Name) → Depends (flat es) child parent → rank_of (class_of (flat es) child) < rank_of (class_of (flat es) parent) }
{}
