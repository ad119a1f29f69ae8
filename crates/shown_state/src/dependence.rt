//! What depends on what in what is shown.

ghost use Rattle.std.specs.Prelude.{◌≡◌, ℕ, [], List, Option, None};
ghost use Rattle.cache_ident.specs.declared.names.Name.{Name};
ghost use Rattle.flat_state.specs.declared.events.Machine.{Machine};
ghost use Rattle.flat_state.specs.Dependence.{owner, parents};
ghost use Rattle.flat_state.specs.Names.{class_of, is_fit_name};
ghost use Rattle.desc_stores.specs.Contents.{Contents};
ghost use Rattle.shown_state.specs.Shown.{shown};

/// What a descriptor depends on, who owns it, its class and whether it is fit follow from the contents alone. The machine
/// and its memory don't matter.
pub fn dependence_is_of_the_contents()
    ensures parents { (machine : Option Machine) (memory : List ℕ) (c : Contents) (name : Name) → parents (shown machine memory c) name ≡ parents (shown None [] c) name }
    ensures owner { (machine : Option Machine) (memory : List ℕ) (c : Contents) (name : Name) → owner (shown machine memory c) name ≡ owner (shown None [] c) name }
    ensures class { (machine : Option Machine) (memory : List ℕ) (c : Contents) (name : Name) → class_of (shown machine memory c) name ≡ class_of (shown None [] c) name }
    ensures fit { (machine : Option Machine) (memory : List ℕ) (c : Contents) (name : Name) → is_fit_name (shown machine memory c) name ≡ is_fit_name (shown None [] c) name }
{}
