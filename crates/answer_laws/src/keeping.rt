//! What a load keeps.

ghost use Rattle.std.specs.Prelude.{ℕ, Contains};
ghost use Rattle.cache_ident.specs.declared.idents.Ident.{Ident};
ghost use Rattle.cache_ident.specs.declared.names.Name.{Name};
ghost use Rattle.cache_ident.specs.Residents.{Resident, IsNameResident};
ghost use Rattle.board_loads.specs.flat_state.specs.Dependence.{DependsFar};
ghost use Rattle.board_threads.specs.desc_stores.specs.Contents.{residents_of};
ghost use Rattle.board_loads.specs.desc_parents.specs.Seen.{seen};
ghost use Rattle.board_threads.specs.board_core.specs.Core.{contents_of, IsSound, Recorded};
ghost use Rattle.board_loads.specs.Loads.{IsLoadedAs};

/// All that a name depends on, over any number of steps, is loaded when the name is loaded, and afterwards it is loaded still, with
/// the identifiers that it had.
pub fn a_load_keeps_all_that_it_depends_on()
    ensures loaded { (cpu : ℕ) (n : Name) (ident : Ident) (old new : Recorded) → IsSound old → IsLoadedAs cpu n ident old new
        → (parent : Name) → DependsFar (seen (contents_of old)) n parent → IsNameResident (residents_of (contents_of old)) parent }
    ensures kept { (cpu : ℕ) (n : Name) (ident : Ident) (old new : Recorded) → IsSound old → IsLoadedAs cpu n ident old new
        → (r : Resident) → Contains (residents_of (contents_of old)) r → DependsFar (seen (contents_of old)) n r.name → Contains (residents_of (contents_of new)) r }
{}
