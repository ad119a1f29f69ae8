//! What is whole stays so.

ghost use Rattle.std.specs.Prelude.{◌≡◌, true, Bool, List, Contains};
ghost use Rattle.cache_ident.specs.Residents.{Resident, IsNameResident, with_loaded, with_lock, without};
ghost use Rattle.cache_ident.specs.declared.idents.Ident.{Ident};
ghost use Rattle.cache_ident.specs.declared.names.Name.{Name};
ghost use Rattle.journal_laws.specs.flat_state.specs.State.{FlatState};
ghost use Rattle.journal_laws.specs.flat_state.specs.Names.{is_fit_name, stands};
ghost use Rattle.journal_laws.specs.run_journal.specs.Groups.{HasParents, NothingDependsOn};
ghost use Rattle.journal_laws.specs.run_journal.specs.Legal.{AreGood};
ghost use Rattle.journal_laws.specs.Leaving.{HaveOneEach};

/// Where each resident stands, is fit and has all that it depends on, this stays so where one leaves on which nothing
/// depends, where one is loaded that has it too, and by a lock or its end.
pub fn what_stays_stays_good()
    ensures left { (s : FlatState) (rs : List Resident) (r : Resident) → HaveOneEach rs → AreGood s rs → Contains rs r → NothingDependsOn s rs r.name → AreGood s (without r.ident rs) }
    ensures loaded { (s : FlatState) (rs : List Resident) (ident : Ident) (name : Name) → AreGood s rs → stands s name ≡ true → is_fit_name s name ≡ true → HasParents s rs name → AreGood s (with_loaded ident name rs) }
    ensures locked { (s : FlatState) (rs : List Resident) (ident : Ident) (on : Bool) → AreGood s rs → AreGood s (with_lock ident on rs) }
{}

/// Nothing depends on what has just been loaded; and where nothing resident depends on a name, this stays so where another
/// leaves, and by a lock or its end.
pub fn nothing_depends_on_what_is_new()
    ensures loaded { (s : FlatState) (rs : List Resident) (ident : Ident) (name : Name) → AreGood s rs → (IsNameResident rs name → ⊥) → HasParents s rs name → NothingDependsOn s (with_loaded ident name rs) name }
    ensures left { (s : FlatState) (rs : List Resident) (ident : Ident) (name : Name) → NothingDependsOn s rs name → NothingDependsOn s (without ident rs) name }
    ensures locked { (s : FlatState) (rs : List Resident) (ident : Ident) (on : Bool) (name : Name) → NothingDependsOn s rs name → NothingDependsOn s (with_lock ident on rs) name }
{}
