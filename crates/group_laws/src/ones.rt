//! Each resident stays the only one of its identifier and its name.

ghost use Rattle.std.specs.Prelude.{Bool, List, Contains};
ghost use Rattle.cache_ident.specs.Residents.{Resident, IsIdentResident, IsNameResident, with_loaded, with_lock, without};
ghost use Rattle.cache_ident.specs.declared.idents.Ident.{Ident};
ghost use Rattle.cache_ident.specs.declared.names.Name.{Name};
ghost use Rattle.journal_laws.specs.Leaving.{AreApart, HaveOneEach};
ghost use Rattle.group_laws.specs.Leaving.{without_all};

/// Each resident has an identifier and a name of its own after a departure, after a lock or its end, and after a load of what
/// isn't resident under an identifier that none has.
pub fn each_stays_one()
    ensures left { (rs : List Resident) (ident : Ident) → HaveOneEach rs → HaveOneEach (without ident rs) }
    ensures all_left { (rs : List Resident) (idents : List Ident) → HaveOneEach rs → HaveOneEach (without_all idents rs) }
    ensures locked { (rs : List Resident) (ident : Ident) (on : Bool) → HaveOneEach rs → HaveOneEach (with_lock ident on rs) }
    ensures loaded { (rs : List Resident) (ident : Ident) (name : Name) → HaveOneEach rs → (IsIdentResident rs ident → ⊥) → (IsNameResident rs name → ⊥) → HaveOneEach (with_loaded ident name rs) }
{}

/// No identifier stands twice after a departure, after a lock or its end, and after a load under one that none has.
pub fn idents_stay_apart()
    ensures left { (rs : List Resident) (ident : Ident) → AreApart rs → AreApart (without ident rs) }
    ensures all_left { (rs : List Resident) (idents : List Ident) → AreApart rs → AreApart (without_all idents rs) }
    ensures locked { (rs : List Resident) (ident : Ident) (on : Bool) → AreApart rs → AreApart (with_lock ident on rs) }
    ensures loaded { (rs : List Resident) (ident : Ident) (name : Name) → AreApart rs → (IsIdentResident rs ident → ⊥) → AreApart (with_loaded ident name rs) }
{}
