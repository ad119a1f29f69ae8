//! What the places of a journal say of an identifier.

ghost use Rattle.std.specs.Prelude.{◌≡◌, ◌+◌, ◌↔◌, ℕ, List, count_by, length, take};
ghost use Rattle.cache_ident.specs.declared.idents.Ident.{Ident};
ghost use Rattle.cache_ident.specs.declared.idents.Standing.{Standing};
ghost use Rattle.cache_ident.specs.declared.names.Name.{Name};
ghost use Rattle.cache_ident.specs.Residents.{IsResident};
ghost use Rattle.group_laws.specs.run_journal.specs.declared.entries.Entry.{Entry};
ghost use Rattle.group_laws.specs.run_journal.specs.Legal.{IsLegal};
ghost use Rattle.group_laws.specs.run_journal.specs.Standing.{StandsAs};
ghost use Rattle.group_laws.specs.run_journal.specs.Told.{is_load, residents};
ghost use Rattle.legal_laws.specs.Places.{is_departure, IsDepartureAt, IsIdentLocked, IsLoadAt, StaysLoaded, StaysLocked};

/// A name is resident under an identifier exactly where an entry loaded it so and no later entry is the identifier's departure.
/// In a legal journal it is locked exactly where an entry locked it, and no later one ended the lock or is its departure.
pub fn what_is_resident_was_loaded_and_has_not_left()
    ensures resident { (j : List Entry) (ident : Ident) (name : Name) → IsResident (residents j) ident name ↔ StaysLoaded j ident name }
    ensures locked { (j : List Entry) (ident : Ident) → IsLegal j → IsIdentLocked (residents j) ident ↔ StaysLocked j ident }
{}

/// In a legal journal an identifier has as its serial the number of loads before its own, so it is loaded once. It leaves at
/// most once, and behind its load. As many were loaded as left and are resident, so there are never more departures than loads.
pub fn an_identifier_comes_and_goes_once()
    ensures serial { (j : List Entry) (at : ℕ) (ident : Ident) (name : Name) → IsLegal j → IsLoadAt j at ident name → ident.serial ≡ count_by is_load (take at j) }
    ensures loaded { (j : List Entry) (a b : ℕ) (ident : Ident) (one other : Name) → IsLegal j → IsLoadAt j a ident one → IsLoadAt j b ident other → a ≡ b }
    ensures leaves { (j : List Entry) (a b : ℕ) (ident : Ident) → IsLegal j → IsDepartureAt j a ident → IsDepartureAt j b ident → a ≡ b }
    ensures behind { (j : List Entry) (at : ℕ) (ident : Ident) → IsLegal j → IsDepartureAt j at ident → (name : Name) × StaysLoaded (take at j) ident name }
    ensures counted { (j : List Entry) → IsLegal j → length (residents j) + count_by is_departure j ≡ count_by is_load j }
{}

/// In a legal journal an identifier stands in one way: it is resident, it left at one place, or it was never loaded.
pub fn an_identifier_stands_in_one_way()
    ensures { (j : List Entry) (ident : Ident) (a b : Standing) → IsLegal j → StandsAs j ident a → StandsAs j ident b → a ≡ b }
{}
