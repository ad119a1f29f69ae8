//! Identifiers that owners note.

ghost use Rattle.std.specs.Prelude.{◌≡◌, ℕ, Some};
ghost use Rattle.cache_ident.specs.declared.idents.Ident.{Ident};
ghost use Rattle.cache_ident.specs.declared.names.Name.{Name};
ghost use Rattle.cache_ident.specs.Residents.{IsResident};
ghost use Rattle.answer_laws.specs.desc_stores.specs.Contents.{residents_of};
ghost use Rattle.answer_laws.specs.board_core.specs.Core.{contents_of, IsSound, Recorded};
ghost use Rattle.answer_laws.specs.board_core.specs.Going.{Grew};
ghost use Rattle.answer_laws.specs.board_loads.specs.Loads.{IsLoadedAs};
ghost use Rattle.owners.specs.Known.{ident_of, Known};
ghost use Rattle.owners.specs.Owning.{AreOwnersOf, WasLoadedAs};

/// Owners of a board are owners of each board that it grows to.
pub fn owners_of_a_board_stay_so()
    ensures { (cpu : ℕ) (old new : Recorded) (o : Known) → Grew cpu old new → IsSound new → AreOwnersOf old.journal.entries o → AreOwnersOf new.journal.entries o }
{}

/// What is loaded with an identifier that is noted for a name has that name.
pub fn what_is_noted_names_what_is_loaded()
    ensures { (b : Recorded) (o : Known) (ident : Ident) (name other : Name) → IsSound b → AreOwnersOf b.journal.entries o → ident_of o name ≡ Some ident → IsResident (residents_of (contents_of b)) ident other → other ≡ name }
{}

/// What is loaded, and what a load gave, is an identifier that the name was loaded with.
pub fn what_is_loaded_may_be_noted()
    ensures resident { (b : Recorded) (ident : Ident) (name : Name) → IsSound b → IsResident (residents_of (contents_of b)) ident name → WasLoadedAs b.journal.entries name ident }
    ensures given { (cpu : ℕ) (name : Name) (ident : Ident) (old new : Recorded) → IsLoadedAs cpu name ident old new → WasLoadedAs new.journal.entries name ident }
{}
