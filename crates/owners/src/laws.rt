//! Owners stay owners of their journal.

ghost use Rattle.std.specs.Prelude.{◌++◌, IfSome, List, Option};
ghost use Rattle.cache_ident.specs.declared.idents.Ident.{Ident};
ghost use Rattle.cache_ident.specs.declared.names.Name.{Name};
ghost use Rattle.cache_ident.specs.declared.names.SpaceNo.{SpaceNo};
ghost use Rattle.cache_ident.specs.declared.names.ThreadNo.{ThreadNo};
ghost use Rattle.cache_ident.specs.declared.names.Vpn.{Vpn};
ghost use Rattle.flat_state.specs.Events.{flat};
ghost use Rattle.run_journal.specs.declared.entries.Entry.{Entry};
ghost use Rattle.run_journal.specs.Entries.{erase};
ghost use Rattle.run_journal.specs.Legal.{IsLegal};
ghost use Rattle.owners.specs.Known.{IsNoted, IsReceiverLearnt, IsSpaceLearnt, Known};
ghost use Rattle.owners.specs.Owning.{AreOwnersOf, IsThreadOf, WasLoadedAs};

/// Owners of a journal are owners of each longer one: threads and spaces stay what they were declared as or made, and what
/// was loaded with an identifier was.
pub fn owners_stay_owners()
    ensures { (j es : List Entry) (o : Known) → AreOwnersOf j o → IsLegal (j ++ es) → AreOwnersOf (j ++ es) o }
{}

/// They stay owners where they note an identifier with which the name was loaded, and where they learn a space or a receiver
/// that is so.
pub fn what_is_so_may_be_learnt()
    ensures noted { (j : List Entry) (old new : Known) (name : Name) (ident : Ident) → AreOwnersOf j old → WasLoadedAs j name ident → IsNoted name ident old new → AreOwnersOf j new }
    ensures space { (j : List Entry) (old new : Known) (thread : ThreadNo) (space : SpaceNo) → AreOwnersOf j old → IsThreadOf (flat (erase j)) space thread → IsSpaceLearnt thread space old new → AreOwnersOf j new }
    ensures receiver { (j : List Entry) (old new : Known) (space : SpaceNo) (vpn : Vpn) (receiver : Option ThreadNo) → AreOwnersOf j old → IfSome receiver (IsThreadOf (flat (erase j)) space) → IsReceiverLearnt (space, vpn) receiver old new → AreOwnersOf j new }
{}
