//! What the core says of an unload and of a lock, it says of the whole call.

ghost use Rattle.std.specs.Prelude.{ℕ, Bool, length};
ghost use Rattle.cache_ident.specs.declared.idents.Ident.{Ident};
ghost use Rattle.board_checks.specs.desc_stores.specs.Contents.{LockIs};
ghost use Rattle.board_core.specs.board_laws.specs.Moves.{IsUnload};
ghost use Rattle.board_core.specs.Core.{contents_of, Recorded};
ghost use Rattle.board_core.specs.Growth.{GrowsBy};
ghost use Rattle.board_loads.specs.Holds.{entries_of_lock, IsLockedAs, IsUnloadedAs};

/// What was unloaded left as the core's unload says.
pub fn an_unload_is_one_of_the_core()
    ensures { (cpu : ℕ) (ident : Ident) (old new : Recorded) → IsUnloadedAs cpu ident old new → IsUnload (contents_of old) (contents_of new) ident (length old.journal.entries) new.machine.held.gone }
{}

/// A lock and its end wrote the entries that the core's do, by whether the identifier was locked.
pub fn a_lock_is_one_of_the_core()
    ensures { (cpu : ℕ) (ident : Ident) (on was : Bool) (old new : Recorded) → IsLockedAs cpu ident on old new → LockIs (contents_of old) ident was → GrowsBy (entries_of_lock on was ident cpu) old new }
{}
