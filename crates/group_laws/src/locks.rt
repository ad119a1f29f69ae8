//! How many of a kernel's descriptors of a kind are locked.

ghost use Rattle.std.specs.Prelude.{◌≡◌, ◌+◌, false, true, List, Contains};
ghost use Rattle.cache_ident.specs.Residents.{Resident, with_loaded, with_lock, without};
ghost use Rattle.cache_ident.specs.declared.idents.Ident.{Ident};
ghost use Rattle.cache_ident.specs.declared.idents.Kind.{Kind};
ghost use Rattle.cache_ident.specs.declared.names.KernelNo.{KernelNo};
ghost use Rattle.cache_ident.specs.declared.names.Name.{Name};
ghost use Rattle.journal_laws.specs.flat_state.specs.State.{FlatState};
ghost use Rattle.journal_laws.specs.flat_state.specs.Dependence.{owner};
ghost use Rattle.journal_laws.specs.run_journal.specs.Legal.{locked_by};
ghost use Rattle.journal_laws.specs.Leaving.{AreApart, HaveOneEach};
ghost use Rattle.group_laws.specs.Leaving.{lock_of};

/// What leaves takes its lock along, what is loaded has none, a lock adds one, and its end takes it; and where each resident
/// has the owner in one state that it has in another, as many are locked there.
pub fn locks_are_counted()
    ensures left { (s : FlatState) (rs : List Resident) (r : Resident) (kernel : KernelNo) (kind : Kind) → AreApart rs → Contains rs r → locked_by s rs kernel kind ≡ locked_by s (without r.ident rs) kernel kind + lock_of s r kernel kind }
    ensures loaded { (s : FlatState) (rs : List Resident) (ident : Ident) (name : Name) (kernel : KernelNo) (kind : Kind) → locked_by s (with_loaded ident name rs) kernel kind ≡ locked_by s rs kernel kind }
    ensures locked { (s : FlatState) (rs : List Resident) (r : Resident) (kernel : KernelNo) (kind : Kind) → AreApart rs → Contains rs r → r.locked ≡ false → locked_by s (with_lock r.ident true rs) kernel kind ≡ locked_by s rs kernel kind + lock_of s (record r { locked = true }) kernel kind }
    ensures unlocked { (s : FlatState) (rs : List Resident) (r : Resident) (kernel : KernelNo) (kind : Kind) → AreApart rs → Contains rs r → r.locked ≡ true → locked_by s rs kernel kind ≡ locked_by s (with_lock r.ident false rs) kernel kind + lock_of s r kernel kind }
    ensures same { (s t : FlatState) (rs : List Resident) (kernel : KernelNo) (kind : Kind) → ((r : Resident) → Contains rs r → owner s r.name ≡ owner t r.name) → locked_by s rs kernel kind ≡ locked_by t rs kernel kind }
{}

/// To lock what is locked, or to unlock what isn't, leaves all as it was.
pub fn a_lock_that_is_there_changes_nothing()
    ensures { (rs : List Resident) (r : Resident) → HaveOneEach rs → Contains rs r → with_lock r.ident r.locked rs ≡ rs }
{}
