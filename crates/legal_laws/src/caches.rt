//! What is in the caches after a legal journal.

ghost use Rattle.std.specs.Prelude.{◌≡◌, ◌<◌, ◌≤◌, true, List, Contains};
ghost use Rattle.cache_ident.specs.declared.idents.Kind.{Kind};
ghost use Rattle.cache_ident.specs.Names.{first_name};
ghost use Rattle.cache_ident.specs.Residents.{Resident, IsResident};
ghost use Rattle.group_laws.specs.flat_state.specs.Events.{flat};
ghost use Rattle.group_laws.specs.run_journal.specs.declared.entries.Entry.{Entry};
ghost use Rattle.group_laws.specs.run_journal.specs.Entries.{erase};
ghost use Rattle.group_laws.specs.run_journal.specs.Legal.{cap_of, count_of, first_ident, IsLegal};
ghost use Rattle.group_laws.specs.run_journal.specs.Told.{residents, told};

/// After a legal journal each resident has a slot below the capacity of its kind, and of each kind no more are resident than its
/// capacity.
pub fn what_is_resident_is_within_capacity()
    ensures slots { (j : List Entry) (r : Resident) → IsLegal j → Contains (residents j) r → r.ident.slot < cap_of (flat (erase j)) r.ident.kind }
    ensures few { (j : List Entry) (kind : Kind) → IsLegal j → count_of (residents j) kind ≤ cap_of (flat (erase j)) kind }
{}

/// Once a legal journal is sealed, the first kernel is resident under the first identifier, and locked.
pub fn the_first_kernel_stays_loaded()
    ensures resident { (j : List Entry) → IsLegal j → (told j).sealed ≡ true → IsResident (residents j) first_ident first_name }
    ensures locked { (j : List Entry) → IsLegal j → (told j).sealed ≡ true → Contains (residents j) (record { ident = first_ident; name = first_name; locked = true }) }
{}
