//! The first kernel.

ghost use Rattle.std.specs.Prelude.{◌≡◌, ℕ, ◌<◌, true, List, Contains};
ghost use Rattle.cache_ident.specs.Names.{first_name};
ghost use Rattle.desc_tables.specs.run_journal.specs.Legal.{first_ident, IsLegal};
ghost use Rattle.desc_tables.specs.run_journal.specs.Told.{told};
ghost use Rattle.desc_tables.specs.run_journal.specs.declared.entries.Entry.{Entry};

/// Behind the seal of a legal journal the first kernel is always loaded, under the first identifier, and locked.
pub fn the_first_kernel_stays()
    ensures resident { (j : List Entry) → IsLegal j → (told j).sealed ≡ true → Contains (told j).residents (record { ident = first_ident; name = first_name; locked = true }) }
    ensures loads { (j : List Entry) → IsLegal j → (told j).sealed ≡ true → 0 < (told j).loads }
{}
