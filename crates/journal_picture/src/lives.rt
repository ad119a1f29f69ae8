//! What was loaded, from when to when.

ghost use Rattle.std.specs.Prelude.{◌≡◌, ◌++◌, List, ℕ, All, IfOk, OnOk, Some, map, slice_get};
ghost use Rattle.run_journal.specs.declared.entries.Entry.{Entry};
ghost use Rattle.run_journal.specs.declared.entries.Entry.TheVariants.{WrittenBack};
ghost use Rattle.journal_picture.specs.Lives.{EndsIn, load_of, loads_at};
ghost use Rattle.journal_picture.specs.Pictures.{AreLivesOf};

use cache_ident::{Cause, Ident, Name, NoMemory};
use run_journal::Entry;
use std::alloc::Global;

/// That a descriptor left its cache.
#[derive(Clone, Copy)]
pub struct Departure {
    /// The place of the entry that wrote it back, counted from 0.
    pub place: u64,
    pub cause: Cause,
}

/// One life of a descriptor in its cache: from the entry that loaded it to the one that wrote it back.
#[derive(Clone, Copy)]
pub struct Life {
    pub ident: Ident,
    pub name: Name,
    pub cpu: u32,
    /// The place of the entry that loaded it, counted from 0.
    pub loaded: u64,
    /// How it left, and nothing where it is still loaded at the end.
    pub left: Option<Departure>,
}

// Ends the life with that identifier, which stands where its serial says: loads are counted by serials.
fn end_life(lives: &mut Vec<Life>, ident: Ident, departure: Departure)
    ensures loads { map load_of lives.new.items ≡ map load_of lives.old.items }
    ensures ends { (j : List Entry) (cpu : ℕ) → slice_get j departure.place ≡ Some (WrittenBack ident departure.cause cpu) → All (EndsIn j) lives.old.items → All (EndsIn j) lives.new.items }
{
    let index = ident.serial as usize;
    if index < lives.len() && lives[index].ident == ident {
        lives[index].left = Some(departure);
    }
}

// Takes the entry at a place.
fn take(lives: &mut Vec<Life>, entry: &Entry, place: u64) -> Result<(), NoMemory>
    ensures loads { OnOk result (map load_of lives.new.items ≡ map load_of lives.old.items ++ loads_at place entry.now) }
    ensures ends { OnOk result ((j : List Entry) → slice_get j place ≡ Some entry.now → All (EndsIn j) lives.old.items → All (EndsIn j) lives.new.items) }
{
    match *entry {
        Entry::Loaded { ident, name, cpu } => lives.push(Life {
            ident,
            name,
            cpu,
            loaded: place,
            left: None,
        })?,
        Entry::WrittenBack { ident, cause, .. } => {
            end_life(lives, ident, Departure { place, cause });
        }
        _ => {}
    }
    Ok(())
}

/// The lives of all that the entries load, in order of loading. One pass.
pub fn lives(alloc: Global, entries: &[Entry]) -> Result<Vec<Life>, NoMemory>
    ensures { IfOk result (λ lives. AreLivesOf entries.now lives.items) }
{
    let mut lives = Vec::new(alloc);
    let mut place = 0u64;
    for entry in entries {
        take(&mut lives, entry, place)?;
        place += 1;
    }
    Ok(lives)
}
