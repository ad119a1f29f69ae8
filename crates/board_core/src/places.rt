//! Loads, departures and locks.

ghost use Rattle.std.specs.Prelude.{◌≡◌, ◌≢◌, ◌+◌, ◌<◌, ◌≤◌, ◌∷◌, ◌++◌, [], false, true, if◌then◌else◌, Bool, None, length};
ghost use Rattle.cache_ident.specs.declared.idents.Standing.TheVariants.{Live};
ghost use Rattle.cache_ident.specs.declared.names.ThreadNo.{ThreadNo};
ghost use Rattle.cache_ident.specs.Rolls.{standing_in};
ghost use Rattle.run_journal.specs.Legal.{first_ident};
ghost use Rattle.run_journal.specs.declared.entries.Entry.TheVariants.{Loaded, Locked, Unlocked};
ghost use Rattle.cached_machine.specs.desc_groups.specs.Moves.{MayBeLocked};
ghost use Rattle.cached_machine.specs.desc_stores.specs.Changes.{room_of};
ghost use Rattle.cached_machine.specs.desc_stores.specs.Contents.{LockIs};
ghost use Rattle.cached_machine.specs.desc_tables.specs.May.{MayBeLoaded};
ghost use Rattle.cached_machine.specs.board_laws.specs.Moves.{written_back, IsLoad, IsLock, IsUnload};
ghost use Rattle.cached_machine.specs.Posts.{mark_of, HasLoadedMarks, HasSameMarks};
ghost use Rattle.board_core.specs.Core.{contents_of};
ghost use Rattle.board_core.specs.Growth.{count_loaded, count_unkept, GrowsBy, MayWrite};

use crate::core_record::{Core, known, next_place, note};
use cache_ident::{Ident, Name};
use cached_machine::Gone;
use run_journal::{Entry, Journal};

impl Core {
    /// Loads a descriptor from its shelf, while what is in `keep` stays. Where its cache is full another one leaves first, with
    /// all that depends on it. There is room for an entry for each that isn't kept, and one more.
    pub fn load(&mut self, cpu: u32, name: Name, keep: &[Ident]) -> Ident
        requires may { MayBeLoaded (contents_of self.old) name keep.now }
        requires write { MayWrite self.old cpu (count_unkept self.old keep.now + 1) }
        requires spare { 0 < (contents_of self.old).spare }
        ensures entries { GrowsBy (written_back cpu self.new.machine.held.gone ++ Loaded result name cpu ∷ []) self.old self.new }
        ensures load { IsLoad self.old.machine.held.caps (contents_of self.old) (contents_of self.new) name keep.now (length self.old.journal.entries) self.new.machine.held.gone result }
        ensures marks { HasLoadedMarks (contents_of self.old) (contents_of self.new) }
        ensures unmarked { (no : ThreadNo) → name ≡ Name.Thread no → mark_of (contents_of self.new) no ≡ None }
        ensures sealed { self.new.sealed ≡ self.old.sealed }
        ensures checkouts { self.new.checkouts ≡ self.old.checkouts }
        ensures issues { (contents_of self.old).spare ≤ (contents_of self.new).spare + 1 }
    {
        known(&self.machine);
        let at = next_place(&self.journal);
        let ident = self.machine.load(name, keep, at);
        known(&self.machine);
        let gone = self.machine.tables().gone();
        self.loaded = self.loaded + 1 - gone.len();
        note_departures(&mut self.journal, gone, cpu);
        note(&mut self.journal, Entry::Loaded { ident, name, cpu });
        ident
    }

    /// Unloads a loaded descriptor, and before it all that depends on it. The first kernel stays.
    pub fn unload(&mut self, cpu: u32, ident: Ident)
        requires live { standing_in (contents_of self.old).issued ident ≡ Live }
        requires not_first { ident ≢ first_ident }
        requires write { MayWrite self.old cpu (count_loaded self.old) }
        ensures entries { GrowsBy (written_back cpu self.new.machine.held.gone) self.old self.new }
        ensures unload { IsUnload (contents_of self.old) (contents_of self.new) ident (length self.old.journal.entries) self.new.machine.held.gone }
        ensures marks { HasLoadedMarks (contents_of self.old) (contents_of self.new) }
        ensures sealed { self.new.sealed ≡ self.old.sealed }
        ensures checkouts { self.new.checkouts ≡ self.old.checkouts }
        ensures issues { (contents_of self.new).spare ≡ (contents_of self.old).spare }
        ensures room { room_of (contents_of self.new) ≡ room_of (contents_of self.old) }
        ensures sets { self.new.machine.sets ≡ self.old.machine.sets }
    {
        let at = next_place(&self.journal);
        self.machine.unload(ident, at);
        known(&self.machine);
        let gone = self.machine.tables().gone();
        self.loaded -= gone.len();
        note_departures(&mut self.journal, gone, cpu);
    }

    /// Locks a loaded descriptor, which is locked already or whose owner may lock one more of the kind. One that is locked stays
    /// so, without an entry.
    pub fn lock(&mut self, cpu: u32, ident: Ident)
        requires live { standing_in (contents_of self.old).issued ident ≡ Live }
        requires may { MayBeLocked (contents_of self.old) ident }
        requires write { MayWrite self.old cpu 1 }
        ensures entries { (on : Bool) → LockIs (contents_of self.old) ident on → GrowsBy (if on then [] else Locked ident cpu ∷ []) self.old self.new }
        ensures lock { IsLock (contents_of self.old) (contents_of self.new) ident true }
        ensures marks { HasSameMarks (contents_of self.old) (contents_of self.new) }
        ensures sealed { self.new.sealed ≡ self.old.sealed }
        ensures checkouts { self.new.checkouts ≡ self.old.checkouts }
    {
        if !self.machine.tables().is_locked(ident) {
            self.machine.lock(ident);
            known(&self.machine);
            note(&mut self.journal, Entry::Locked { ident, cpu });
        }
    }

    /// Ends the lock of a loaded descriptor, which isn't the first kernel. One that isn't locked stays so, without an entry.
    pub fn unlock(&mut self, cpu: u32, ident: Ident)
        requires live { standing_in (contents_of self.old).issued ident ≡ Live }
        requires not_first { ident ≢ first_ident }
        requires write { MayWrite self.old cpu 1 }
        ensures entries { (on : Bool) → LockIs (contents_of self.old) ident on → GrowsBy (if on then Unlocked ident cpu ∷ [] else []) self.old self.new }
        ensures lock { IsLock (contents_of self.old) (contents_of self.new) ident false }
        ensures marks { HasSameMarks (contents_of self.old) (contents_of self.new) }
        ensures sealed { self.new.sealed ≡ self.old.sealed }
        ensures checkouts { self.new.checkouts ≡ self.old.checkouts }
    {
        if self.machine.tables().is_locked(ident) {
            self.machine.unlock(ident);
            known(&self.machine);
            note(&mut self.journal, Entry::Unlocked { ident, cpu });
        }
    }
}

// Notes what has just left, in the order in which it left.
fn note_departures(journal: &mut Journal, gone: &[Gone], cpu: u32)
    requires { length gone.now ≤ journal.old.spare }
    ensures entries { journal.new.entries ≡ journal.old.entries ++ written_back cpu gone.now }
    ensures spare { journal.old.spare ≤ journal.new.spare + length gone.now }
{
    for left in gone {
        note(
            journal,
            Entry::WrittenBack {
                ident: left.ident,
                cause: left.cause,
                cpu,
            },
        );
    }
}
