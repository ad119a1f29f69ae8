//! What comes to the caches, leaves them, and is locked.

ghost use Rattle.std.specs.Prelude.{◌≡◌, ◌+◌, ◌<◌, true, false};
ghost use Rattle.cache_ident.specs.declared.idents.Standing.TheVariants.{Live};
ghost use Rattle.cache_ident.specs.Rolls.{standing_in};
ghost use Rattle.board_laws.specs.desc_stores.specs.Changes.{room_of};
ghost use Rattle.board_laws.specs.desc_groups.specs.Moves.{HasPlaces, MayBeLocked};
ghost use Rattle.board_laws.specs.desc_tables.specs.May.{MayBeLoaded};
ghost use Rattle.board_laws.specs.desc_tables.specs.Calls.{HasPlacesFor};
ghost use Rattle.board_laws.specs.Moves.{IsLoad, IsLock, IsUnload};
ghost use Rattle.cached_machine.specs.Cached.{state_of};
ghost use Rattle.cached_machine.specs.Posts.{HasLoadedMarks, HasSameMarks};

use crate::machine::CachedMachine;
use crate::posts::take_back;
use crate::reading::known;
use cache_ident::{Ident, Name};

impl CachedMachine {
    /// Loads a descriptor from the shelf, as `Tables::load` does. What left for it is in `tables().gone()`. A thread that
    /// left is on no processor, and one that came is on none, as on the shelf. It takes a search more for each thread that left.
    pub fn load(&mut self, name: Name, keep: &[Ident], at: u64) -> Ident
        requires may { MayBeLoaded self.old.held.contents name keep.now }
        requires places { HasPlacesFor self.old.held.contents name keep.now at }
        requires spare { 0 < self.old.held.contents.spare }
        ensures load { IsLoad self.old.held.caps self.old.held.contents self.new.held.contents name keep.now at self.new.held.gone result }
        ensures rest { self.new ≡ record self.old { held = self.new.held } }
        ensures caps { self.new.held.caps ≡ self.old.held.caps }
        ensures marks { HasLoadedMarks self.old.held.contents self.new.held.contents }
        ensures room { room_of self.new.held.contents ≡ room_of self.old.held.contents }
        ensures spare { self.old.held.contents.spare ≡ self.new.held.contents.spare + 1 }
    {
        known(&self.tables);
        let ident = self.tables.load(name, keep, at);
        take_back(&mut self.tables);
        ident
    }

    /// Takes a loaded descriptor out of its cache, and before it all that depends on it, as `Tables::unload` does. What left
    /// is in `tables().gone()`. A thread that left is on no processor, which takes a search more for each.
    pub fn unload(&mut self, ident: Ident, at: u64)
        requires live { standing_in self.old.held.contents.issued ident ≡ Live }
        requires places { HasPlaces self.old.held.contents ident at }
        ensures unload { IsUnload self.old.held.contents self.new.held.contents ident at self.new.held.gone }
        ensures rest { self.new ≡ record self.old { held = self.new.held } }
        ensures caps { self.new.held.caps ≡ self.old.held.caps }
        ensures state { state_of self.new ≡ state_of self.old }
        ensures marks { HasLoadedMarks self.old.held.contents self.new.held.contents }
        ensures room { room_of self.new.held.contents ≡ room_of self.old.held.contents }
        ensures spare { self.new.held.contents.spare ≡ self.old.held.contents.spare }
    {
        known(&self.tables);
        self.tables.unload(ident, at);
        take_back(&mut self.tables);
    }

    /// Locks a loaded descriptor, so that it is no victim. Nothing changes where it is locked already.
    pub fn lock(&mut self, ident: Ident)
        requires live { standing_in self.old.held.contents.issued ident ≡ Live }
        requires may { MayBeLocked self.old.held.contents ident }
        ensures lock { IsLock self.old.held.contents self.new.held.contents ident true }
        ensures rest { self.new ≡ record self.old { held = record self.old.held { contents = self.new.held.contents } } }
        ensures state { state_of self.new ≡ state_of self.old }
        ensures marks { HasSameMarks self.old.held.contents self.new.held.contents }
        ensures room { room_of self.new.held.contents ≡ room_of self.old.held.contents }
        ensures spare { self.new.held.contents.spare ≡ self.old.held.contents.spare }
    {
        known(&self.tables);
        self.tables.lock(ident);
    }

    /// Ends the lock of a loaded descriptor. Nothing changes where it isn't locked.
    pub fn unlock(&mut self, ident: Ident)
        requires live { standing_in self.old.held.contents.issued ident ≡ Live }
        ensures lock { IsLock self.old.held.contents self.new.held.contents ident false }
        ensures rest { self.new ≡ record self.old { held = record self.old.held { contents = self.new.held.contents } } }
        ensures state { state_of self.new ≡ state_of self.old }
        ensures marks { HasSameMarks self.old.held.contents self.new.held.contents }
        ensures room { room_of self.new.held.contents ≡ room_of self.old.held.contents }
        ensures spare { self.new.held.contents.spare ≡ self.old.held.contents.spare }
    {
        known(&self.tables);
        self.tables.unlock(ident);
    }
}
