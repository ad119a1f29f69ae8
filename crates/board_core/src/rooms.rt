//! Room for what is to come.

ghost use Rattle.std.specs.Prelude.{◌≡◌, ◌+◌, ◌≤◌, ◌<◌, min, IsOk, OnErr, OnOk};
ghost use Rattle.cached_machine.specs.desc_stores.specs.Changes.{room_of};
ghost use Rattle.board_core.specs.Core.{contents_of};
ghost use Rattle.board_core.specs.Growth.{count_loaded, IsRoomMade};

use crate::core_record::{Core, known};
use cache_ident::NoMemory;

impl Core {
    /// How many entries the journal can take, and how many identifiers can be issued, without memory: the fewer of both.
    pub fn spare(&self) -> usize
        ensures { result ≡ min self.now.journal.spare (contents_of self.now).spare }
    {
        self.journal.spare().min(self.machine.spare())
    }

    /// How many descriptors are loaded.
    pub fn loaded(&self) -> usize
        ensures { result ≡ count_loaded self.now }
    {
        self.loaded
    }

    /// Makes `spare` at least `n`. Where memory is wanted `spare` stays.
    pub fn reserve(&mut self, n: usize) -> Result<(), NoMemory>
        ensures only { IsRoomMade self.old self.new }
        ensures ok { OnOk result ((n ≤ self.new.journal.spare) × (n ≤ (contents_of self.new).spare)) }
        ensures enough { n ≤ self.old.journal.spare → n ≤ (contents_of self.old).spare → IsOk result }
        ensures err { OnErr result (min self.new.journal.spare (contents_of self.new).spare ≡ min self.old.journal.spare (contents_of self.old).spare) }
    {
        // The fewer of both comes last, so that `spare` stays where memory is wanted.
        if self.machine.spare() < self.journal.spare() {
            self.journal.reserve(n)?;
            let reserved = self.machine.reserve(n);
            known(&self.machine);
            reserved
        } else {
            let reserved = self.machine.reserve(n);
            known(&self.machine);
            reserved?;
            self.journal.reserve(n)
        }
    }

    /// Makes room for so many loads, with all that may leave for one of them or by an unload, and for so many entries beside.
    /// Where `spare` is at least what is loaded and the two numbers together, it takes no memory.
    pub fn make_room(&mut self, loads: usize, entries: usize) -> Result<(), NoMemory>
        requires few { loads + entries ≤ 64 }
        ensures only { IsRoomMade self.old self.new }
        ensures ok { OnOk result ((loads ≤ (contents_of self.new).spare) × (count_loaded self.old + loads + entries ≤ self.new.journal.spare)) }
        ensures enough { loads ≤ (contents_of self.old).spare → count_loaded self.old + loads + entries ≤ self.old.journal.spare → IsOk result }
    {
        known(&self.machine);
        let most = self.loaded + loads + entries;
        let reserved = self.machine.reserve(loads);
        known(&self.machine);
        reserved?;
        self.journal.reserve(most)
    }

    /// Makes room for so many entries, where nothing comes or leaves.
    pub fn make_entries(&mut self, entries: usize) -> Result<(), NoMemory>
        ensures only { IsRoomMade self.old self.new }
        ensures ok { OnOk result (entries ≤ self.new.journal.spare) }
        ensures enough { entries ≤ self.old.journal.spare → IsOk result }
    {
        self.journal.reserve(entries)
    }

    /// Makes room for a declaration, so that it takes no memory.
    pub fn make_declarable(&mut self) -> Result<(), NoMemory>
        ensures only { IsRoomMade self.old self.new }
        ensures ok { OnOk result ((0 < room_of (contents_of self.new)) × (0 < self.new.machine.sets.room)) }
        ensures enough { 0 < room_of (contents_of self.old) → 0 < self.old.machine.sets.room → IsOk result }
    {
        let made = self.machine.make_room();
        known(&self.machine);
        made
    }
}
