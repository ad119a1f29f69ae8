//! What the machine has room for, and what is read of it beside the rules.

ghost use Rattle.std.specs.Prelude.{◌≡◌, ℕ, ◌+◌, ◌<◌, ◌≤◌, ◌^◌, List, length, min, IsOk, OnErr, OnOk};
ghost use Rattle.cache_ident.specs.declared.idents.Ident.{Ident};
ghost use Rattle.board_laws.specs.depend_lists.specs.declared.nodes.Node.{Node};
ghost use Rattle.board_laws.specs.depend_lists.specs.Pairs.{count_of};
ghost use Rattle.phys_groups.specs.Memory.{page_at, with_page, HasFrame};
ghost use Rattle.board_laws.specs.page_views.specs.Parts.{AreAlikeBut, IsWithinPage};
ghost use Rattle.board_laws.specs.desc_groups.specs.Moves.{HasPlaces};
ghost use Rattle.board_laws.specs.desc_stores.specs.Changes.{room_of};
ghost use Rattle.board_laws.specs.desc_stores.specs.Contents.{residents_of};
ghost use Rattle.board_laws.specs.desc_tables.specs.Tables.{AreSound};
ghost use Rattle.cached_machine.specs.Cached.{state_of};
ghost use Rattle.cached_machine.specs.Moved.{OnlyRoom};
ghost use Rattle.thread_sets.specs.SetsOf.{AreSetsOf};

use crate::machine::CachedMachine;
use board_laws::{Part, Tables};
use cache_ident::{Frame, NoMemory};
use thread_sets::ThreadSets;

impl CachedMachine {
    /// The tables of its descriptors.
    pub fn tables(&self) -> &Tables
        ensures tables { result.now ≡ self.now.held }
        ensures caps { self.now.held.caps ≡ self.now.machine.caps }
    {
        &self.tables
    }

    /// Which of its threads can go on.
    pub fn sets(&self) -> &ThreadSets
        ensures sets { result.now ≡ self.now.sets }
        ensures of { AreSetsOf (state_of self.now).threads self.now.sets }
    {
        &self.sets
    }

    /// How many descriptors of each kind can be declared without memory. Constant time.
    pub fn room(&self) -> usize
        ensures { result ≡ min (room_of self.now.held.contents) self.now.sets.room }
    {
        self.tables.room().min(self.sets.room())
    }

    /// What holds of the tables of every machine, and that no more is loaded than the capacities allow. It does nothing.
    pub fn tables_are_sound(&self)
        ensures sound { (pairs : List (Ident × Node)) × AreSound self.now.held pairs }
        ensures places { (root : Ident) (at : ℕ) → at + count_of self.now.held.caps ≤ 2 ^ 64 → HasPlaces self.now.held.contents root at }
        ensures few { length (residents_of self.now.held.contents) ≤ count_of self.now.held.caps }
    {
        self.tables.are_sound();
    }

    /// Makes room for one more descriptor of each kind. Nothing else changes, and no room falls, also where memory is wanted.
    /// Where there is room it takes constant time.
    pub fn make_room(&mut self) -> Result<(), NoMemory>
        ensures only { OnlyRoom self.old self.new }
        ensures ok { OnOk result ((0 < room_of self.new.held.contents) × (0 < self.new.sets.room)) }
        ensures enough { 0 < room_of self.old.held.contents → 0 < self.old.sets.room → IsOk result }
    {
        self.sets.make_room()?;
        self.tables.make_room()
    }

    /// How many identifiers can be issued without memory. Constant time.
    pub fn spare(&self) -> usize
        ensures { result ≡ self.now.held.contents.spare }
    {
        self.tables.spare()
    }

    /// Makes `spare` at least `n`. Where memory is wanted nothing changes.
    pub fn reserve(&mut self, n: usize) -> Result<(), NoMemory>
        ensures only { OnlyRoom self.old self.new }
        ensures room { (room_of self.new.held.contents ≡ room_of self.old.held.contents) × (self.new.sets ≡ self.old.sets) }
        ensures ok { OnOk result (n ≤ self.new.held.contents.spare) }
        ensures enough { n ≤ self.old.held.contents.spare → IsOk result }
        ensures err { OnErr result (self.new ≡ self.old) }
    {
        self.tables.reserve(n)
    }

    /// Puts 4,096 bytes over those of a frame that there is, which differ from them at most in a part.
    pub fn copy_part_in(&mut self, frame: Frame, part: Part, bytes: &[u8])
        requires frame { HasFrame self.old.memory frame }
        requires page { length bytes.now ≡ 4096 }
        requires within { IsWithinPage part }
        requires alike { AreAlikeBut part (page_at self.old.memory frame) bytes.now }
        ensures { self.new ≡ record self.old { memory = with_page self.old.memory frame bytes.now } }
    {
        self.memory.copy_part_in(frame, part.from, part.to, bytes);
    }
}
