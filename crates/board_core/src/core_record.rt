//! The record, and what is read of it.

ghost use Rattle.std.specs.Prelude.{◌≡◌, ◌+◌, ◌≤◌, ◌<◌, ◌^◌, ◌∷◌, ◌++◌, List, [], false, None, Some, IfOk, length, slice_get};
ghost use Rattle.cache_ident.specs.declared.idents.Ident.{Ident};
ghost use Rattle.board_ops.specs.depend_lists.specs.declared.nodes.Node.{Node};
ghost use Rattle.phys_groups.specs.Memory.{HasFrame};
ghost use Rattle.flat_state.specs.declared.events.Decl.TheVariants as decls;
ghost use Rattle.flat_state.specs.Declaration.{rule_of_machine};
ghost use Rattle.run_journal.specs.declared.entries.Entry.TheVariants.{Declared};
ghost use Rattle.cached_machine.specs.desc_stores.specs.Contents.{residents_of};
ghost use Rattle.cached_machine.specs.desc_tables.specs.Tables.{AreSound};
ghost use Rattle.board_core.specs.Core.{IsSound};
ghost use Rattle.board_core.specs.Stamps.{stamped_at, IsSince, IsWithin};

use cache_ident::{Caps, Frame, NoMemory};
use cached_machine::{CachedMachine, Tables};
use flat_state::{Decl, Machine};
use phys_groups::GROUP_FRAMES;
use run_journal::{Entry, Journal};
use std::alloc::Global;
use std::marker::Model;

/// The machine with caches, the journal of all that happened to it, and how many steps it may take.
///
/// A contract sees these, and a stamp for each frame. The journal is legal and tells what the machine shows and what is loaded
/// (`IsSound`, which `holds` gives out): so whatever a move does is in the entries that it writes.
#[derive(Drop)]
pub struct Core {
    pub(crate) machine: CachedMachine,
    pub(crate) journal: Journal,
    // Whether the journal has the seal.
    pub(crate) sealed: bool,
    // How many descriptors are loaded.
    pub(crate) loaded: usize,
    // How many steps may be taken, and how many the journal has.
    pub(crate) limit: u64,
    pub(crate) steps: u64,
    // How many checkouts gave a thread. The count stays at its last value.
    pub(crate) checkouts: u64,
    // For each frame a place of the journal from which on no entry changed it: its bytes are those that it has in the flat
    // state of the entries before that place.
    pub(crate) stamps: Vec<u64>,
}

impl Model for Core {
    ghost use Rattle.std.specs.Prelude.{◌≡◌, length};
    ghost use Rattle.cached_machine.specs.desc_stores.specs.Contents.{residents_of};
    ghost use Rattle.board_core.specs.Core.{IsSound, Recorded};

    ghost Value = { Recorded };

    ghost view = { λ c. record { machine = c.machine; journal = c.journal; sealed = c.sealed; limit = c.limit; steps = c.steps; checkouts = c.checkouts; stamps = c.stamps.items } };

    ghost invariant = { λ c. IsSound (record { machine = c.machine; journal = c.journal; sealed = c.sealed; limit = c.limit; steps = c.steps; checkouts = c.checkouts; stamps = c.stamps.items }) × (c.loaded ≡ length (residents_of c.machine.held.contents)) };
}

impl Core {
    /// The machine as it is declared, with a journal of that declaration alone. The machine breaks no rule.
    pub fn new(alloc: Global, machine: Machine, limit: u64) -> Result<Core, NoMemory>
        requires { rule_of_machine machine ≡ None }
        ensures entries { IfOk result (λ core. core.journal.entries ≡ Declared (decls.Machine machine) ∷ []) }
        ensures begins { IfOk result (λ core. (core.sealed ≡ false) × (core.limit ≡ limit) × (core.checkouts ≡ 0) × (core.machine.machine ≡ machine)) }
    {
        let mut journal = Journal::new(alloc);
        journal.push(Entry::Declared {
            decl: Decl::Machine { machine },
        })?;
        let frames = machine.groups as usize * GROUP_FRAMES as usize;
        // Memory is all zeros behind the first entry.
        let stamps = vec![in alloc; journal.len(); frames]?;
        let machine = CachedMachine::new(alloc, machine)?;
        known(&machine);
        Ok(Core {
            machine,
            journal,
            sealed: false,
            loaded: 0,
            limit,
            steps: 0,
            checkouts: 0,
            stamps,
        })
    }

    /// Does nothing. A proof has from it what holds of every core.
    pub fn holds(&self)
        ensures { IsSound self.now }
    {
        let _ = &self.journal;
    }

    /// The machine.
    pub fn machine(&self) -> &CachedMachine
        ensures { result.now ≡ self.now.machine }
    {
        &self.machine
    }

    /// The tables. Whoever asks for them learns what holds of them, and of the whole board.
    pub fn tables(&self) -> &Tables
        ensures tables { result.now ≡ self.now.machine.held }
        ensures known { IsSound self.now }
        ensures sound { (pairs : List (Ident × Node)) × AreSound self.now.machine.held pairs }
    {
        self.holds();
        let tables = self.machine.tables();
        tables.are_sound();
        tables
    }

    /// All that happened.
    pub fn journal(&self) -> &Journal
        ensures { result.now ≡ self.now.journal }
    {
        &self.journal
    }

    /// The journal, without the rest.
    pub fn into_journal(self) -> Journal
        ensures { result ≡ self.journal }
    {
        let Core {
            machine: _,
            journal,
            sealed: _,
            loaded: _,
            limit: _,
            steps: _,
            checkouts: _,
            stamps: _,
        } = self;
        journal
    }

    /// Whether the declarations have ended.
    pub fn is_sealed(&self) -> bool
        ensures { result ≡ self.now.sealed }
    {
        self.sealed
    }

    /// How many steps the journal has.
    pub fn steps(&self) -> u64
        ensures { result ≡ self.now.steps }
    {
        self.steps
    }

    /// How many steps may still be taken.
    pub fn steps_left(&self) -> u64
        ensures { self.now.steps + result ≡ self.now.limit }
    {
        // No more are ever taken than may be.
        self.limit - self.steps
    }

    /// A place of the journal from which on no entry changed a frame that there is.
    pub fn stamp(&self, frame: Frame) -> u64
        requires { HasFrame self.now.machine.memory frame }
        ensures stamp { slice_get self.now.stamps frame.0 ≡ Some result }
        ensures since { IsSince self.now.journal.entries self.now.machine.memory frame result }
    {
        self.stamps[frame.0 as usize]
    }
}

// Does nothing. A proof has from it what holds of the tables of every machine.
pub(crate) fn known(machine: &CachedMachine)
    ensures caps { machine.now.held.caps ≡ machine.now.machine.caps }
    ensures sound { (pairs : List (Ident × Node)) × AreSound machine.now.held pairs }
    ensures few { length (residents_of machine.now.held.contents) < 2 ^ 34 }
{
    machine.tables_are_sound();
    hold_few(machine.tables().caps());
}

// Does nothing. A proof has from it that caches of any capacities hold few together.
fn hold_few(caps: Caps)
    ensures { caps.kernels + caps.spaces + caps.threads + caps.mappings < 2 ^ 34 }
{}

// The place of the next entry. For each entry that there is room for, there is a place.
pub(crate) fn next_place(journal: &Journal) -> u64
    ensures place { result ≡ length journal.now.entries }
    ensures fits { result + journal.now.spare < 2 ^ 64 }
{
    let _ = journal.spare();
    journal.len()
}

// Notes an entry, for which there is room.
pub(crate) fn note(journal: &mut Journal, entry: Entry)
    requires { 0 < journal.old.spare }
    ensures entries { journal.new.entries ≡ journal.old.entries ++ entry ∷ [] }
    ensures spare { journal.old.spare ≤ journal.new.spare + 1 }
{
    let _ = journal.push(entry);
}

// A frame, if there is one, changed by the entry that was noted last.
pub(crate) fn put_stamp(stamps: &mut Vec<u64>, frame: Option<Frame>, at: u64)
    requires { IsWithin frame stamps.old.items }
    ensures { stamps.new.items ≡ stamped_at frame at stamps.old.items }
{
    if let Some(frame) = frame {
        stamps[frame.0 as usize] = at;
    }
}
