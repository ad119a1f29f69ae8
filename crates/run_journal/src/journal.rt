//! A list of entries that only grows.

ghost use Rattle.std.specs.Prelude.{◌≡◌, ◌<◌, ◌+◌, ◌^◌, ◌∷◌, ◌++◌, [], ◌≤◌, ◌↔◌, IsTrue, IsOk, OnOk, OnErr, IfOk, length, slice_get};
ghost use Rattle.run_journal.specs.Entries.{erase};

use crate::entries::{Entry, push_events};
use cache_ident::NoMemory;
use flat_state::Event;
use std::alloc::Global;
use std::marker::Model;

/// What happened to a machine, from its declaration on. Entries are only ever added.
///
/// A contract sees the list `entries`, and as `spare` how many more fit without memory.
#[derive(Drop)]
pub struct Journal {
    alloc: Global,
    entries: Vec<Entry>,
}

impl Model for Journal {
    ghost use Rattle.std.specs.Prelude.{◌-◌, vec_len, vec_capacity};
    ghost use Rattle.run_journal.specs.Entries.{Written};

    ghost Value = { Written };

    ghost view = { λ j. record { entries = j.entries.items; spare = vec_capacity j.entries - vec_len j.entries } };
}

impl Journal {
    /// No entry. It takes no memory.
    pub fn new(alloc: Global) -> Journal
        ensures { result.entries ≡ [] }
    {
        Journal {
            alloc,
            entries: Vec::new(alloc),
        }
    }

    /// Adds an entry at the end. Where memory is wanted the entries stay, and with a spare of one or more none is.
    /// It costs constant time, amortised.
    pub fn push(&mut self, entry: Entry) -> Result<(), NoMemory>
        ensures ok { OnOk result (self.new.entries ≡ self.old.entries ++ entry ∷ []) }
        ensures err { OnErr result (self.new.entries ≡ self.old.entries) }
        ensures spare { 0 < self.old.spare → IsOk result }
        ensures shrinks { self.old.spare ≤ self.new.spare + 1 }
    {
        self.entries.push(entry)?;
        Ok(())
    }

    /// Makes `spare` at least `n`. Where memory is wanted nothing changes.
    pub fn reserve(&mut self, n: usize) -> Result<(), NoMemory>
        ensures entries { self.new.entries ≡ self.old.entries }
        ensures grows { self.old.spare ≤ self.new.spare }
        ensures ok { OnOk result (n ≤ self.new.spare) }
        ensures enough { n ≤ self.old.spare → IsOk result }
        ensures err { OnErr result (self.new ≡ self.old) }
    {
        self.entries.reserve(n)
    }

    /// How many more entries fit without memory.
    pub fn spare(&self) -> usize
        ensures spare { result ≡ self.now.spare }
        ensures fits { length self.now.entries + result < 2 ^ 64 }
    {
        self.entries.capacity() - self.entries.len()
    }

    /// How many entries there are.
    pub fn len(&self) -> u64
        ensures { result ≡ length self.now.entries }
    {
        self.entries.len() as u64
    }

    /// Whether there is none.
    pub fn is_empty(&self) -> bool
        ensures { IsTrue result ↔ (self.now.entries ≡ []) }
    {
        self.entries.is_empty()
    }

    /// The entry at a place, counted from 0, and none behind the end. Constant time.
    pub fn get(&self, at: u64) -> Option<Entry>
        ensures { result ≡ slice_get self.now.entries at }
    {
        self.entries.get(at as usize).copied()
    }

    /// All entries, in order.
    pub fn as_slice(&self) -> &[Entry]
        ensures { result.now ≡ self.now.entries }
    {
        self.entries.as_slice()
    }

    /// The events that the machine with unlimited tables sees: what is left once the caches' own entries are taken
    /// out. It costs a pass over the entries, and time and memory for each step.
    pub fn erase(&self) -> Result<Vec<Event>, NoMemory>
        ensures { IfOk result (λ events. events.items ≡ erase self.now.entries) }
    {
        let mut events = Vec::new(self.alloc);
        for entry in &self.entries {
            push_events(entry, &mut events)?;
        }
        Ok(events)
    }
}
