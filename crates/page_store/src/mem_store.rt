//! A store over memory, which fails as it is told to.

ghost use Rattle.std.specs.Prelude.{◌≡◌, ◌*◌, ◌<◌, ◌≤◌, ◌↔◌, Some, IfOk, OnOk, OnErr, IsErr, Contains, length};
ghost use Rattle.phys_groups.specs.Memory.{page_at, with_page};
ghost use Rattle.byte_ports.specs.Faults.{last_count, next_count, HasRisen};
ghost use Rattle.page_store.specs.MemStores.{new_stock};

use crate::store::Store;
use byte_ports::Failed;
use cache_ident::{Frame, NoMemory};
use phys_groups::Memory;
use std::alloc::Global;
use std::marker::Model;

/// A store over memory of whole page groups, each of 128 frames. A contract sees its groups and its bytes, which calls fail, the number
/// of the next call, how many writes succeeded, and how many calls failed.
#[derive(Drop)]
pub struct MemStore {
    groups: u32,
    memory: Memory,
    fail: Vec<u64>,
    calls: u64,
    writes: u64,
    faults: u64,
}

impl Model for MemStore {
    ghost use Rattle.std.specs.Prelude.{◌≡◌, ◌*◌, ◌≤◌, length};
    ghost use Rattle.byte_ports.specs.Faults.{last_count};
    ghost use Rattle.page_store.specs.MemStores.{Stock};

    ghost Value = { Stock };

    ghost view = { λ s. record { groups = s.groups; bytes = s.memory; failing = s.fail.items; calls = s.calls; writes = s.writes; faults = s.faults } };

    ghost invariant = { λ s. (s.groups ≤ 16) × (length s.memory ≡ 524288 * s.groups) × (s.faults ≤ last_count) };
}

impl MemStore {
    /// Zeros, of so many page groups. The calls whose numbers stand in `fail` fail; the first one has number 0, and numbers stay at
    /// the last `u64`.
    pub fn new(alloc: Global, groups: u32, fail: &[u64]) -> Result<MemStore, NoMemory>
        requires least { 1 ≤ groups }
        requires most { groups ≤ 16 }
        ensures { IfOk result (λ store. store ≡ new_stock groups fail.now) }
    {
        let memory = Memory::new(alloc, groups)?;
        let fail = fail.to_vec(alloc)?;
        Ok(MemStore {
            groups,
            memory,
            fail,
            calls: 0,
            writes: 0,
            faults: 0,
        })
    }

    /// How many writes succeeded, up to the last value of a `u64`.
    pub fn writes(&self) -> u64
        ensures { result ≡ self.now.writes }
    {
        self.writes
    }

    /// How many reads and writes there were, also of those that failed, up to the last value of a `u64`.
    pub fn calls(&self) -> u64
        ensures { result ≡ self.now.calls }
    {
        self.calls
    }

    // Counts a call, and whether it fails.
    fn call(&mut self) -> Result<(), Failed>
        ensures failing { IsErr result ↔ Contains self.old.failing self.old.calls }
        ensures ok { OnOk result (self.new ≡ record self.old { calls = next_count self.old.calls }) }
        ensures err { OnErr result (self.new ≡ record self.old { calls = next_count self.old.calls; faults = next_count self.old.faults }) }
        ensures fault { OnErr result (HasRisen self.old.faults self.new.faults) }
        ensures counted { self.new.faults ≤ last_count }
    {
        let number = self.calls;
        self.calls = number.saturating_add(1);
        if self.fail.contains(&number) {
            self.faults = self.faults.saturating_add(1);
            return Err(Failed);
        }
        Ok(())
    }
}

impl Store for MemStore {
    ghost frames = { λ stock. 128 * stock.groups };

    ghost bytes_held = { λ stock. Some stock.bytes };

    ghost faults = { λ stock. stock.faults };

    fn read(&mut self, frame: Frame, into: &mut [u8]) -> Result<(), Failed>
        requires there { frame.0 < 128 * self.old.groups }
        requires whole_page { length into.old ≡ 4096 }

        // It fails exactly where it was told to.
        ensures failing { IsErr result ↔ Contains self.old.failing self.old.calls }
        ensures page { OnOk result (into.new ≡ page_at self.old.bytes frame) }
        ensures after { OnOk result (self.new ≡ record self.old { calls = next_count self.old.calls }) }
        ensures after_fault { OnErr result (self.new ≡ record self.old { calls = next_count self.old.calls; faults = next_count self.old.faults }) }

        // What every store promises, and doesn't follow from the above.
        ensures fault { OnErr result (HasRisen self.old.faults self.new.faults) }
        ensures counted { self.new.faults ≤ last_count }
    {
        self.call()?;
        self.memory.copy_out(frame, into);
        Ok(())
    }

    fn write(&mut self, frame: Frame, from: &[u8]) -> Result<(), Failed>
        requires there { frame.0 < 128 * self.old.groups }
        requires whole_page { length from.now ≡ 4096 }

        // It fails exactly where it was told to.
        ensures failing { IsErr result ↔ Contains self.old.failing self.old.calls }
        ensures after { OnOk result (self.new ≡ record self.old { bytes = with_page self.old.bytes frame from.now; calls = next_count self.old.calls; writes = next_count self.old.writes }) }
        ensures after_fault { OnErr result (self.new ≡ record self.old { calls = next_count self.old.calls; faults = next_count self.old.faults }) }

        // What every store promises, and doesn't follow from the above.
        ensures fault { OnErr result (HasRisen self.old.faults self.new.faults) }
        ensures counted { self.new.faults ≤ last_count }
    {
        self.call()?;
        self.memory.copy_in(frame, from);
        self.writes = self.writes.saturating_add(1);
        Ok(())
    }
}
