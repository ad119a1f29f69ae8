// A source and a sink over memory, which fail as they are told to.
ghost use Rattle.std.specs.Prelude.{◌≡◌, ◌≤◌, ◌<◌, ◌++◌, ◌↔◌, Some, IfOk, [], OnErr, IsErr, Contains, length, take, drop};
ghost use Rattle.byte_ports.specs.Faults.{last_count, next_count, HasRisen};
ghost use Rattle.byte_ports.specs.MemSource.{new_supply, given_count};
ghost use Rattle.byte_ports.specs.MemSink.{new_hold, taken_count, Refuses};

use crate::NoMemory;
use crate::ports::{Failed, Sink, Source};
use std::alloc::Global;
use std::marker::Model;

/// A source over bytes in memory.
#[derive(Drop)]
pub struct MemSource {
    bytes: Vec<u8>,
    at: usize,
    step: usize,
    fail: Vec<u64>,
    reads: u64,
    faults: u64,
}

impl Model for MemSource {
    ghost use Rattle.std.specs.Prelude.{◌≤◌, drop, vec_len};
    ghost use Rattle.byte_ports.specs.Faults.{last_count};
    ghost use Rattle.byte_ports.specs.MemSource.{Supply};

    ghost Value = { Supply };

    ghost view = { λ s. record { left = drop s.at s.bytes.items; step = s.step; failing = s.fail.items; reads = s.reads; faults = s.faults } };

    ghost invariant = { λ s. (s.at ≤ vec_len s.bytes) × (1 ≤ s.step) × (s.faults ≤ last_count) };
}

impl MemSource {
    /// Holds `bytes`, and gives at most `step` of them a read. The reads whose numbers stand in
    /// `fail` fail; the first one has number 0, and numbers stay at the last `u64`.
    pub fn new(
        alloc: Global,
        bytes: &[u8],
        step: usize,
        fail: &[u64],
    ) -> Result<MemSource, NoMemory>
        requires { 1 ≤ step }
        ensures { IfOk result (λ source. source ≡ new_supply bytes.now step fail.now) }
    {
        let bytes = bytes.to_vec(alloc)?;
        let fail = fail.to_vec(alloc)?;
        Ok(MemSource {
            bytes,
            at: 0,
            step,
            fail,
            reads: 0,
            faults: 0,
        })
    }
}

impl Source for MemSource {
    ghost bytes_left = { λ supply. Some supply.left };

    ghost faults = { λ supply. supply.faults };

    fn read(&mut self, into: &mut [u8]) -> Result<usize, Failed>
        // It fails exactly where it was told to.
        ensures failing { IsErr result ↔ Contains self.old.failing self.old.reads }
        ensures given { IfOk result (λ n. n ≡ given_count self.old (length into.old)) }
        ensures piece { IfOk result (λ n. into.new ≡ take n self.old.left ++ drop n into.old) }
        ensures after { IfOk result (λ n. self.new ≡ record self.old {
          left = drop n self.old.left;
          reads = next_count self.old.reads;
        }) }
        ensures piece_kept { OnErr result (into.new ≡ into.old) }
        ensures after_fault { OnErr result (self.new ≡ record self.old {
          reads = next_count self.old.reads;
          faults = next_count self.old.faults;
        }) }

        // What every source promises, and doesn't follow from the above.
        ensures end { IfOk result (λ n. n ≡ 0 → 0 < length into.new → self.new.left ≡ []) }
        ensures fault { OnErr result (HasRisen self.old.faults self.new.faults) }
        ensures counted { self.new.faults ≤ last_count }
    {
        let number = self.reads;
        self.reads = number.saturating_add(1);
        if self.fail.contains(&number) {
            self.faults = self.faults.saturating_add(1);
            return Err(Failed);
        }
        let left = &self.bytes[self.at..];
        let count = into.len().min(self.step).min(left.len());
        into[..count].copy_from_slice(&left[..count]);
        self.at += count;
        Ok(count)
    }
}

/// A sink over memory.
#[derive(Drop)]
pub struct MemSink {
    bytes: Vec<u8>,
    room: usize,
    step: usize,
    fail: Vec<u64>,
    writes: u64,
    faults: u64,
}

impl Model for MemSink {
    ghost use Rattle.std.specs.Prelude.{◌≤◌, vec_capacity, vec_len};
    ghost use Rattle.byte_ports.specs.Faults.{last_count};
    ghost use Rattle.byte_ports.specs.MemSink.{Hold};

    ghost Value = { Hold };

    ghost view = { λ s. record { held = s.bytes.items; room = s.room; step = s.step; failing = s.fail.items; writes = s.writes; faults = s.faults } };

    ghost invariant = { λ s. (vec_len s.bytes ≤ s.room) × (s.room ≤ vec_capacity s.bytes) × (1 ≤ s.step) × (s.faults ≤ last_count) };
}

impl MemSink {
    /// Has room for `room` bytes, whose memory is taken here, and takes at most `step` bytes a
    /// write. The writes whose numbers stand in `fail` fail, and so does one without room for a
    /// single byte. The first write has number 0, and numbers stay at the last `u64`.
    pub fn new(alloc: Global, room: usize, step: usize, fail: &[u64]) -> Result<MemSink, NoMemory>
        requires { 1 ≤ step }
        ensures { IfOk result (λ sink. sink ≡ new_hold room step fail.now) }
    {
        let bytes = Vec::with_capacity(alloc, room)?;
        let fail = fail.to_vec(alloc)?;
        Ok(MemSink {
            bytes,
            room,
            step,
            fail,
            writes: 0,
            faults: 0,
        })
    }

    /// The bytes held.
    pub fn held(&self) -> &[u8]
        ensures { result.now ≡ self.now.held }
    {
        self.bytes.as_slice()
    }
}

impl Sink for MemSink {
    ghost bytes_held = { λ hold. Some hold.held };

    ghost faults = { λ hold. hold.faults };

    fn write(&mut self, piece: &[u8]) -> Result<usize, Failed>
        // It fails exactly where it was told to, and where there is no room.
        ensures failing { IsErr result ↔ Refuses self.old piece.now }
        ensures taken { IfOk result (λ n. n ≡ taken_count self.old (length piece.now)) }
        ensures after { IfOk result (λ n. self.new ≡ record self.old {
          held = self.old.held ++ take n piece.now;
          writes = next_count self.old.writes;
        }) }
        ensures after_fault { OnErr result (self.new ≡ record self.old {
          writes = next_count self.old.writes;
          faults = next_count self.old.faults;
        }) }

        // What every sink promises, and doesn't follow from the above.
        ensures progress { IfOk result (λ n. 0 < length piece.now → 0 < n) }
        ensures fault { OnErr result (HasRisen self.old.faults self.new.faults) }
        ensures counted { self.new.faults ≤ last_count }
    {
        let number = self.writes;
        self.writes = number.saturating_add(1);
        let room = self.room - self.bytes.len();
        if self.fail.contains(&number) || !piece.is_empty() && room == 0 {
            self.faults = self.faults.saturating_add(1);
            return Err(Failed);
        }
        let count = piece.len().min(self.step).min(room);
        self.bytes.extend_from_slice(&piece[..count]).unwrap();
        Ok(count)
    }
}
