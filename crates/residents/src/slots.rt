//! The slots of one kind.

ghost use Rattle.std.specs.Prelude.{◌≡◌, ◌≢◌, ◌⊎◌, ◌↔◌, ℕ, ◌+◌, ◌<◌, ◌^◌, OnOk, OnErr};
ghost use Rattle.residents.specs.Freed.{AreBelow};

use cache_ident::NoMemory;
use std::alloc::Global;
use std::collections::BTreeSet;

/// Which slots of one kind are taken, of as many as 32 bits can number.
///
/// Each call takes the logarithm of how many were freed and not taken again.
#[derive(Drop)]
pub struct Slots {
    // All from here on are free.
    top: u32,
    freed: BTreeSet<u32>,
    ghost below: { AreBelow top freed },
}

impl Slots {
    ghost use Rattle.residents.specs.Slots.{IsCount, IsLowest, IsTakenIn};

    /// No slot is taken.
    pub fn new(alloc: Global) -> Slots
        ensures none { (slot : ℕ) → IsTakenIn result slot → ⊥ }
        ensures count { IsCount result 0 }
    {
        Slots {
            top: 0,
            freed: BTreeSet::new(alloc),
        }
    }

    /// How many slots are taken.
    pub fn count(&self) -> u32
        ensures { IsCount self.now result }
    {
        self.top - self.freed.len() as u32
    }

    /// The lowest free slot.
    pub fn lowest(&self) -> u32
        ensures { IsLowest self.now result }
    {
        match self.freed.first() {
            Some(slot) => *slot,
            None => self.top,
        }
    }

    /// Takes the lowest free slot, which isn't the last that 32 bits can number.
    pub fn take(&mut self, slot: u32)
        requires lowest { IsLowest self.old slot }
        requires small { slot + 1 < 2 ^ 32 }
        ensures taken { (other : ℕ) → IsTakenIn self.new other ↔ (IsTakenIn self.old other ⊎ (other ≡ slot)) }
        ensures count { (n : ℕ) → IsCount self.old n → IsCount self.new (n + 1) }
    {
        if slot < self.top {
            let _ = self.freed.remove(&slot);
        } else {
            self.top = slot + 1;
        }
    }

    /// Frees a slot, which may be free already. Where memory is wanted nothing changes.
    pub fn release(&mut self, slot: u32) -> Result<(), NoMemory>
        ensures ok { OnOk result ((other : ℕ) → IsTakenIn self.new other ↔ (IsTakenIn self.old other × (other ≢ slot))) }
        ensures count { OnOk result (IsTakenIn self.old slot → (n : ℕ) → IsCount self.old (n + 1) → IsCount self.new n) }
        ensures err { OnErr result ((other : ℕ) → IsTakenIn self.new other ↔ IsTakenIn self.old other) }
    {
        if slot < self.top {
            self.freed.insert(slot)?;
        }
        Ok(())
    }
}
