//! The slots of each kind.

ghost use Rattle.std.specs.Prelude.{◌≡◌, ◌≢◌, ◌⊎◌, ◌↔◌, ℕ, ◌+◌, ◌<◌, ◌^◌, OnOk};
ghost use Rattle.cache_ident.specs.declared.idents.Kind.{Kind};
ghost use Rattle.residents.specs.Slots.{IsCount, IsLowest, IsTakenIn};

use cache_ident::{Kind, NoMemory};
use residents::Slots;
use std::alloc::Global;

/// The slots of each kind. Each call takes the logarithm of how many of its kind were freed and not taken again.
#[derive(Drop)]
pub struct KindSlots {
    kernels: Slots,
    spaces: Slots,
    threads: Slots,
    mappings: Slots,
}

impl KindSlots {
    ghost use Rattle.journal_tables.specs.KindSlots.{slots_of};

    /// No slot is taken.
    pub fn new(alloc: Global) -> KindSlots
        ensures none { (kind : Kind) (slot : ℕ) → IsTakenIn (slots_of result kind) slot → ⊥ }
        ensures count { (kind : Kind) → IsCount (slots_of result kind) 0 }
    {
        KindSlots {
            kernels: Slots::new(alloc),
            spaces: Slots::new(alloc),
            threads: Slots::new(alloc),
            mappings: Slots::new(alloc),
        }
    }

    /// The slots of a kind.
    pub fn of(&self, kind: Kind) -> &Slots
        ensures { result.now ≡ slots_of self.now kind }
    {
        match kind {
            Kind::Kernel => &self.kernels,
            Kind::Space => &self.spaces,
            Kind::Thread => &self.threads,
            Kind::Mapping => &self.mappings,
        }
    }

    /// Takes the lowest free slot of a kind, which isn't the last that 32 bits can number.
    pub fn take(&mut self, kind: Kind, slot: u32)
        requires lowest { IsLowest (slots_of self.old kind) slot }
        requires small { slot + 1 < 2 ^ 32 }
        ensures taken { (other : ℕ) → IsTakenIn (slots_of self.new kind) other ↔ (IsTakenIn (slots_of self.old kind) other ⊎ (other ≡ slot)) }
        ensures count { (n : ℕ) → IsCount (slots_of self.old kind) n → IsCount (slots_of self.new kind) (n + 1) }
        ensures others { (other : Kind) → other ≢ kind → slots_of self.new other ≡ slots_of self.old other }
    {
        match kind {
            Kind::Kernel => self.kernels.take(slot),
            Kind::Space => self.spaces.take(slot),
            Kind::Thread => self.threads.take(slot),
            Kind::Mapping => self.mappings.take(slot),
        }
    }

    /// Frees a slot of a kind, which may be free already.
    pub fn release(&mut self, kind: Kind, slot: u32) -> Result<(), NoMemory>
        ensures taken { OnOk result ((other : ℕ) → IsTakenIn (slots_of self.new kind) other ↔ (IsTakenIn (slots_of self.old kind) other × (other ≢ slot))) }
        ensures count { OnOk result (IsTakenIn (slots_of self.old kind) slot → (n : ℕ) → IsCount (slots_of self.old kind) (n + 1) → IsCount (slots_of self.new kind) n) }
        ensures others { OnOk result ((other : Kind) → other ≢ kind → slots_of self.new other ≡ slots_of self.old other) }
    {
        match kind {
            Kind::Kernel => self.kernels.release(slot),
            Kind::Space => self.spaces.release(slot),
            Kind::Thread => self.threads.release(slot),
            Kind::Mapping => self.mappings.release(slot),
        }
    }
}
