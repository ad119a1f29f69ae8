//! All that is kept of what is resident.

ghost use Rattle.std.specs.Prelude.{◌≡◌, ◌↔◌, ℕ, ◌+◌, ◌<◌, ◌^◌, IfOk, IsTrue, MatchOption, OnOk, true};
ghost use Rattle.std.specs.Bool.{MatchBool};
ghost use Rattle.cache_ident.specs.declared.idents.Cause.{Cause};
ghost use Rattle.cache_ident.specs.declared.idents.Cause.TheVariants as causes;
ghost use Rattle.residents.specs.flat_state.specs.Dependence.{owner};
ghost use Rattle.residents.specs.Slots.{IsLowest};
ghost use Rattle.residents.specs.Tables.{AreThose, resident_of};
ghost use Rattle.residents.specs.run_journal.specs.declared.entries.Entry.TheVariants as entries;
ghost use Rattle.residents.specs.run_journal.specs.Groups.{NothingDependsOn};
ghost use Rattle.residents.specs.run_journal.specs.Legal.{MayLeave, MayLoad, MayLock, MayUnlock, cap_of, count_of};
ghost use Rattle.residents.specs.run_journal.specs.Told.{Told, nothing_told, told_after};
ghost use Rattle.journal_rules.specs.Relied.{AreRelyingOn};
ghost use Rattle.journal_tables.specs.Locks.{RecountsIf};

use crate::kind_slots::KindSlots;
use crate::locks::Locks;
use cache_ident::{Ident, Kind, Name, NoMemory};
use journal_rules::{Flat, cap, limit, owner, reliances, stays_good};
use residents::{Dependents, Held, RelyingRows, Residents};
use std::alloc::Global;

const FIRST: Ident = Ident {
    kind: Kind::Kernel,
    slot: 0,
    serial: 0,
};

/// All that is kept of what is resident, beside the machine.
///
/// A contract says of whatever a journal has told (`Told`) so that the tables are of it (`AreOf`) what they are of then. Where a
/// call wants memory, the tables are of nothing afterwards. Each call takes the logarithm of the rows and of what is resident.
#[derive(Drop)]
pub struct Tables {
    residents: Residents,
    slots: KindSlots,
    dependents: Dependents,
    relying: RelyingRows,
    locks: Locks,
}

impl Tables {
    ghost use Rattle.journal_tables.specs.KindSlots.{slots_of};
    ghost use Rattle.journal_tables.specs.Tables.{AreOf, MayLeaveAs};

    /// Nothing is resident.
    pub fn new(alloc: Global) -> Tables
        ensures { AreOf result nothing_told }
    {
        Tables {
            residents: Residents::new(alloc),
            slots: KindSlots::new(alloc),
            dependents: Dependents::new(alloc),
            relying: RelyingRows::new(alloc),
            locks: Locks::new(alloc),
        }
    }

    /// What is resident, by name and by identifier. Constant time.
    pub fn residents(&self) -> &Residents
        ensures { (k : Told) → AreOf self.now k → AreThose result.now k.residents }
    {
        &self.residents
    }

    /// Which resident rows rely on what. Constant time.
    pub fn relying(&self) -> &RelyingRows
        ensures { (k : Told) → AreOf self.now k → AreRelyingOn result.now k.state k.residents }
    {
        &self.relying
    }

    /// How many of a kind are resident. Constant time.
    pub fn count(&self, kind: Kind) -> u32
        ensures { (k : Told) → AreOf self.now k → result ≡ count_of k.residents kind }
    {
        self.slots.of(kind).count()
    }

    /// Loads a descriptor, where it may be loaded under that identifier behind so many loads, and answers whether it may. Where
    /// it may not, the tables stay.
    pub fn load(
        &mut self,
        flat: &Flat,
        loads: u64,
        ident: Ident,
        name: Name,
    ) -> Result<bool, NoMemory>
        ensures { IfOk result (λ loaded. (k : Told) → k.state ≡ flat.now → k.loads ≡ loads → AreOf self.old k
            → MatchBool loaded (MayLoad k ident name × ((cpu : ℕ) → AreOf self.new (told_after k (entries.Loaded ident name cpu)))) ((MayLoad k ident name → ⊥) × AreOf self.new k)) }
    {
        if !self.may_load(flat, loads, ident, name) {
            return Ok(false);
        }
        self.residents.load(ident, name)?;
        self.slots.take(ident.kind, ident.slot);
        let parents = flat.parents(name);
        self.dependents.add(name, parents.as_slice())?;
        let relied = reliances(flat, name);
        self.relying.add(name, relied.as_slice())?;
        Ok(true)
    }

    // Whether a descriptor may be loaded.
    fn may_load(&self, flat: &Flat, loads: u64, ident: Ident, name: Name) -> bool
        ensures may { (k : Told) → k.state ≡ flat.now → k.loads ≡ loads → AreOf self.now k → (IsTrue result ↔ MayLoad k ident name) }
        ensures lowest { result ≡ true → IsLowest (slots_of self.now.slots ident.kind) ident.slot }
        ensures small { result ≡ true → ident.slot + 1 < 2 ^ 32 }
    {
        if !stays_good(flat, &self.residents, name) {
            return false;
        }
        if self.residents.is_named(name) {
            return false;
        }
        if ident.kind != name.kind() {
            return false;
        }
        if ident.serial != loads {
            return false;
        }
        self.has_lowest_slot(flat, ident)
    }

    // Whether an identifier has the lowest free slot of its kind, and this is below the capacity.
    fn has_lowest_slot(&self, flat: &Flat, ident: Ident) -> bool
        ensures has { IsTrue result ↔ (IsLowest (slots_of self.now.slots ident.kind) ident.slot × (ident.slot < cap_of flat.now ident.kind)) }
        ensures small { result ≡ true → ident.slot + 1 < 2 ^ 32 }
    {
        let lowest = self.slots.of(ident.kind).lowest();
        ident.slot == lowest && ident.slot < cap(flat, ident.kind)
    }

    /// Locks what has an identifier, where it may be locked, and answers whether it may. Where it may not, the tables stay.
    pub fn lock(&mut self, flat: &Flat, ident: Ident) -> Result<bool, NoMemory>
        ensures { IfOk result (λ locked. (k : Told) → k.state ≡ flat.now → AreOf self.old k
            → MatchBool locked (MayLock k ident × ((cpu : ℕ) → AreOf self.new (told_after k (entries.Locked ident cpu)))) ((MayLock k ident → ⊥) × AreOf self.new k)) }
    {
        let Some(held) = self.residents.find(ident) else {
            return Ok(false);
        };
        let Some(kernel) = owner(flat, held.name) else {
            return Ok(false);
        };
        if held.locked {
            return Ok(false);
        }
        if self.locks.count(kernel, ident.kind) >= limit(flat, kernel, ident.kind) {
            return Ok(false);
        }
        self.locks.add(kernel, ident.kind)?;
        self.residents.set_lock(held, true);
        Ok(true)
    }

    /// Unlocks what has an identifier, where it may be unlocked, and answers whether it may. Where it may not, the tables stay.
    /// It takes no memory.
    pub fn unlock(&mut self, flat: &Flat, ident: Ident) -> bool
        ensures { (k : Told) → k.state ≡ flat.now → AreOf self.old k
            → MatchBool result (MayUnlock k ident × ((cpu : ℕ) → AreOf self.new (told_after k (entries.Unlocked ident cpu)))) ((MayUnlock k ident → ⊥) × AreOf self.new k) }
    {
        let Some(held) = self.residents.find(ident) else {
            return false;
        };
        if !held.locked {
            return false;
        }
        if ident == FIRST {
            return false;
        }
        forget_lock(&mut self.locks, flat, held);
        self.residents.set_lock(held, false);
        true
    }

    /// What has an identifier, where it may leave as one of a group: it isn't the first kernel, and nothing resident depends on
    /// it.
    pub fn leaver(&self, ident: Ident) -> Option<Held>
        ensures { (k : Told) → AreOf self.now k → MatchOption result (MayLeave k ident causes.Dependent → ⊥) (MayLeaveAs k ident) }
    {
        let held = self.residents.find(ident)?;
        if ident == FIRST {
            return None;
        }
        if self.dependents.has(held.name) {
            return None;
        }
        Some(held)
    }

    /// Takes out what may leave as one of a group.
    pub fn leave(&mut self, flat: &Flat, held: Held) -> Result<(), NoMemory>
        ensures { OnOk result ((k : Told) → k.state ≡ flat.now → AreOf self.old k → MayLeaveAs k held.ident held
            → (cause : Cause) (cpu : ℕ) → AreOf self.new (told_after k (entries.WrittenBack held.ident cause cpu))) }
    {
        self.slots.release(held.ident.kind, held.ident.slot)?;
        let parents = flat.parents(held.name);
        self.dependents.remove(held.name, parents.as_slice());
        let relied = reliances(flat, held.name);
        self.relying.remove(held.name, relied.as_slice());
        forget_lock(&mut self.locks, flat, held);
        self.residents.remove(held);
        Ok(())
    }
}

// One fewer of what its owner has is locked, if it is locked.
fn forget_lock(locks: &mut Locks, flat: &Flat, held: Held)
    ensures { RecountsIf held.locked locks.old locks.new (owner flat.now held.name) held.ident.kind }
{
    if !held.locked {
        return;
    }
    locks.forget(owner(flat, held.name), held.ident.kind);
}
