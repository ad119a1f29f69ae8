//! What the checker of a journal knows.

ghost use Rattle.std.specs.Prelude.{◌≡◌, ◌↔◌, ℕ, [], IfOk, IfSome, IsTrue, None, true, false};
ghost use Rattle.std.specs.Bool.{MatchBool};
ghost use Rattle.cache_ident.specs.declared.idents.Cause.TheVariants as causes;
ghost use Rattle.cache_ident.specs.declared.names.Name.TheVariants as names;
ghost use Rattle.cache_ident.specs.Residents.{IsNameResident};
ghost use Rattle.flat_state.specs.Declaration.{broken_rule};
ghost use Rattle.residents.specs.Tables.{resident_of};
ghost use Rattle.run_journal.specs.declared.entries.Entry.TheVariants as entries;
ghost use Rattle.run_journal.specs.Legal.{IsFullBefore, IsInPlace, LeavesBy, MayComplete, MayEnd, MayLeave, MayLoad, MayLock, MayRun, MayUnlock};
ghost use Rattle.run_journal.specs.Points.{IsFollowed, IsInOrder};
ghost use Rattle.run_journal.specs.Told.{Told, nothing_told, told_after};
ghost use Rattle.journal_groups.specs.journal_tables.specs.Tables.{MayLeaveAs};

use crate::order::Due;
use cache_ident::{Cause, Ident, Kind, Name, NoMemory, ThreadNo};
use flat_state::{Decl, Event};
use journal_groups::rules::{cap, complete, is_followed, may_step, run};
use journal_groups::{Flat, Group, Tables};
use residents::Held;
use run_journal::Entry;
use std::alloc::Global;

/// What is known at a place of a journal: the machine with unlimited tables, all that is kept of what is resident, and what
/// has left since a group began.
///
/// A contract says of whatever the entries before the place have told (`Told`) so that the facts are of it (`AreFactsOf`) what a
/// call makes of it. Where a call wants memory, the facts are of nothing afterwards.
#[derive(Drop)]
pub struct Facts {
    alloc: Global,
    flat: Flat,
    tables: Tables,
    group: Group,
    // How many entries loaded something; none where 64 bits can't number the next one.
    loads: Option<u64>,
    sealed: bool,
    due: Due,
}

impl Facts {
    ghost use Rattle.journal_facts.specs.Facts.{AreFactsBehind, AreFactsOf, StandFor};
    ghost use Rattle.journal_facts.specs.Order.{beginning_of};
    ghost use Rattle.journal_facts.specs.Rules.{KeepsOwn};

    /// Nothing is told.
    pub fn new(alloc: Global) -> Facts
        ensures { AreFactsOf result nothing_told }
    {
        Facts {
            alloc,
            flat: Flat::new(alloc),
            tables: Tables::new(alloc),
            group: Group::new(alloc),
            loads: Some(0),
            sealed: false,
            due: Due::Machine,
        }
    }

    /// The machine with unlimited tables.
    pub fn into_flat(self) -> Flat
        ensures { (k : Told) → AreFactsOf self k → result ≡ k.state }
    {
        self.flat
    }

    /// Whether what stands at the place is in order: what is due, if anything is, and an entry only on its side of the seal, a
    /// declaration only where it fits. It costs the logarithm of the rows.
    pub fn is_in_order(&self, here: Option<Entry>) -> bool
        ensures { (k : Told) → AreFactsOf self.now k → (IsTrue result ↔ (IsInOrder k.due here × IfSome here (IsInPlace k))) }
    {
        self.due.is_met(here) && self.is_in_place(here)
    }

    // Whether an entry, if there is one, stands on its side of the seal, and fits if it is a declaration.
    fn is_in_place(&self, here: Option<Entry>) -> bool
        ensures { (k : Told) → AreFactsOf self.now k → (IsTrue result ↔ IfSome here (IsInPlace k)) }
    {
        match here {
            Some(entry) => self.has_place_for(&entry),
            None => true,
        }
    }

    fn has_place_for(&self, entry: &Entry) -> bool
        ensures { (k : Told) → AreFactsOf self.now k → (IsTrue result ↔ IsInPlace k entry.now) }
    {
        match *entry {
            Entry::Declared { decl } => !self.sealed && self.fits(&decl),
            Entry::Sealed => !self.sealed,
            _ => self.sealed,
        }
    }

    // Whether a declaration breaks no rule.
    fn fits(&self, decl: &Decl) -> bool
        ensures { IsTrue result ↔ (broken_rule self.now.flat decl.now ≡ None) }
    {
        self.flat.admit(decl).is_ok()
    }

    /// Takes an entry that is in its place, and answers whether it keeps the rule of its kind, where that other one stands behind
    /// it. Where it keeps it, the facts are of what is told with the entry; where it doesn't, they are of nothing.
    ///
    /// Beside its steps an entry costs the logarithm of the rows and of what is resident, one that ends a group that for each that
    /// left, and a completed call what `journal_rules::complete` costs.
    pub fn take(&mut self, entry: &Entry, next: Option<Entry>) -> Result<bool, NoMemory>
        ensures { IfOk result (λ kept. (k : Told) → AreFactsOf self.old k → IsInPlace k entry.now
            → MatchBool kept (KeepsOwn k next entry.now × AreFactsOf self.new (told_after k entry.now)) (KeepsOwn k next entry.now → ⊥)) }
    {
        match *entry {
            Entry::Declared { decl } => self.take_declaration(decl),
            Entry::Sealed => Ok(self.take_seal()),
            Entry::Loaded { ident, name, .. } => self.take_load(ident, name),
            Entry::WrittenBack { ident, cause, cpu } => self.take_departure(
                ident, cause, cpu, next,
            ),
            Entry::Locked { ident, .. } => self.take_lock(ident),
            Entry::Unlocked { ident, .. } => Ok(self.take_unlock(ident)),
            Entry::Ran { thread, steps, .. } => self.take_steps(thread, steps),
            Entry::Ended { thread, .. } => self.take_fault(thread),
            Entry::Completed { thread, .. } => self.take_call(thread),
        }
    }

    // A declaration that fits.
    fn take_declaration(&mut self, decl: Decl) -> Result<bool, NoMemory>
        ensures { IfOk result (λ kept. (k : Told) → AreFactsOf self.old k → k.sealed ≡ false → (kept ≡ true) × AreFactsOf self.new (told_after k (entries.Declared decl))) }
    {
        self.flat.apply(&Event::Declare(decl))?;
        self.go_on(Due::Anything);
        Ok(true)
    }

    fn take_seal(&mut self) -> bool
        ensures { (k : Told) → AreFactsOf self.old k → (result ≡ true) × AreFactsOf self.new (told_after k entries.Sealed) }
    {
        self.sealed = true;
        self.go_on(Due::FirstLoad);
        true
    }

    // From here on nothing has left of a group, and that is due.
    fn go_on(&mut self, due: Due)
        ensures { (k : Told) → StandFor self.old k → k.before ≡ k.residents → k.left ≡ [] → due ≡ beginning_of k.due → AreFactsOf self.new k }
    {
        self.group.clear();
        self.due = due;
    }

    fn take_load(&mut self, ident: Ident, name: Name) -> Result<bool, NoMemory>
        ensures { IfOk result (λ kept. (k : Told) → AreFactsOf self.old k → k.sealed ≡ true
            → MatchBool kept (MayLoad k ident name × ((cpu : ℕ) → AreFactsOf self.new (told_after k (entries.Loaded ident name cpu)))) (MayLoad k ident name → ⊥)) }
    {
        if !self.has_made(ident.serial) {
            return Ok(false);
        }
        let may = self.tables.load(&self.flat, ident.serial, ident, name)?;
        self.loads = ident.serial.checked_add(1);
        self.go_on(Due::behind_load(ident.serial));
        Ok(may)
    }

    // Whether so many entries loaded something.
    fn has_made(&self, loads: u64) -> bool
        ensures { (k : Told) → AreFactsOf self.now k → (IsTrue result ↔ (loads ≡ k.loads)) }
    {
        match self.loads {
            Some(made) => made == loads,
            None => false,
        }
    }

    fn take_lock(&mut self, ident: Ident) -> Result<bool, NoMemory>
        ensures { IfOk result (λ kept. (k : Told) → AreFactsOf self.old k → k.sealed ≡ true
            → MatchBool kept (MayLock k ident × ((cpu : ℕ) → AreFactsOf self.new (told_after k (entries.Locked ident cpu)))) (MayLock k ident → ⊥)) }
    {
        let may = self.tables.lock(&self.flat, ident)?;
        self.go_on(Due::Anything);
        Ok(may)
    }

    fn take_unlock(&mut self, ident: Ident) -> bool
        ensures { (k : Told) → AreFactsOf self.old k → k.sealed ≡ true
            → MatchBool result (MayUnlock k ident × ((cpu : ℕ) → AreFactsOf self.new (told_after k (entries.Unlocked ident cpu)))) (MayUnlock k ident → ⊥) }
    {
        let may = self.tables.unlock(&self.flat, ident);
        self.go_on(Due::Anything);
        may
    }

    fn take_steps(&mut self, thread: ThreadNo, steps: u32) -> Result<bool, NoMemory>
        ensures { IfOk result (λ kept. (k : Told) → AreFactsOf self.old k → k.sealed ≡ true
            → MatchBool kept (MayRun k thread steps × ((cpu : ℕ) → AreFactsOf self.new (told_after k (entries.Ran thread steps cpu)))) (MayRun k thread steps → ⊥)) }
    {
        if steps == 0 {
            return Ok(false);
        }
        if !self.has(thread) {
            return Ok(false);
        }
        let ran = run(&mut self.flat, self.tables.residents(), thread, steps)?;
        self.go_on(Due::Anything);
        Ok(ran)
    }

    fn take_fault(&mut self, thread: ThreadNo) -> Result<bool, NoMemory>
        ensures { IfOk result (λ kept. (k : Told) → AreFactsOf self.old k → k.sealed ≡ true
            → MatchBool kept (MayEnd k thread × ((cpu : ℕ) → AreFactsOf self.new (told_after k (entries.Ended thread cpu)))) (MayEnd k thread → ⊥)) }
    {
        if !self.has(thread) {
            return Ok(false);
        }
        if !may_step(&self.flat, self.tables.residents(), thread, true) {
            return Ok(false);
        }
        self.flat.apply(&Event::Step(thread))?;
        self.go_on(Due::Anything);
        Ok(true)
    }

    fn take_call(&mut self, thread: ThreadNo) -> Result<bool, NoMemory>
        ensures { IfOk result (λ kept. (k : Told) → AreFactsOf self.old k → k.sealed ≡ true
            → MatchBool kept (MayComplete k thread × ((cpu : ℕ) → AreFactsOf self.new (told_after k (entries.Completed thread cpu)))) (MayComplete k thread → ⊥)) }
    {
        if !self.has(thread) {
            return Ok(false);
        }
        let done = complete(
            self.alloc,
            &mut self.flat,
            self.tables.residents(),
            self.tables.relying(),
            thread,
        )?;
        self.go_on(Due::Anything);
        Ok(done)
    }

    // Whether the thread is resident.
    fn has(&self, thread: ThreadNo) -> bool
        ensures { (k : Told) → AreFactsOf self.now k → (IsTrue result ↔ IsNameResident k.residents (names.Thread thread)) }
    {
        self.tables.residents().is_named(Name::Thread(thread))
    }

    fn take_departure(
        &mut self,
        ident: Ident,
        cause: Cause,
        cpu: u32,
        next: Option<Entry>,
    ) -> Result<bool, NoMemory>
        ensures { IfOk result (λ kept. (k : Told) → AreFactsOf self.old k → k.sealed ≡ true
            → MatchBool kept ((MayLeave k ident cause × IsFollowed cause ident cpu next) × AreFactsOf self.new (told_after k (entries.WrittenBack ident cause cpu))) ((MayLeave k ident cause × IsFollowed cause ident cpu next) → ⊥)) }
    {
        if !is_followed(ident, cause, cpu, next) {
            return Ok(false);
        }
        let Some(held) = self.tables.leaver(ident) else {
            return Ok(false);
        };
        match cause {
            Cause::Dependent => self.leave_first(held),
            Cause::Unloaded => self.leave_last(held),
            Cause::Displaced => self.leave_for_another(held),
        }
    }

    // A dependent leaves, in a group that goes on.
    fn leave_first(&mut self, held: Held) -> Result<bool, NoMemory>
        ensures { IfOk result (λ kept. (k : Told) → AreFactsOf self.old k → k.sealed ≡ true → MayLeaveAs k held.ident held
            → (kept ≡ true) × ((cpu : ℕ) → AreFactsOf self.new (told_after k (entries.WrittenBack held.ident causes.Dependent cpu)))) }
    {
        self.tables.leave(&self.flat, held)?;
        self.group.push(&self.flat, held)?;
        self.due = Due::Anything;
        Ok(true)
    }

    // It leaves for another one, where it isn't locked and its cache was full, and ends its group.
    fn leave_for_another(&mut self, held: Held) -> Result<bool, NoMemory>
        ensures { IfOk result (λ kept. (k : Told) → AreFactsOf self.old k → k.sealed ≡ true → MayLeaveAs k held.ident held
            → MatchBool kept (LeavesBy causes.Displaced k (resident_of held) × AreFactsBehind self.new k held.ident) (LeavesBy causes.Displaced k (resident_of held) → ⊥)) }
    {
        if held.locked {
            return Ok(false);
        }
        if !self.was_full(held.ident.kind) {
            return Ok(false);
        }
        self.leave_last(held)
    }

    // It ends its group, where this is all that depends on it, and itself.
    fn leave_last(&mut self, held: Held) -> Result<bool, NoMemory>
        ensures { IfOk result (λ kept. (k : Told) → AreFactsOf self.old k → k.sealed ≡ true → MayLeaveAs k held.ident held
            → MatchBool kept (LeavesBy causes.Unloaded k (resident_of held) × AreFactsBehind self.new k held.ident) (LeavesBy causes.Unloaded k (resident_of held) → ⊥)) }
    {
        self.tables.leave(&self.flat, held)?;
        let whole = self.group.is_group(&self.flat, self.tables.residents());
        self.go_on(Due::Anything);
        Ok(whole)
    }

    // Whether the cache of a kind was full before the group that is leaving.
    fn was_full(&self, kind: Kind) -> bool
        ensures { (k : Told) → AreFactsOf self.now k → (IsTrue result ↔ IsFullBefore k kind) }
    {
        match cap(&self.flat, kind).checked_sub(self.tables.count(kind)) {
            Some(gone) => self.group.count(kind) == u64::from(gone),
            None => false,
        }
    }
}
