//! The rules of a journal, at one place of it.

ghost use Rattle.std.specs.Prelude.{◌≡◌, ◌↔◌, ◌<◌, List, ℕ, IsTrue, IfOk, MatchOption, Some, length, slice_get};
ghost use Rattle.flat_machine.specs.flat_state.specs.declared.events.Decl.{Decl};
ghost use Rattle.run_journal.specs.declared.entries.Entry.TheVariants as entries;
ghost use Rattle.run_journal.specs.Entries.{maker_of};
ghost use Rattle.run_journal.specs.Points.{opening, Beginning, Order, Keeps};
ghost use Rattle.run_journal.specs.Told.{Told, told_after};
ghost use Rattle.journal_facts.specs.Facts.{AreFactsOf};
ghost use Rattle.journal_check.specs.Places.{place, AreFactsAfter, KeepsEach, BreaksFirst};

use flat_machine::{Decl, NoMemory};
use journal_facts::{Facts, number};
use run_journal::Entry;

// The numbers of the rules that are asked of each entry. Between them stand those of one kind of entries.
const BEGINNING: u32 = 0;

const ORDER: u32 = 1;

const PROCESSORS: u32 = 8;

/// How many processors there are.
const MOST_PROCESSORS: u32 = 8;

fn is_declared(decl: &Decl, here: Option<Entry>) -> bool
    ensures { IsTrue result ↔ (here ≡ Some (entries.Declared decl.now)) }
{
    match here {
        Some(Entry::Declared { decl: found }) => found == *decl,
        _ => false,
    }
}

fn is_sealed(here: Option<Entry>) -> bool
    ensures { IsTrue result ↔ (here ≡ Some entries.Sealed) }
{
    matches!(here, Some(Entry::Sealed))
}

// Whether a journal begins as it has to, as far as the place goes: with the declarations, and then the seal.
fn begins(decls: &[Decl], at: u64, here: Option<Entry>) -> bool
    ensures { IsTrue result ↔ (at < length (opening decls.now) → here ≡ slice_get (opening decls.now) at) }
{
    match decls.get(at as usize) {
        Some(decl) => is_declared(decl, here),
        None if at > decls.len() as u64 => true,
        None => is_sealed(here),
    }
}

// The processor that made an entry.
fn maker(entry: &Entry) -> u32
    ensures { result ≡ maker_of entry.now }
{
    match *entry {
        Entry::Declared { .. } | Entry::Sealed => 0,
        Entry::Loaded { cpu, .. }
        | Entry::WrittenBack { cpu, .. }
        | Entry::Locked { cpu, .. }
        | Entry::Unlocked { cpu, .. }
        | Entry::Ran { cpu, .. }
        | Entry::Ended { cpu, .. }
        | Entry::Completed { cpu, .. } => cpu,
    }
}

/// The number of the first rule that a place breaks, where that entry stands there and that one behind it, if there are any. Where
/// it breaks none, the facts are of what is told with its entry.
pub(crate) fn first_broken(
    facts: &mut Facts,
    decls: &[Decl],
    at: u64,
    here: Option<Entry>,
    next: Option<Entry>,
) -> Result<Option<u32>, NoMemory>
    ensures { IfOk result (λ broken. (k : Told) → AreFactsOf facts.old k
        → MatchOption broken (KeepsEach decls.now (place at k here next) × AreFactsAfter facts.new k here) (λ number. BreaksFirst decls.now (place at k here next) number)) }
{
    if !begins(decls, at, here) {
        return Ok(Some(BEGINNING));
    }
    if !facts.is_in_order(here) {
        return Ok(Some(ORDER));
    }
    match here {
        None => Ok(None),
        Some(entry) => first_broken_by(facts, &entry, next),
    }
}

// The same of an entry, where its place keeps the rules on beginning and order.
fn first_broken_by(
    facts: &mut Facts,
    entry: &Entry,
    next: Option<Entry>,
) -> Result<Option<u32>, NoMemory>
    ensures { IfOk result (λ broken. (k : Told) → AreFactsOf facts.old k → (ds : List Decl) (at : ℕ) → Keeps Beginning ds (place at k (Some entry.now) next) → Keeps Order ds (place at k (Some entry.now) next)
        → MatchOption broken (KeepsEach ds (place at k (Some entry.now) next) × AreFactsOf facts.new (told_after k entry.now)) (λ number. BreaksFirst ds (place at k (Some entry.now) next) number)) }
{
    if !facts.take(entry, next)? {
        return Ok(Some(number(entry)));
    }
    if maker(entry) < MOST_PROCESSORS {
        Ok(None)
    } else {
        Ok(Some(PROCESSORS))
    }
}
