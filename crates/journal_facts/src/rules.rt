//! The rule that an entry is asked by.

ghost use Rattle.std.specs.Prelude.{◌≡◌, ◌≢◌, ◌↔◌, ◌<◌, List, Some};
ghost use Rattle.flat_state.specs.declared.events.Decl.{Decl};
ghost use Rattle.run_journal.specs.declared.entries.Entry.{Entry};
ghost use Rattle.run_journal.specs.Points.{Keeps, Place, Rule, number_of};
ghost use Rattle.journal_facts.specs.Rules.{KeepsOwn, rule_of};

use run_journal::Entry;

/// The number of the rule of an entry's kind.
pub fn number(entry: &Entry) -> u32
    ensures { result ≡ number_of (rule_of entry.now) }
{
    match *entry {
        Entry::Declared { .. } | Entry::Sealed => 1,
        Entry::Loaded { .. } => 2,
        Entry::WrittenBack { .. } => 3,
        Entry::Locked { .. } | Entry::Unlocked { .. } => 4,
        Entry::Ran { .. } => 5,
        Entry::Ended { .. } => 6,
        Entry::Completed { .. } => 7,
    }
}

/// A place keeps the rule of its entry's kind exactly where the entry does, if this is one of the rules of kinds; and it keeps
/// each other one of these. They are those from loads to calls.
pub fn each_rule_asks_its_kind()
    ensures own { (ds : List Decl) (p : Place) (e : Entry) → p.here ≡ Some e → 1 < number_of (rule_of e) → Keeps (rule_of e) ds p ↔ KeepsOwn p.told p.next e }
    ensures other { (ds : List Decl) (p : Place) (e : Entry) (rule : Rule) → p.here ≡ Some e → 1 < number_of rule → number_of rule < 8 → rule ≢ rule_of e → Keeps rule ds p }
{}
