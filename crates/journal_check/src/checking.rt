//! The check of a whole journal.

ghost use Rattle.std.specs.Prelude.{◌≡◌, ◌++◌, List, IfOk};
ghost use Rattle.run_journal.specs.declared.entries.Entry.{Entry};
ghost use Rattle.run_journal.specs.Legal.{IsLegal};
ghost use Rattle.run_journal.specs.Points.{opening};
ghost use Rattle.journal_check.specs.Verdicts.{IsVerdict, IsYes, OnYes};

use crate::places::first_broken;
use flat_machine::{Decl, Flat, NoMemory};
use journal_facts::Facts;
use run_journal::Journal;
use scenario_reader::Scenario;
use std::alloc::Global;

/// What the check of a journal found.
#[derive(Drop)]
pub enum Verdict {
    /// The journal is legal and begins with the declarations and the seal. This is the machine with unlimited tables on what is
    /// left of it.
    Yes(Flat),
    /// `at` is the first place that breaks a rule, counted from 0, and `point` the number of the first rule that it breaks. What
    /// is missing at the end is missing at the place behind the last entry.
    No { at: u64, point: u32 },
}

// The check of a journal that is to begin with these declarations.
fn checked(alloc: Global, decls: &[Decl], journal: &Journal) -> Result<Verdict, NoMemory>
    ensures { IfOk result (IsVerdict decls.now journal.now.entries) }
{
    let mut facts = Facts::new(alloc);
    let end = journal.len();
    for at in 0..end {
        let (here, next) = (journal.get(at), journal.get(at + 1));
        if let Some(point) = first_broken(&mut facts, decls, at, here, next)? {
            return Ok(Verdict::No { at, point });
        }
    }
    match first_broken(&mut facts, decls, end, None, None)? {
        Some(point) => Ok(Verdict::No { at: end, point }),
        None => Ok(Verdict::Yes(facts.into_flat())),
    }
}

/// Whether the journal is legal and begins with the declarations of the scenario and the seal; if it isn't, the first place that
/// breaks a rule and the first rule there.
///
/// It goes once over the entries, and makes the machine of the journal with them: that costs what `journal_facts` takes for each,
/// and nothing that grows beside.
pub fn check(alloc: Global, scenario: &Scenario, journal: &Journal) -> Result<Verdict, NoMemory>
    // Each place keeps each rule, and this is the machine of what is left of the journal; or these are the first place that
    // breaks a rule and the first rule there.
    ensures meant { IfOk result (IsVerdict scenario.now journal.now.entries) }

    // A yes says that the journal is legal and begins so.
    ensures legal { IfOk result (λ v. OnYes v (IsLegal journal.now.entries × ((rest : List Entry) × (journal.now.entries ≡ opening scenario.now ++ rest)))) }

    // Each such journal gets a yes.
    ensures all { (rest : List Entry) → IsLegal journal.now.entries → journal.now.entries ≡ opening scenario.now ++ rest → IfOk result IsYes }
{
    checked(alloc, scenario.decls(), journal)
}
