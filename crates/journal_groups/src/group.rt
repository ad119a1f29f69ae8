//! What has left since a group began.

ghost use Rattle.std.specs.Prelude.{◌≡◌, ◌↔◌, ◌+◌, [], ◌∷◌, ◌++◌, List, Contains, IsTrue, OnOk, OnErr, count_by};
ghost use Rattle.cache_ident.specs.declared.idents.Ident.{Ident};
ghost use Rattle.cache_ident.specs.Residents.{Resident, without};
ghost use Rattle.residents.specs.flat_state.specs.State.{FlatState};
ghost use Rattle.residents.specs.flat_state.specs.WellFormed.{IsWellFormed};
ghost use Rattle.residents.specs.Tables.{AreThose, resident_of};
ghost use Rattle.residents.specs.run_journal.specs.Groups.{IsGroup};
ghost use Rattle.residents.specs.run_journal.specs.Legal.{AreGood, count_of, is_kind};
ghost use Rattle.journal_tables.specs.journal_laws.specs.Leaving.{AreApart, HaveOneEach};

use crate::gone::Gone;
use cache_ident::{Kind, NoMemory};
use journal_tables::Flat;
use journal_tables::rules::{class, has_parents};
use residents::{Held, Residents};
use std::alloc::Global;

/// The dependents that have left since a group began, in order.
///
/// A contract says of whatever was resident before the group and is resident still (`IsLeaving`) what a call makes of it. No
/// call goes over what is resident.
#[derive(Drop)]
pub struct Group {
    gone: Vec<Gone>,
    // Whether they left in the order of leaving.
    rising: bool,
}

impl Group {
    ghost use Rattle.journal_groups.specs.Leaving.{IsLeaving, IsBehindLast, LackOneEach};

    /// Nothing has left.
    pub fn new(alloc: Global) -> Group
        ensures { (s : FlatState) (rs : List Resident) → HaveOneEach rs → AreApart rs → AreGood s rs → IsLeaving result s rs rs [] }
    {
        Group {
            gone: Vec::new(alloc),
            rising: true,
        }
    }

    /// The group ends, and nothing has left of the next one.
    pub fn clear(&mut self)
        ensures { (s : FlatState) (rs : List Resident) → HaveOneEach rs → AreApart rs → AreGood s rs → IsLeaving self.new s rs rs [] }
    {
        self.gone.clear();
        self.rising = true;
    }

    /// A dependent has left, and what stays is whole. Where memory is wanted the group stays as it was. It costs the logarithm
    /// of the rows.
    pub fn push(&mut self, flat: &Flat, held: Held) -> Result<(), NoMemory>
        ensures ok { OnOk result ((before now : List Resident) (left : List Ident) → IsLeaving self.old flat.now before now left
            → Contains now (resident_of held) → AreGood flat.now (without held.ident now)
            → IsLeaving self.new flat.now before (without held.ident now) (left ++ held.ident ∷ [])) }
        ensures err { OnErr result ((s : FlatState) (before now : List Resident) (left : List Ident) → IsLeaving self.old s before now left → IsLeaving self.new s before now left) }
    {
        let gone = Gone {
            ident: held.ident,
            name: held.name,
            class: class(flat, held.name),
        };
        let rising = self.rising && self.is_behind_last(&gone);
        self.gone.push(gone)?;
        self.rising = rising;
        Ok(())
    }

    // Whether one leaves behind the one that left last, if something has left.
    fn is_behind_last(&self, gone: &Gone) -> bool
        ensures { IsTrue result ↔ IsBehindLast self.now.gone.items gone.now }
    {
        match self.gone.last() {
            Some(last) => last.leaves_before(gone),
            None => true,
        }
    }

    /// How many of a kind have left. It costs a pass over those that left.
    pub fn count(&self, kind: Kind) -> u64
        ensures { (s : FlatState) (before now : List Resident) (left : List Ident) → IsLeaving self.now s before now left → count_of before kind ≡ count_of now kind + result }
    {
        of_kind(self.gone.as_slice(), kind) as u64
    }

    /// Whether those that left and then a root, which isn't resident any more either, are the group of the root: all that
    /// depends on it, in the order of leaving, and itself. It costs the logarithm of the rows and of what is resident for each
    /// that left.
    pub fn is_group(&self, flat: &Flat, residents: &Residents) -> bool
        ensures { (before now : List Resident) (left : List Ident) (root : Resident) → IsLeaving self.now flat.now before now left → IsWellFormed flat.now
            → Contains now root → AreThose residents.now (without root.ident now) → AreGood flat.now (without root.ident now)
            → (IsTrue result ↔ IsGroup flat.now before root (left ++ root.ident ∷ [])) }
    {
        self.rising && self.lack_one_each(flat, residents)
    }

    // Whether each of those that left lacks something that it depends on.
    fn lack_one_each(&self, flat: &Flat, residents: &Residents) -> bool
        ensures { (rs : List Resident) → AreThose residents.now rs → (IsTrue result ↔ LackOneEach flat.now rs self.now.gone.items) }
    {
        for gone in &self.gone {
            if has_parents(flat, residents, gone.name) {
                return false;
            }
        }
        true
    }
}

// How many of those that left are of a kind.
fn of_kind(all: &[Gone], kind: Kind) -> usize
    ensures { result ≡ count_by (λ gone. is_kind gone.ident.kind kind) all.now }
{
    all.iter().filter(|gone| gone.ident.kind == kind).count()
}
