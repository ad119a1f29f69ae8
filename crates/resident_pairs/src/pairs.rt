//! The pairs of a parent and a child among what is resident.

ghost use Rattle.std.specs.Prelude.{◌≡◌, ◌≢◌, ◌+◌, ◌≤◌, [], false, List, AllPairs, Contains, IfOk, length, map, slice_get};
ghost use Rattle.cache_ident.specs.Residents.{Resident, with_loaded, without as without_resident};
ghost use Rattle.cache_ident.specs.declared.names.Name.{Name};
ghost use Rattle.depend_lists.specs.Pairs.{without, IsChild};
ghost use Rattle.depend_lists.specs.declared.nodes.TheConstants.{MOST_PARENTS};
ghost use Rattle.writeback_order.specs.Order.{IsOrder};
ghost use Rattle.journal_laws.specs.flat_state.specs.State.{FlatState};
ghost use Rattle.journal_laws.specs.run_journal.specs.Groups.{ArePairsOf, IsGroup, NothingDependsOn, node_of};
ghost use Rattle.journal_laws.specs.Leaving.{HaveOneEach};
ghost use Rattle.resident_pairs.specs.Among.{AreParents, HasAlso, HasRoomFor};

use cache_ident::{Caps, Ident, NoMemory};
use depend_lists::{Depends, Node};
use std::alloc::Global;
use std::marker::Model;
use writeback_order::{Scratch, order};

/// What depends on what among what is resident, and the last order in which some of it was to leave.
///
/// A contract sees the capacities `caps`, the `pairs` of a parent and a child, and the `order`. It says of whatever list of
/// residents has these pairs (`ArePairsOf`) which list has them after a call. All memory is taken by `new`.
#[derive(Drop)]
pub struct ResidentPairs {
    depends: Depends,
    scratch: Scratch,
}

impl Model for ResidentPairs {
    ghost use Rattle.std.specs.Prelude.{◌≡◌};
    ghost use Rattle.resident_pairs.specs.Among.{Among};

    ghost Value = { Among };

    ghost view = { λ all. record { caps = all.depends.caps; pairs = all.depends.pairs; order = all.scratch.nodes } };

    ghost invariant = { λ all. all.scratch.caps ≡ all.depends.caps };
}

impl ResidentPairs {
    /// No pairs, with room for what the capacities allow.
    pub fn new(alloc: Global, caps: Caps) -> Result<ResidentPairs, NoMemory>
        ensures { IfOk result (λ all. all ≡ record { caps = caps; pairs = []; order = [] }) }
    {
        Ok(ResidentPairs {
            depends: Depends::new(alloc, caps)?,
            scratch: Scratch::new(alloc, caps)?,
        })
    }

    /// From now on the child, which depended on nothing, depends on these parents. It takes a time logarithmic in the pairs
    /// for each of them.
    pub fn load(&mut self, child: Node, parents: &[Ident])
        requires new { IsChild self.old.pairs child.ident → ⊥ }
        requires apart { AllPairs ◌≢◌ parents.now }
        requires few { length parents.now ≤ MOST_PARENTS }
        requires room { HasRoomFor self.old.caps self.old.pairs child }
        ensures caps { self.new.caps ≡ self.old.caps }
        ensures pairs { HasAlso self.old.pairs self.new.pairs child parents.now }
        ensures few { length self.new.pairs ≤ length self.old.pairs + length parents.now }
        ensures resident { (s : FlatState) (rs : List Resident) (name : Name) → ArePairsOf s rs self.old.pairs → child ≡ node_of s (record { ident = child.ident; name = name; locked = false }) → AreParents s rs name parents.now → NothingDependsOn s (with_loaded child.ident name rs) name → ArePairsOf s (with_loaded child.ident name rs) self.new.pairs }
    {
        for parent in parents {
            self.depends.add(*parent, child);
        }
    }

    /// From now on the child, on which nothing depends, depends on nothing. It takes a time logarithmic in the pairs for
    /// each of its parents.
    pub fn leave(&mut self, child: Ident)
        ensures pairs { self.new ≡ record self.old { pairs = without self.old.pairs child } }
        ensures resident { (s : FlatState) (rs : List Resident) (r : Resident) → HaveOneEach rs → Contains rs r → r.ident ≡ child → NothingDependsOn s rs r.name → ArePairsOf s rs self.old.pairs → ArePairsOf s (without_resident child rs) self.new.pairs }
    {
        self.depends.remove(child);
    }

    /// Puts the root, with all that depends on it, in the order in which they leave, the root last. It takes the time of
    /// `writeback_order::order`.
    pub fn order(&mut self, root: Node)
        ensures caps { self.new.caps ≡ self.old.caps }
        ensures pairs { self.new.pairs ≡ self.old.pairs }
        ensures order { IsOrder self.old.pairs root self.new.order }
        ensures group { (s : FlatState) (rs : List Resident) (last : Resident) → ArePairsOf s rs self.old.pairs → root ≡ node_of s last → IsGroup s rs last (map (λ node. node.ident) self.new.order) }
    {
        order(&self.depends, root, &mut self.scratch);
    }

    /// What stands at a place of the last order; `None` behind its end. Constant time.
    pub fn at(&self, place: usize) -> Option<Node>
        ensures { result ≡ slice_get self.now.order place }
    {
        self.scratch.nodes().get(place).copied()
    }
}
