//! The pairs of parent and child, in order of parent.

ghost use Rattle.std.specs.Prelude.{◌≡◌, ◌*◌, ◌<◌, ◌≤◌, length, [], ◌∷◌, remove, Contains, IfOk, IfSome, IfNone};
ghost use Rattle.sorted_list.specs.Sorted.{IsAdded, IsTakenOut};
ghost use Rattle.depend_lists.specs.Pairs.{children_of, count_of, parent_count, place_of, without, HasOneClass, IsAloneAt, IsChild, IsChildPair, IsProper, IsWithin};

use super::nodes::{self, MOST_PARENTS, Node};
use cache_ident::{Caps, Class, Ident, NoMemory};
use sorted_list::{Run, SortedList};
use std::alloc::Global;
use std::marker::Model;

/// What depends on what: pairs of a parent and a child.
///
/// A contract sees the capacities `caps` and the list `pairs`. All memory is taken by `new`: there is
/// room for five parents of each descriptor that the capacities allow.
#[derive(Drop)]
pub struct Depends {
    caps: Caps,
    // In order of parent, and under one parent in that of the children.
    pairs: SortedList<Ident, Node>,
    // Each pair from its other end: the child's identifier, its class and its parent.
    parents: SortedList<Ident, (Class, Ident)>,
}

impl Model for Depends {
    ghost use Rattle.depend_lists.specs.Pairs.{Dependence};

    ghost Value = { Dependence };

    ghost use Rattle.depend_lists.specs.Indexes.{IsSound};

    ghost view = { λ depends. record { caps = depends.caps; pairs = depends.pairs.entries } };

    ghost invariant = { λ depends. IsSound depends.caps depends.pairs depends.parents };
}

impl Depends {
    /// No pairs, with room for the children that the capacities allow. Where that is room for 2^32 pairs or more, there
    /// is no memory for them. None of the room is written, so the time doesn't grow with the capacities.
    pub fn new(alloc: Global, caps: Caps) -> Result<Depends, NoMemory>
        ensures { IfOk result (λ depends. depends ≡ record { caps = caps; pairs = [] }) }
    {
        let room = MOST_PARENTS * nodes::most_loaded(caps);
        Ok(Depends {
            caps,
            pairs: SortedList::new(alloc, room)?,
            parents: SortedList::new(alloc, room)?,
        })
    }

    /// How many pairs there are. Constant time.
    pub fn len(&self) -> usize
        ensures len { result ≡ length self.now.pairs }
        ensures few { length self.now.pairs ≤ MOST_PARENTS * count_of self.now.caps }
    {
        self.pairs.len()
    }

    /// From now on the child depends on the parent. It takes no memory, and a time logarithmic in the pairs.
    pub fn add(&mut self, parent: Ident, child: Node)
        requires absent { Contains self.old.pairs (parent, child) → ⊥ }
        requires class { HasOneClass self.old.pairs child }
        requires parents { parent_count self.old.pairs child.ident < MOST_PARENTS }
        requires within { IsWithin self.old.caps ((parent, child) ∷ self.old.pairs) }
        ensures caps { self.new.caps ≡ self.old.caps }
        ensures pairs { IsAdded self.old.pairs self.new.pairs (parent, child) }
    {
        self.pairs.insert(parent, child);
        self.parents.insert(child.ident, (child.class, parent));
    }

    /// Takes out every pair with that child and no other pair, at most five, each in the time of `add`.
    pub fn remove(&mut self, child: Ident)
        ensures { self.new ≡ record self.old { pairs = without self.old.pairs child } }
    {
        while let Some((parent, node)) = self.pair_of(child) {
            self.take(parent, node);
        }
    }

    /// All that depends on the parent over one pair, each once, in order. The call takes a time logarithmic in the
    /// pairs, and so does each child that is gone over; how many are left is known at once.
    pub fn children(&self, parent: Ident) -> Run<'_, Ident, Node>
        ensures children { result ≡ children_of self.now.pairs parent }
        ensures proper { IsProper self.now }
    {
        self.pairs.run(&parent)
    }

    /// A number for each child: how many pairs have a child before it in the order of identifiers. While the pairs
    /// stay it stays too, and no other child of a pair has it, so that it can index a table made once for the
    /// capacities. A time logarithmic in the pairs.
    pub fn place(&self, child: Ident) -> usize
        ensures place { result ≡ place_of self.now.pairs child }
        ensures within { IsChild self.now.pairs child → result < length self.now.pairs }
        ensures few { length self.now.pairs ≤ MOST_PARENTS * count_of self.now.caps }
        ensures alone { IsChild self.now.pairs child → IsAloneAt self.now.pairs child result }
    {
        self.parents.count_below(&child)
    }

    // A pair with that child.
    fn pair_of(&self, child: Ident) -> Option<(Ident, Node)>
        ensures some { IfSome result (IsChildPair self.now.pairs child) }
        ensures none { IfNone result (without self.now.pairs child ≡ self.now.pairs) }
    {
        let (class, parent) = self.parents.find(&child)?;
        Some((
            parent,
            Node {
                ident: child,
                class,
            },
        ))
    }

    // Takes out one pair.
    fn take(&mut self, parent: Ident, child: Node)
        requires { Contains self.old.pairs (parent, child) }
        ensures caps { self.new.caps ≡ self.old.caps }
        ensures pairs { IsTakenOut self.old.pairs self.new.pairs (parent, child) }
    {
        self.pairs.remove(parent, child);
        self.parents.remove(child.ident, (child.class, parent));
    }
}
