//! The order in which a descriptor and all that depends on it leave.

ghost use Rattle.std.specs.Prelude.{◌≡◌, ◌↔◌, [], List, Contains, IfOk};
ghost use Rattle.cache_ident.specs.declared.idents.Ident.{Ident};
ghost use Rattle.depend_lists.specs.declared.nodes.Node.{Node};
ghost use Rattle.writeback_order.specs.Order.{rank_of, IsOrder};

use super::gathering::{gather, reach};
use cache_ident::{Caps, Ident, NoMemory};
use depend_lists::{Class, Depends, MOST_PARENTS, Node, most_loaded};
use std::alloc::Global;
use std::marker::Model;

/// Room for one order of what leaves, made once and used again.
///
/// A contract sees the capacities `caps` that it was made for, and the list `nodes` of the last order.
#[derive(Drop)]
pub struct Scratch {
    caps: Caps,
    nodes: Vec<Node>,
    // By its place, whether a child was gathered, so that nothing is gathered twice. None is set between two orders.
    // There are as many as there were pairs at an order, so that those that nothing needs are never written.
    marks: Vec<bool>,
}

impl Model for Scratch {
    ghost use Rattle.std.specs.Prelude.{◌*◌, ◌<◌, ◌≤◌, vec_capacity};
    ghost use Rattle.depend_lists.specs.Pairs.{count_of};
    ghost use Rattle.depend_lists.specs.declared.nodes.TheConstants.{MOST_PARENTS};
    ghost use Rattle.writeback_order.specs.Gathering.{IsClear};
    ghost use Rattle.writeback_order.specs.Scratches.{LastOrder};

    ghost Value = { LastOrder };

    ghost view = { λ scratch. record { caps = scratch.caps; nodes = scratch.nodes.items } };

    ghost invariant = { λ scratch. (count_of scratch.caps < vec_capacity scratch.nodes) × (MOST_PARENTS * count_of scratch.caps ≤ vec_capacity scratch.marks) × IsClear scratch.marks.items };
}

impl Scratch {
    /// Room for all that the capacities allow. None of it is written, so the time doesn't grow with them.
    pub fn new(alloc: Global, caps: Caps) -> Result<Scratch, NoMemory>
        ensures { IfOk result (λ scratch. scratch ≡ record { caps = caps; nodes = [] }) }
    {
        let most = most_loaded(caps);
        Ok(Scratch {
            caps,
            nodes: Vec::with_capacity(alloc, most + 1)?,
            marks: Vec::with_capacity(alloc, MOST_PARENTS * most)?,
        })
    }

    /// The last order, with its root last; empty where there was none.
    pub fn nodes(&self) -> &[Node]
        ensures { result.now ≡ self.now.nodes }
    {
        &self.nodes
    }
}

/// Puts the root and all that depends on it, over any number of pairs, in the order in which they leave: message
/// rows, signal rows, other rows, threads, spaces, kernels, within each of these classes by serial, and the root
/// last.
///
/// It takes no memory. It searches the pairs three times for each descriptor that leaves and once for each pair under
/// it, and sorts what leaves. What else is loaded costs no more than the length of a search, and a byte for each pair the
/// first time that there are so many.
pub fn order(depends: &Depends, root: Node, into: &mut Scratch)
    requires { into.old.caps ≡ depends.now.caps }
    ensures caps { into.new.caps ≡ into.old.caps }
    ensures order { IsOrder depends.now.pairs root into.new.nodes }
{
    reach(&mut into.marks, depends.len());
    gather(depends, root.ident, &mut into.nodes, &mut into.marks);
    into.nodes
        .sort_unstable_by_key(|node| (rank(node.class), node.ident.serial, node.ident));
    into.nodes.push_reserved(root);
}

// How many classes leave before.
fn rank(class: Class) -> u8
    ensures { result ≡ rank_of class }
{
    match class {
        Class::MessageRow => 0,
        Class::SignalRow => 1,
        Class::OtherRow => 2,
        Class::Thread => 3,
        Class::Space => 4,
        Class::Kernel => 5,
    }
}

/// From one root over the same pairs, in whatever order they are listed, there is one order.
pub fn one_order()
    ensures { (some others : List (Ident × Node)) (root : Node) (a b : List Node) → ((pair : Ident × Node) → Contains some pair ↔ Contains others pair) → IsOrder some root a → IsOrder others root b → a ≡ b }
{}
