//! Gathers what depends on a root.

ghost use Rattle.std.specs.Prelude.{◌≡◌, ◌≤◌, length, All, vec_len, vec_capacity};
ghost use Rattle.depend_lists.specs.Pairs.{count_of, IsChild, IsProper};
ghost use Rattle.writeback_order.specs.Order.{IsClosure};
ghost use Rattle.writeback_order.specs.Gathering.{HasChildrenOf, IsApart, IsClear, IsExtended, IsGathered, IsMarked, IsUnder};

use cache_ident::Ident;
use depend_lists::{Depends, Node};

/// Makes the marks so many, where they are fewer; there is room for them. No mark is set.
pub(crate) fn reach(marks: &mut Vec<bool>, count: usize)
    requires room { count ≤ vec_capacity marks.old }
    requires unmarked { IsClear marks.old.items }
    ensures unmarked { IsClear marks.new.items }
    ensures enough { count ≤ vec_len marks.new }
    ensures capacity { vec_capacity marks.new ≡ vec_capacity marks.old }
{
    while marks.len() < count {
        marks.push_reserved(false);
    }
}

/// Puts all that depends on the root into `nodes`, each once. The marks tell by the places of the children which of
/// them are there already; in the end none is set again.
pub(crate) fn gather(depends: &Depends, root: Ident, nodes: &mut Vec<Node>, marks: &mut [bool])
    requires room { count_of depends.now.caps ≤ vec_capacity nodes.old }
    requires unmarked { IsClear marks.old }
    requires places { length depends.now.pairs ≤ length marks.old }
    ensures closure { IsClosure depends.now.pairs root nodes.new.items }
    ensures apart { IsApart nodes.new.items }
    ensures few { vec_len nodes.new ≤ count_of depends.now.caps }
    ensures capacity { vec_capacity nodes.new ≡ vec_capacity nodes.old }
    ensures unmarked { IsClear marks.new }
{
    nodes.clear();
    gather_children(depends, root, root, nodes, marks);
    let mut next = 0;
    while next < nodes.len() {
        let parent = nodes[next].ident;
        gather_children(depends, root, parent, nodes, marks);
        next += 1;
    }
    unmark(depends, nodes, marks);
}

// Adds the children of the parent that aren't there yet, and marks them.
fn gather_children(
    depends: &Depends,
    root: Ident,
    parent: Ident,
    nodes: &mut Vec<Node>,
    marks: &mut [bool],
)
    requires gathered { IsGathered depends.now.pairs root nodes.old.items }
    requires marked { IsMarked depends.now.pairs nodes.old.items marks.old }
    requires under { IsUnder depends.now.pairs root parent }
    requires room { count_of depends.now.caps ≤ vec_capacity nodes.old }
    requires places { length depends.now.pairs ≤ length marks.old }
    ensures proper { IsProper depends.now }
    ensures gathered { IsGathered depends.now.pairs root nodes.new.items }
    ensures marked { IsMarked depends.now.pairs nodes.new.items marks.new }
    ensures extended { IsExtended nodes.old.items nodes.new.items }
    ensures children { HasChildrenOf depends.now.pairs root parent nodes.new.items }
    ensures few { vec_len nodes.new ≤ count_of depends.now.caps }
    ensures capacity { vec_capacity nodes.new ≡ vec_capacity nodes.old }
{
    for child in depends.children(parent) {
        let place = depends.place(child.ident);
        if child.ident != root && !marks[place] {
            marks[place] = true;
            nodes.push_reserved(child);
        }
    }
}

// Takes the marks of the nodes away, so that the time is that of what was gathered and not of all marks.
fn unmark(depends: &Depends, nodes: &[Node], marks: &mut [bool])
    requires children { All (λ node. IsChild depends.now.pairs node.ident) nodes.now }
    requires marked { IsMarked depends.now.pairs nodes.now marks.old }
    requires places { length depends.now.pairs ≤ length marks.old }
    ensures { IsClear marks.new }
{
    for node in nodes {
        marks[depends.place(node.ident)] = false;
    }
}
