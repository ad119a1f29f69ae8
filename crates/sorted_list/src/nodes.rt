//! A balanced tree whose nodes lie in a table.
//!
//! A node is named by its seat in the table, and a branch is a tree with its uppermost node's seat and the number of its
//! nodes. Since each node has two branches, places in the list are found on the way down. The functions here take a
//! branch, change the tree, and answer the branch that it is then.

ghost use Rattle.std.specs.Prelude.{◌≡◌, ◌≢◌, ◌⊎◌, ◌+◌, ◌<◌, ◌≤◌, ◌^◌, length, insert, remove, slice_get, slice_set, Some, IsTrue};
ghost use Rattle.sorted_list.specs.Trees.{Becomes, HasSeat, IsAlone, IsItemAt, Joins, Keeps, Stands, Tree, Tree.fork, items_of};

/// A tree: where its uppermost node lies, and how many nodes it has. Where it has none, the seat tells nothing.
#[derive(Clone, Copy)]
pub(crate) struct Branch {
    pub(crate) seat: u32,
    pub(crate) count: u32,
}

/// The tree with no node.
pub(crate) const EMPTY: Branch = Branch { seat: 0, count: 0 };

/// An item between what is before it and what is behind it.
#[derive(Clone, Copy)]
pub(crate) struct Node<T> {
    pub(crate) item: T,
    pub(crate) before: Branch,
    pub(crate) behind: Branch,
}

/// The seat of the node that has the item of that place.
pub(crate) fn seat_at<T: Copy>(nodes: &[Node<T>], branch: Branch, place: u32) -> u32
    requires { (tree : Tree T) × Stands nodes.now branch tree × (place < length (items_of tree)) }
    ensures { (tree : Tree T) → Stands nodes.now branch tree → IsItemAt nodes.now result tree place }
{
    let node = node_at(nodes, branch.seat);
    let before = node.before.count;
    if place < before {
        seat_at(nodes, node.before, place)
    } else if place > before {
        seat_at(nodes, node.behind, place - before - 1)
    } else {
        branch.seat
    }
}

/// Brings a node into the tree, at the place. It is written down alone, at a seat that is in no tree.
pub(crate) fn insert<T: Copy>(
    nodes: &mut [Node<T>],
    branch: Branch,
    place: u32,
    seat: u32,
) -> Branch
    requires alone { (item : T) × IsAlone nodes.old seat item }
    requires tree { (tree : Tree T) × Stands nodes.old branch tree × (HasSeat tree seat → ⊥) × (place ≤ length (items_of tree)) }
    requires few { branch.count + 1 < 2 ^ 32 }
    ensures inserted { (tree : Tree T) (item : T) → Stands nodes.old branch tree → IsAlone nodes.old seat item → (HasSeat tree seat → ⊥) → Becomes nodes.old nodes.new result (insert (items_of tree) place item) (λ own. (own ≡ seat) ⊎ HasSeat tree own) }
    ensures count { result.count ≡ branch.count + 1 }
{
    if branch.count == 0 {
        return Branch { seat, count: 1 };
    }
    let node = node_at(nodes, branch.seat);
    let before = node.before.count;
    if place <= before {
        let wider = insert(nodes, node.before, place, seat);
        balanced(nodes, branch.seat, wider, node.behind)
    } else {
        let wider = insert(nodes, node.behind, place - before - 1, seat);
        balanced(nodes, branch.seat, node.before, wider)
    }
}

/// Takes out the node with the item of that place. Answers its seat, where the item still is, and what is left.
pub(crate) fn remove<T: Copy>(nodes: &mut [Node<T>], branch: Branch, place: u32) -> (u32, Branch)
    requires { (tree : Tree T) × Stands nodes.old branch tree × (place < length (items_of tree)) }
    ensures gone { (tree : Tree T) → Stands nodes.old branch tree → IsItemAt nodes.old result.0 tree place }
    ensures left { (tree : Tree T) → Stands nodes.old branch tree → Becomes nodes.old nodes.new result.1 (remove (items_of tree) place) (λ own. HasSeat tree own × (own ≢ result.0)) }
    ensures count { result.1.count + 1 ≡ branch.count }
{
    let node = node_at(nodes, branch.seat);
    let before = node.before.count;
    if place < before {
        let (gone, left) = remove(nodes, node.before, place);
        (gone, balanced(nodes, branch.seat, left, node.behind))
    } else if place > before {
        let (gone, left) = remove(nodes, node.behind, place - before - 1);
        (gone, balanced(nodes, branch.seat, node.before, left))
    } else if node.behind.count == 0 {
        (branch.seat, node.before)
    } else {
        let (next, left) = remove(nodes, node.behind, 0);
        (branch.seat, balanced(nodes, next, node.before, left))
    }
}

// Writes down the branches of the node at a seat. Where one is too heavy for the other, a node of it comes up over this one.
fn balanced<T: Copy>(nodes: &mut [Node<T>], seat: u32, before: Branch, behind: Branch) -> Branch
    requires sides { (node : Node T) × (first second : Tree T) × (slice_get nodes.old seat ≡ Some node) × Joins nodes.old seat (record { item = node.item; before = before; behind = behind }) first second }
    requires few { before.count + behind.count + 1 < 2 ^ 32 }
    ensures kept { (node : Node T) (first second : Tree T) → slice_get nodes.old seat ≡ Some node → Joins nodes.old seat (record { item = node.item; before = before; behind = behind }) first second → Keeps nodes.old nodes.new result (fork seat first node.item second) }
    ensures count { result.count ≡ before.count + behind.count + 1 }
{
    let item = node_at(nodes, seat).item;
    let node = Node {
        item,
        before,
        behind,
    };
    if is_too_heavy(before, behind) {
        raise_before(nodes, seat, node)
    } else if is_too_heavy(behind, before) {
        raise_behind(nodes, seat, node)
    } else {
        set_branches(nodes, seat, before, behind);
        Branch {
            seat,
            count: before.count + behind.count + 1,
        }
    }
}

// Gives the node at a seat other branches, and leaves its item where it lies.
fn set_branches<T: Copy>(nodes: &mut [Node<T>], seat: u32, before: Branch, behind: Branch)
    requires { seat < length nodes.old }
    ensures { (node : Node T) → slice_get nodes.old seat ≡ Some node → nodes.new ≡ slice_set nodes.old seat (record { item = node.item; before = before; behind = behind }) }
{
    let node = &mut nodes[seat as usize];
    node.before = before;
    node.behind = behind;
}

// Whether a side has so many more nodes than the other that one of them is to come up.
fn is_too_heavy(side: Branch, other: Branch) -> bool
    ensures { IsTrue result → 0 < side.count }
{
    weight(side) > 3 * weight(other)
}

// Whether the inner of the branches of a heavy side is so large that a node of it comes up first.
fn is_inner_heavy(inner: Branch, outer: Branch) -> bool
    ensures { IsTrue result → 0 < inner.count }
{
    weight(inner) >= 2 * weight(outer)
}

// One more than the nodes of a branch.
fn weight(branch: Branch) -> u64
    ensures { result ≡ branch.count + 1 }
{
    u64::from(branch.count) + 1
}

// Writes a node down below one of what is before it.
fn raise_before<T: Copy>(nodes: &mut [Node<T>], seat: u32, mut node: Node<T>) -> Branch
    requires seat { seat < length nodes.old }
    requires sides { (before behind : Tree T) × Joins nodes.old seat node before behind }
    requires few { node.before.count + node.behind.count + 1 < 2 ^ 32 }
    requires some { 0 < node.before.count }
    ensures kept { (before behind : Tree T) → Joins nodes.old seat node before behind → Keeps nodes.old nodes.new result (fork seat before node.item behind) }
    ensures count { result.count ≡ node.before.count + node.behind.count + 1 }
{
    let up = node_at(nodes, node.before.seat);
    if is_inner_heavy(up.behind, up.before) {
        node.before = turn_behind(nodes, node.before.seat, up);
        turn_before(nodes, seat, node)
    } else {
        turn_before(nodes, seat, node)
    }
}

// Writes a node down below one of what is behind it.
fn raise_behind<T: Copy>(nodes: &mut [Node<T>], seat: u32, mut node: Node<T>) -> Branch
    requires seat { seat < length nodes.old }
    requires sides { (before behind : Tree T) × Joins nodes.old seat node before behind }
    requires few { node.before.count + node.behind.count + 1 < 2 ^ 32 }
    requires some { 0 < node.behind.count }
    ensures kept { (before behind : Tree T) → Joins nodes.old seat node before behind → Keeps nodes.old nodes.new result (fork seat before node.item behind) }
    ensures count { result.count ≡ node.before.count + node.behind.count + 1 }
{
    let up = node_at(nodes, node.behind.seat);
    if is_inner_heavy(up.before, up.behind) {
        node.behind = turn_before(nodes, node.behind.seat, up);
        turn_behind(nodes, seat, node)
    } else {
        turn_behind(nodes, seat, node)
    }
}

// Writes a node down below the uppermost one of what is before it.
fn turn_before<T: Copy>(nodes: &mut [Node<T>], seat: u32, mut node: Node<T>) -> Branch
    requires seat { seat < length nodes.old }
    requires sides { (before behind : Tree T) × Joins nodes.old seat node before behind }
    requires few { node.before.count + node.behind.count + 1 < 2 ^ 32 }
    requires some { 0 < node.before.count }
    ensures kept { (before behind : Tree T) → Joins nodes.old seat node before behind → Keeps nodes.old nodes.new result (fork seat before node.item behind) }
    ensures count { result.count ≡ node.before.count + node.behind.count + 1 }
{
    let top = node.before.seat;
    let mut up = node_at(nodes, top);
    node.before = up.behind;
    up.behind = put(nodes, seat, node);
    put(nodes, top, up)
}

// Writes a node down below the uppermost one of what is behind it.
fn turn_behind<T: Copy>(nodes: &mut [Node<T>], seat: u32, mut node: Node<T>) -> Branch
    requires seat { seat < length nodes.old }
    requires sides { (before behind : Tree T) × Joins nodes.old seat node before behind }
    requires few { node.before.count + node.behind.count + 1 < 2 ^ 32 }
    requires some { 0 < node.behind.count }
    ensures kept { (before behind : Tree T) → Joins nodes.old seat node before behind → Keeps nodes.old nodes.new result (fork seat before node.item behind) }
    ensures count { result.count ≡ node.before.count + node.behind.count + 1 }
{
    let top = node.behind.seat;
    let mut up = node_at(nodes, top);
    node.behind = up.before;
    up.before = put(nodes, seat, node);
    put(nodes, top, up)
}

// Writes a node down at its seat.
fn put<T: Copy>(nodes: &mut [Node<T>], seat: u32, node: Node<T>) -> Branch
    requires seat { seat < length nodes.old }
    requires few { node.before.count + node.behind.count + 1 < 2 ^ 32 }
    ensures kept { (before behind : Tree T) → Joins nodes.old seat node before behind → Keeps nodes.old nodes.new result (fork seat before node.item behind) }
    ensures count { result.count ≡ node.before.count + node.behind.count + 1 }
{
    nodes[seat as usize] = node;
    Branch {
        seat,
        count: node.before.count + node.behind.count + 1,
    }
}

// The node that is written down at a seat.
pub(crate) fn node_at<T: Copy>(nodes: &[Node<T>], seat: u32) -> Node<T>
    requires { seat < length nodes.now }
    ensures { slice_get nodes.now seat ≡ Some result }
{
    nodes[seat as usize]
}
