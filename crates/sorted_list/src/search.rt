//! The way down a tree to where something comes.

ghost use Rattle.std.specs.Prelude.{◌≡◌, ◌≤◌, Bool, true, AllPairs, count_by, slice_get};
ghost use Rattle.std.specs.Option.{option_copied};
ghost use Rattle.std.specs.Ordering.{is_le, is_lt};
ghost use Rattle.sorted_list.specs.Sorted.{by_parts};
ghost use Rattle.sorted_list.specs.Trees.{Stands, Tree, items_of};

use super::nodes::{Branch, Node};
use std::cmp::Ordering;

/// A place between items, which an item is before or behind.
pub(crate) trait Cut<T> {
    ghost is_behind_of: { Self → T → Bool };

    /// Whether the place is behind the item.
    fn is_behind(&self, item: &T) -> bool
        ensures { result ≡ is_behind_of self.now item.now };
}

/// Before the entry itself.
#[derive(Drop)]
pub(crate) struct AtEntry<'a, K, V>(pub(crate) &'a K, pub(crate) &'a V);

/// Before all entries with the key.
#[derive(Drop)]
pub(crate) struct AtKey<'a, K>(pub(crate) &'a K);

/// Behind all entries with the key.
#[derive(Drop)]
pub(crate) struct BehindKey<'a, K>(pub(crate) &'a K);

impl<'a, K: Ord, V: Ord> Cut<(K, V)> for AtEntry<'a, K, V> {
    ghost is_behind_of = { λ cut entry. is_lt (by_parts K.cmp V.cmp entry (cut.0.now, cut.1.now)) };

    fn is_behind(&self, item: &(K, V)) -> bool {
        match item.0.cmp(self.0) {
            Ordering::Less => true,
            Ordering::Equal => item.1.cmp(self.1).is_lt(),
            Ordering::Greater => false,
        }
    }
}

impl<'a, K: Ord, V> Cut<(K, V)> for AtKey<'a, K> {
    ghost is_behind_of = { λ cut entry. is_lt (K.cmp entry.0 cut.0.now) };

    fn is_behind(&self, item: &(K, V)) -> bool {
        item.0.cmp(self.0).is_lt()
    }
}

impl<'a, K: Ord, V> Cut<(K, V)> for BehindKey<'a, K> {
    ghost is_behind_of = { λ cut entry. is_le (K.cmp entry.0 cut.0.now) };

    fn is_behind(&self, item: &(K, V)) -> bool {
        item.0.cmp(self.0).is_le()
    }
}

/// How many items the place is behind.
pub(crate) fn count_before<T: Copy, C: Cut<T>>(nodes: &[Node<T>], branch: Branch, cut: &C) -> u32
    requires { (tree : Tree T) × Stands nodes.now branch tree }
    ensures found { (tree : Tree T) → Stands nodes.now branch tree → AllPairs (λ a b. C.is_behind_of cut.now b ≡ true → C.is_behind_of cut.now a ≡ true) (items_of tree) → result ≡ count_by (C.is_behind_of cut.now) (items_of tree) }
    ensures few { result ≤ branch.count }
{
    let mut left = branch;
    let mut passed = 0;
    while left.count > 0 {
        let node = &nodes[left.seat as usize];
        if cut.is_behind(&node.item) {
            passed += node.before.count + 1;
            left = node.behind;
        } else {
            left = node.before;
        }
    }
    passed
}

/// The first item that the place is not behind; `None` where it is behind all.
pub(crate) fn first_from<'a, T: Copy, C: Cut<T>>(
    nodes: &'a [Node<T>],
    branch: Branch,
    cut: &C,
) -> Option<&'a T>
    requires { (tree : Tree T) × Stands nodes.now branch tree }
    ensures { (tree : Tree T) → Stands nodes.now branch tree → AllPairs (λ a b. C.is_behind_of cut.now b ≡ true → C.is_behind_of cut.now a ≡ true) (items_of tree) → option_copied result ≡ slice_get (items_of tree) (count_by (C.is_behind_of cut.now) (items_of tree)) }
{
    let mut left = branch;
    let mut found = None;
    while left.count > 0 {
        let node = &nodes[left.seat as usize];
        if cut.is_behind(&node.item) {
            left = node.behind;
        } else {
            found = Some(&node.item);
            left = node.before;
        }
    }
    found
}
