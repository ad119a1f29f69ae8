//! The values of entries that stand in a row.

ghost use Rattle.std.specs.Prelude.{◌≡◌, ◌≤◌, length, map, slice_range, Some, IfSome};
ghost use Rattle.std.specs.Iterator.{UpTo, YieldsFirst, item_count};
ghost use Rattle.std.specs.Iterator.SizeHint.{IsWithinCount};

use super::fixed::FixedList;
use std::marker::Model;

/// Goes over the values of entries, in order. A contract sees the list of those that are left.
///
/// Each takes a time logarithmic in the entries of the whole list.
#[derive(Drop)]
pub struct Run<'a, K: Copy, V: Copy> {
    list: &'a FixedList<(K, V)>,
    next: u32,
    end: u32,
}

impl<'a, K: Copy, V: Copy> Model for Run<'a, K, V> {
    ghost use Rattle.std.specs.Prelude.{◌≤◌, List, length, map, slice_range};

    ghost Value = { List V };

    ghost view = { λ run. map (λ entry. entry.1) (slice_range run.list.now.items run.next run.end) };

    ghost invariant = { λ run. (run.next ≤ run.end) × (run.end ≤ length run.list.now.items) };
}

impl<'a, K: Copy, V: Copy> Run<'a, K, V> {
    pub(crate) fn new(list: &'a FixedList<(K, V)>, next: u32, end: u32) -> Run<'a, K, V>
        requires order { next ≤ end }
        requires within { end ≤ length list.now.items }
        ensures { result ≡ map (λ entry. entry.1) (slice_range list.now.items next end) }
    {
        Run { list, next, end }
    }
}

impl<'a, K: Copy, V: Copy> Iterator for Run<'a, K, V> {
    type Item = V;

    ghost next_gives = { YieldsFirst (λ left. left) };

    ghost remaining = { item_count (λ left. left) };

    fn next(&mut self) -> Option<V> {
        if self.next < self.end {
            let (_, value) = self.list.get(self.next)?;
            self.next += 1;
            Some(value)
        } else {
            None
        }
    }

    /// How many values are left, as both bounds.
    fn size_hint(&self) -> (usize, Option<usize>)
        ensures lower { IsWithinCount result.0 (item_count (λ left. left) self.now) }
        ensures upper { IfSome result.1 (UpTo (item_count (λ left. left) self.now)) }
        ensures exact { result ≡ (length self.now, Some (length self.now)) }
    {
        let left = (self.end - self.next) as usize;
        (left, Some(left))
    }
}

impl<'a, K: Copy, V: Copy> ExactSizeIterator for Run<'a, K, V> {
    fn len(&self) -> usize {
        (self.end - self.next) as usize
    }
}
