//! The values of entries one after another.

ghost use Rattle.std.specs.Prelude.{◌≡◌, length, Some, IfSome};
ghost use Rattle.std.specs.Iterator.{UpTo, YieldsFirst, item_count};
ghost use Rattle.std.specs.Iterator.SizeHint.{IsWithinCount};

use sorted_list::Run;
use std::marker::Model;

/// Goes over the values of entries, in order. A contract sees the list of those that are left.
///
/// Each takes a time logarithmic in the entries of the whole list.
#[derive(Drop)]
pub struct Values<'a, K: Copy, V: Copy> {
    // None where the list has no room, and so no entries.
    pub(crate) run: Option<Run<'a, K, V>>,
}

impl<'a, K: Copy, V: Copy> Model for Values<'a, K, V> {
    ghost use Rattle.std.specs.Prelude.{List};
    ghost use Rattle.growing_list.specs.Shown.{left_in};

    ghost Value = { List V };

    ghost view = { λ values. left_in values.run };
}

impl<'a, K: Copy, V: Copy> Iterator for Values<'a, K, V> {
    type Item = V;

    ghost next_gives = { YieldsFirst (λ left. left) };

    ghost remaining = { item_count (λ left. left) };

    fn next(&mut self) -> Option<V> {
        match &mut self.run {
            Some(run) => run.next(),
            None => None,
        }
    }

    /// How many values are left, as both bounds.
    fn size_hint(&self) -> (usize, Option<usize>)
        ensures lower { IsWithinCount result.0 (item_count (λ left. left) self.now) }
        ensures upper { IfSome result.1 (UpTo (item_count (λ left. left) self.now)) }
        ensures exact { result ≡ (length self.now, Some (length self.now)) }
    {
        let left = self.left();
        (left, Some(left))
    }
}

impl<'a, K: Copy, V: Copy> ExactSizeIterator for Values<'a, K, V> {
    fn len(&self) -> usize {
        self.left()
    }
}

impl<'a, K: Copy, V: Copy> Values<'a, K, V> {
    // How many values are left.
    fn left(&self) -> usize
        ensures { result ≡ length self.now }
    {
        match &self.run {
            Some(run) => run.len(),
            None => 0,
        }
    }
}
