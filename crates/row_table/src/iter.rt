//! The rows one after another.

ghost use Rattle.std.specs.Prelude.{◌≡◌, length, Some, IfSome};
ghost use Rattle.std.specs.Iterator.{UpTo, YieldsFirstRef, item_count};
ghost use Rattle.std.specs.Iterator.SizeHint.{IsWithinCount};

use phys_groups::Row;
use std::collections::btree_map::Values;
use std::marker::Model;

/// Goes over rows in declared order. A contract sees the list of those that are left.
///
/// The whole way costs a time linear in the rows, and takes no memory.
#[derive(Drop)]
pub struct Rows<'a> {
    rows: Values<'a, u64, Row>,
}

impl<'a> Model for Rows<'a> {
    ghost use Rattle.std.specs.Prelude.{List};
    ghost use Rattle.phys_groups.specs.declared.rows.Row.{Row};

    ghost Value = { List Row };

    ghost view = { λ left. left.rows };
}

impl<'a> Rows<'a> {
    pub(crate) fn new(rows: Values<'a, u64, Row>) -> Rows<'a>
        ensures { result ≡ rows.entry }
    {
        Rows { rows }
    }
}

impl<'a> Iterator for Rows<'a> {
    type Item = &'a Row;

    ghost next_gives = { YieldsFirstRef (λ left. left) };

    ghost remaining = { item_count (λ left. left) };

    fn next(&mut self) -> Option<&'a Row> {
        self.rows.next()
    }

    /// How many rows are left, as both bounds.
    fn size_hint(&self) -> (usize, Option<usize>)
        ensures lower { IsWithinCount result.0 (item_count (λ left. left) self.now) }
        ensures upper { IfSome result.1 (UpTo (item_count (λ left. left) self.now)) }
        ensures exact { result ≡ (length self.now, Some (length self.now)) }
    {
        let left = self.rows.len();
        (left, Some(left))
    }
}

impl<'a> ExactSizeIterator for Rows<'a> {
    fn len(&self) -> usize {
        self.rows.len()
    }
}
