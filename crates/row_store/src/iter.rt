//! The signal rows of a frame one after another.

ghost use Rattle.std.specs.Prelude.{◌≡◌, length, map, Some, IfSome};
ghost use Rattle.std.specs.Iterator.{UpTo, YieldsFirst, item_count};
ghost use Rattle.std.specs.Iterator.SizeHint.{IsWithinCount};

use cache_ident::{Frame, Name};
use growing_list::Values;
use std::marker::Model;

/// Goes over the names of a frame's signal rows, in declared order. A contract sees the list of those that are left.
///
/// Each takes a time logarithmic in the signal rows of all frames.
#[derive(Drop)]
pub struct SignalRows<'a> {
    pub(crate) stamped: Values<'a, Frame, (u64, Name)>,
}

impl<'a> Model for SignalRows<'a> {
    ghost use Rattle.std.specs.Prelude.{List, map};
    ghost use Rattle.cache_ident.specs.declared.names.Name.{Name};

    ghost Value = { List Name };

    ghost view = { λ rows. map (λ entry. entry.1) rows.stamped };
}

impl<'a> Iterator for SignalRows<'a> {
    type Item = Name;

    ghost next_gives = { YieldsFirst (λ left. left) };

    ghost remaining = { item_count (λ left. left) };

    fn next(&mut self) -> Option<Name> {
        let (_, name) = self.stamped.next()?;
        Some(name)
    }

    /// How many names are left, as both bounds.
    fn size_hint(&self) -> (usize, Option<usize>)
        ensures lower { IsWithinCount result.0 (item_count (λ left. left) self.now) }
        ensures upper { IfSome result.1 (UpTo (item_count (λ left. left) self.now)) }
        ensures exact { result ≡ (length self.now, Some (length self.now)) }
    {
        let left = self.stamped.len();
        (left, Some(left))
    }
}

impl<'a> ExactSizeIterator for SignalRows<'a> {
    fn len(&self) -> usize {
        self.stamped.len()
    }
}
