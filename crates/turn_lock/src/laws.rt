//! What holds of every lock at any moment.
ghost use Rattle.std.specs.Prelude.{◌≡◌, Option};
ghost use Rattle.atomic_table.specs.Table.{State};
ghost use Rattle.turn_lock.specs.declared.held.Held.{Held};
ghost use Rattle.turn_lock.specs.declared.rule.View.{View};
ghost use Rattle.turn_lock.specs.Rule.{IsInTurn};
ghost use Rattle.turn_lock.specs.Passes.{StandsIn, seat_of};

use crate::history::History;

/// At most one holder has the value of a lock.
///
/// A state here is what the table of a lock is between two steps of any threads. The rule holds of each of them.
pub fn at_most_one_holds<V: History>()
    ensures { (s : State (Option V) (View V.Entry)) (one other : Held V V.Entry) → IsInTurn V.entries V.maker s → StandsIn s one → StandsIn s other → seat_of one ≡ seat_of other }
{}
