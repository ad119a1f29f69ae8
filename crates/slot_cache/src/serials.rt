//! The list of what may be a victim, by serial.

ghost use Rattle.std.specs.Prelude.{◌≡◌, ◌≢◌, ◌+◌, ◌<◌, true, false, length, All, Contains};
ghost use Rattle.std.specs.Ordering.{nat_cmp};
ghost use Rattle.std.specs.declared.cmp.Ordering.TheVariants.{Equal};
ghost use Rattle.slot_cache.specs.Index.{IsRelisted, IsRising};
ghost use Rattle.slot_cache.specs.Table.{places_of};

use super::index;
use sorted_list::SortedList;

/// Lists a slot, or takes it out of the list, as its lock goes. What stands in it was locked or not, and is so now: a slot
/// that holds nothing counts as locked.
pub fn relist(by_serial: &mut SortedList<u64, u32>, serial: u64, slot: u32, was: bool, is: bool)
    requires rising { IsRising nat_cmp by_serial.old.entries }
    requires there { was ≡ false → Contains by_serial.old.entries (serial, slot) }
    requires absent { was ≡ true → All (λ place. nat_cmp place.0 serial ≢ Equal) by_serial.old.entries }
    requires room { was ≡ true → is ≡ false → length by_serial.old.entries < by_serial.old.room }
    ensures rising { IsRising nat_cmp by_serial.new.entries }
    ensures relisted { IsRelisted by_serial.old.entries by_serial.new.entries (serial, slot) is }
    ensures len { length by_serial.new.entries + places_of was ≡ length by_serial.old.entries + places_of is }
    ensures room { by_serial.new.room ≡ by_serial.old.room }
{
    match (was, is) {
        (true, false) => index::insert(by_serial, serial, slot),
        (false, true) => index::remove(by_serial, serial, slot),
        (true, true) | (false, false) => {}
    }
}
