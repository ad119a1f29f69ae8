//! A sorted list in which no key stands twice.

ghost use Rattle.std.specs.Prelude.{◌≡◌, ◌≢◌, ◌+◌, ◌<◌, Contains, All, length};
ghost use Rattle.std.specs.declared.cmp.Ordering.TheVariants.{Equal};
ghost use Rattle.slot_cache.specs.Index.{IsRising, IsInserted, IsRemoved};

use sorted_list::SortedList;

/// Puts the value at its key. There is room, so no memory is taken.
pub(crate) fn insert<K: Ord + Copy, V: Ord + Copy>(index: &mut SortedList<K, V>, key: K, value: V)
    requires rising { IsRising K.cmp index.old.entries }
    requires absent { All (λ place. K.cmp place.0 key ≢ Equal) index.old.entries }
    requires room { length index.old.entries < index.old.room }
    ensures rising { IsRising K.cmp index.new.entries }
    ensures inserted { IsInserted index.old.entries index.new.entries (key, value) }
    ensures len { length index.new.entries ≡ length index.old.entries + 1 }
    ensures room { index.new.room ≡ index.old.room }
{
    index.insert(key, value);
}

/// Takes out a key with its value.
pub(crate) fn remove<K: Ord + Copy, V: Ord + Copy>(index: &mut SortedList<K, V>, key: K, value: V)
    requires rising { IsRising K.cmp index.old.entries }
    requires there { Contains index.old.entries (key, value) }
    ensures rising { IsRising K.cmp index.new.entries }
    ensures removed { IsRemoved index.old.entries index.new.entries (key, value) }
    ensures len { length index.new.entries + 1 ≡ length index.old.entries }
    ensures room { index.new.room ≡ index.old.room }
{
    index.remove(key, value);
}
