//! Pairs of a key and a value, in order, in memory that is made again where more of it is wanted.

ghost use Rattle.std.specs.Prelude.{◌≡◌, ◌≢◌, ◌<◌, ◌≤◌, ◌^◌, [], length, map, slice_get, All, Contains, OnErr, OnOk};
ghost use Rattle.std.specs.declared.cmp.Ordering.TheVariants.{Equal};
ghost use Rattle.sorted_list.specs.Sorted.{by_parts, values_under, IsAdded, IsProper, IsTakenOut};
ghost use Rattle.growing_list.specs.Shown.{shown};

use super::values::Values;
use cache_ident::NoMemory;
use sorted_list::SortedList;
use std::alloc::Global;
use std::marker::Model;

/// Entries of a key and a value in the order of keys, and under one key in that of values, no entry twice.
///
/// A contract sees the `room`, which is how many entries there can be without memory, and the list `entries`. Only
/// `grow` takes memory. Unless it says otherwise, a call takes a time logarithmic in the entries that are there.
#[derive(Drop)]
pub struct GrowingList<K: Ord + Copy, V: Ord + Copy> {
    alloc: Global,
    room: usize,
    // None as long as there is no room.
    list: Option<SortedList<K, V>>,
}

impl<K: Ord + Copy, V: Ord + Copy> Model for GrowingList<K, V> {
    ghost use Rattle.std.specs.Prelude.{◌≡◌};
    ghost use Rattle.sorted_list.specs.Sorted.{Sorted, IsProper};
    ghost use Rattle.growing_list.specs.Shown.{shown};

    ghost Value = { Sorted K V };

    ghost view = { λ growing. shown growing.list };

    ghost invariant = { λ growing. IsProper K.cmp V.cmp (shown growing.list) × (growing.room ≡ (shown growing.list).room) };
}

impl<K: Ord + Copy, V: Ord + Copy> GrowingList<K, V> {
    /// No entries and no room.
    pub fn new(alloc: Global) -> GrowingList<K, V>
        ensures { result ≡ record { room = 0; entries = [] } }
    {
        GrowingList {
            alloc,
            room: 0,
            list: None,
        }
    }

    /// How many entries there can be without memory. Constant time.
    pub fn room(&self) -> usize
        ensures room { result ≡ self.now.room }
        ensures proper { IsProper K.cmp V.cmp self.now }
    {
        self.room
    }

    /// How many entries there are. Constant time.
    pub fn len(&self) -> usize
        ensures len { result ≡ length self.now.entries }
        ensures proper { IsProper K.cmp V.cmp self.now }
    {
        match &self.list {
            Some(list) => list.len(),
            None => 0,
        }
    }

    /// Adds an entry that isn't there. It takes no memory.
    pub fn insert(&mut self, key: K, value: V)
        requires absent { All (λ entry. by_parts K.cmp V.cmp entry (key, value) ≢ Equal) self.old.entries }
        requires room { length self.old.entries < self.old.room }
        ensures room { self.new.room ≡ self.old.room }
        ensures entries { IsAdded self.old.entries self.new.entries (key, value) }
        ensures proper { IsProper K.cmp V.cmp self.new }
    {
        match &mut self.list {
            Some(list) => list.insert(key, value),
            None => unreachable!(),
        }
    }

    /// Takes out an entry that is there. It takes no memory, and leaves the room.
    pub fn remove(&mut self, key: K, value: V)
        requires { Contains self.old.entries (key, value) }
        ensures room { self.new.room ≡ self.old.room }
        ensures entries { IsTakenOut self.old.entries self.new.entries (key, value) }
        ensures proper { IsProper K.cmp V.cmp self.new }
    {
        match &mut self.list {
            Some(list) => list.remove(key, value),
            None => unreachable!(),
        }
    }

    /// The entry at a place.
    pub fn get(&self, place: usize) -> Option<(K, V)>
        ensures { result ≡ slice_get self.now.entries place }
    {
        match &self.list {
            Some(list) => list.get(place),
            None => None,
        }
    }

    /// The value of the first entry with that key.
    pub fn find(&self, key: &K) -> Option<V>
        ensures value { result ≡ slice_get (values_under K.eq self.now.entries key.now) 0 }
        ensures proper { IsProper K.cmp V.cmp self.now }
    {
        match &self.list {
            Some(list) => list.find(key),
            None => None,
        }
    }

    /// The values of the entries with that key, in order.
    pub fn run(&self, key: &K) -> Values<'_, K, V>
        ensures values { result ≡ values_under K.eq self.now.entries key.now }
        ensures proper { IsProper K.cmp V.cmp self.now }
    {
        match &self.list {
            Some(list) => Values {
                run: Some(list.run(key)),
            },
            None => Values { run: None },
        }
    }

    /// The values of all entries, in order of their keys.
    pub fn values(&self) -> Values<'_, K, V>
        ensures values { result ≡ map (λ entry. entry.1) self.now.entries }
        ensures proper { IsProper K.cmp V.cmp self.now }
    {
        match &self.list {
            Some(list) => Values {
                run: Some(list.values()),
            },
            None => Values { run: None },
        }
    }

    /// Makes the room so large. What is there is moved as it stands, if at all. Where memory is wanted, or the room would be
    /// 2^32 or more, nothing changes.
    pub fn grow(&mut self, room: usize) -> Result<(), NoMemory>
        requires { self.old.room ≤ room }
        ensures ok { OnOk result (self.new ≡ record self.old { room = room }) }
        ensures err { OnErr result (self.new ≡ self.old) }
        ensures proper { IsProper K.cmp V.cmp self.new }
    {
        match &mut self.list {
            Some(list) => list.grow(room)?,
            None => self.list = Some(SortedList::new(self.alloc, room)?),
        }
        self.room = room;
        Ok(())
    }
}
