//! Pairs of a key and a value, in order.

ghost use Rattle.std.specs.Prelude.{◌≡◌, ◌≢◌, ◌<◌, ◌≤◌, [], length, map, count_by, slice_get, All, Contains, IfOk, OnErr, OnOk};
ghost use Rattle.std.specs.Ordering.{is_lt};
ghost use Rattle.std.specs.declared.cmp.Ordering.TheVariants.{Equal};
ghost use Rattle.sorted_list.specs.Sorted.{by_parts, values_under, IsAdded, IsProper, IsTakenOut};

use super::fixed::FixedList;
use super::run::Run;
use super::search::{AtEntry, AtKey, BehindKey};
use std::alloc::{AllocError, Global};
use std::marker::Model;

/// Entries of a key and a value in the order of keys, and under one key in that of values, no entry twice.
///
/// A contract sees the `room`, which is how many entries there can be, and the list `entries`. Only `new` and `grow`
/// take memory. Unless it says otherwise, a call takes a time logarithmic in the entries that are there, whatever the room.
#[derive(Drop)]
pub struct SortedList<K: Ord + Copy, V: Ord + Copy> {
    list: FixedList<(K, V)>,
}

impl<K: Ord + Copy, V: Ord + Copy> Model for SortedList<K, V> {
    ghost use Rattle.sorted_list.specs.Sorted.{Sorted, IsProper};

    ghost Value = { Sorted K V };

    ghost view = { λ sorted. record { room = sorted.list.room; entries = sorted.list.items } };

    ghost invariant = { λ sorted. IsProper K.cmp V.cmp (record { room = sorted.list.room; entries = sorted.list.items }) };
}

impl<K: Ord + Copy, V: Ord + Copy> SortedList<K, V> {
    /// No entries, and room for so many, of which none is written: the time doesn't grow with the room. Where it is
    /// 2^32 or more, there is no memory for it.
    pub fn new(alloc: Global, room: usize) -> Result<SortedList<K, V>, AllocError>
        ensures { IfOk result (λ sorted. sorted ≡ record { room = room; entries = [] }) }
    {
        match u32::try_from(room) {
            Ok(room) => Ok(SortedList {
                list: FixedList::new(alloc, room)?,
            }),
            Err(_) => Err(AllocError),
        }
    }

    /// Makes the room so large. What is there is moved as it stands, if at all. Where memory is wanted, or the room would be
    /// 2^32 or more, nothing changes.
    pub fn grow(&mut self, room: usize) -> Result<(), AllocError>
        requires { self.old.room ≤ room }
        ensures ok { OnOk result (self.new ≡ record self.old { room = room }) }
        ensures err { OnErr result (self.new ≡ self.old) }
        ensures proper { IsProper K.cmp V.cmp self.new }
    {
        match u32::try_from(room) {
            Ok(room) => self.list.grow(room),
            Err(_) => Err(AllocError),
        }
    }

    /// How many entries there are. Constant time.
    pub fn len(&self) -> usize
        ensures len { result ≡ length self.now.entries }
        ensures proper { IsProper K.cmp V.cmp self.now }
    {
        self.list.len() as usize
    }

    /// Adds an entry that isn't there. It takes no memory.
    pub fn insert(&mut self, key: K, value: V)
        requires absent { All (λ entry. by_parts K.cmp V.cmp entry (key, value) ≢ Equal) self.old.entries }
        requires room { length self.old.entries < self.old.room }
        ensures room { self.new.room ≡ self.old.room }
        ensures entries { IsAdded self.old.entries self.new.entries (key, value) }
        ensures proper { IsProper K.cmp V.cmp self.new }
    {
        let place = self.list.count_before(&AtEntry(&key, &value));
        self.list.insert(place, (key, value));
    }

    /// Takes out an entry that is there. It takes no memory.
    pub fn remove(&mut self, key: K, value: V)
        requires { Contains self.old.entries (key, value) }
        ensures room { self.new.room ≡ self.old.room }
        ensures entries { IsTakenOut self.old.entries self.new.entries (key, value) }
        ensures proper { IsProper K.cmp V.cmp self.new }
    {
        let place = self.list.count_before(&AtEntry(&key, &value));
        self.list.remove(place);
    }

    /// The entry at a place.
    pub fn get(&self, place: usize) -> Option<(K, V)>
        ensures { result ≡ slice_get self.now.entries place }
    {
        match u32::try_from(place) {
            Ok(place) => self.list.get(place),
            Err(_) => None,
        }
    }

    /// The value of the first entry with that key.
    pub fn find(&self, key: &K) -> Option<V>
        ensures value { result ≡ slice_get (values_under K.eq self.now.entries key.now) 0 }
        ensures proper { IsProper K.cmp V.cmp self.now }
    {
        match self.list.first_from(&AtKey(key)) {
            Some(entry) if entry.0 == *key => Some(entry.1),
            _ => None,
        }
    }

    /// How many entries have keys below that one.
    pub fn count_below(&self, key: &K) -> usize
        ensures count { result ≡ count_by (λ entry. is_lt (K.cmp entry.0 key.now)) self.now.entries }
        ensures proper { IsProper K.cmp V.cmp self.now }
    {
        self.list.count_before(&AtKey(key)) as usize
    }

    /// The values of the entries with that key, in order.
    pub fn run(&self, key: &K) -> Run<'_, K, V>
        ensures values { result ≡ values_under K.eq self.now.entries key.now }
        ensures proper { IsProper K.cmp V.cmp self.now }
    {
        let begin = self.list.count_before(&AtKey(key));
        let end = self.list.count_before(&BehindKey(key));
        Run::new(&self.list, begin, end)
    }

    /// The values of all entries, in order of their keys.
    pub fn values(&self) -> Run<'_, K, V>
        ensures values { result ≡ map (λ entry. entry.1) self.now.entries }
        ensures proper { IsProper K.cmp V.cmp self.now }
    {
        Run::new(&self.list, 0, self.list.len())
    }
}
