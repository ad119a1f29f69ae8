//! Names by stamp, and the stamp of each name.

ghost use Rattle.std.specs.Prelude.{◌≡◌, ◌≢◌, ◌+◌, ◌<◌, ◌≤◌, ◌^◌, [], ◌∷◌, ◌++◌, All, Contains, OnErr, OnOk};
ghost use Rattle.sorted_list.specs.Sorted.{IsProper as IsProperList};
ghost use Rattle.declared_names.specs.Order.{entries_without, names_in, IsProper};

use cache_ident::{Name, NoMemory};
use growing_list::{GrowingList, Values};
use std::alloc::{AllocError, Global};
use std::marker::Model;

/// Names, each once and with a stamp: a number above those of all names that were declared before it.
///
/// A contract sees the `room`, which is how many more names can come without memory, and the entries of a stamp and its
/// name in the order in which they were declared. A stamp is never given again, so that nothing is moved where a name
/// goes. Only `make_room` takes memory. Unless it says otherwise, a call takes a time logarithmic in the names that are
/// there.
#[derive(Drop)]
pub struct DeclaredNames {
    room: usize,
    // Above each stamp that was given.
    next: u64,
    by_stamp: GrowingList<u64, Name>,
    stamps: GrowingList<Name, u64>,
}

impl Model for DeclaredNames {
    ghost use Rattle.declared_names.specs.Order.{InOrder};
    ghost use Rattle.declared_names.specs.Layout.{IsSound};

    ghost Value = { InOrder };

    ghost view = { λ names. record { room = names.room; entries = names.by_stamp.entries } };

    ghost invariant = { λ names. IsSound names.room names.next names.by_stamp names.stamps };
}

impl DeclaredNames {
    /// No names, and no room for any. It takes no memory.
    pub fn new(alloc: Global) -> DeclaredNames
        ensures { result ≡ record { room = 0; entries = [] } }
    {
        DeclaredNames {
            room: 0,
            next: 0,
            by_stamp: GrowingList::new(alloc),
            stamps: GrowingList::new(alloc),
        }
    }

    /// Makes `room` at least one more than it was. Where memory is wanted, or the names would pass 2^32 or all stamps
    /// 2^64, nothing changes. Its time, which grows with the names that are there, is constant for each name that it
    /// makes room for, but for a logarithm.
    pub fn make_room(&mut self) -> Result<(), NoMemory>
        ensures entries { self.new.entries ≡ self.old.entries }
        ensures ok { OnOk result (self.old.room < self.new.room) }
        ensures err { OnErr result (self.new ≡ self.old) }
        ensures proper { IsProper self.new }
    {
        let len = self.by_stamp.len();
        let all = 2 * (len + self.room) + 1;
        if u64::MAX - self.next < all as u64 {
            return Err(AllocError);
        }
        grow(&mut self.by_stamp, all)?;
        grow(&mut self.stamps, all)?;
        self.room = all - len;
        Ok(())
    }

    /// How many more names can come without memory. Constant time.
    pub fn room(&self) -> usize
        ensures room { result ≡ self.now.room }
        ensures proper { IsProper self.now }
    {
        self.room
    }

    /// Adds a name as the last, and gives its stamp.
    pub fn push(&mut self, name: Name) -> u64
        requires room { 0 < self.old.room }
        requires absent { All (λ entry. entry.1 ≢ name) self.old.entries }
        ensures entries { self.new.entries ≡ self.old.entries ++ (result, name) ∷ [] }
        ensures room { self.new.room + 1 ≡ self.old.room }
        ensures proper { IsProper self.new }
    {
        let stamp = self.next;
        self.by_stamp.insert(stamp, name);
        self.stamps.insert(name, stamp);
        self.next = stamp + 1;
        self.room -= 1;
        stamp
    }

    /// Takes a name out, and gives the stamp that it had. There is room for one more then, unless the stamps end.
    pub fn remove(&mut self, name: Name) -> u64
        requires { Contains (names_in self.old) name }
        ensures stamp { Contains self.old.entries (result, name) }
        ensures entries { self.new.entries ≡ entries_without self.old.entries name }
        ensures room { self.old.room ≤ self.new.room }
        ensures proper { IsProper self.new }
    {
        let Some(stamp) = self.stamps.find(&name) else {
            unreachable!()
        };
        self.by_stamp.remove(stamp, name);
        self.stamps.remove(name, stamp);
        self.room = one_more(self.room, self.next);
        stamp
    }

    /// The names in declared order.
    pub fn iter(&self) -> Values<'_, u64, Name>
        ensures names { result ≡ names_in self.now }
        ensures proper { IsProper self.now }
    {
        self.by_stamp.values()
    }
}

// The room with one more, unless the stamps from the next one on end.
fn one_more(room: usize, next: u64) -> usize
    ensures kept { room ≤ result }
    ensures few { result ≤ room + 1 }
    ensures left { next + room < 2 ^ 64 → next + result < 2 ^ 64 }
{
    if (room as u64) < u64::MAX - next {
        room + 1
    } else {
        room
    }
}

// Makes the room of a list so large, if it isn't.
fn grow<K: Ord + Copy, V: Ord + Copy>(
    list: &mut GrowingList<K, V>,
    room: usize,
) -> Result<(), NoMemory>
    ensures entries { list.new.entries ≡ list.old.entries }
    ensures kept { list.old.room ≤ list.new.room }
    ensures ok { OnOk result (room ≤ list.new.room) }
    ensures proper { IsProperList K.cmp V.cmp list.new }
{
    if list.room() < room {
        list.grow(room)?;
    }
    Ok(())
}
