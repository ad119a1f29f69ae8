//! A set of numbers.

ghost use Rattle.std.specs.Prelude.{◌≡◌, ◌+◌, ◌<◌, ◌≤◌, ◌^◌, [], ◌∷◌, ◌++◌, length, slice_set, IsOk, OnErr, OnOk};
ghost use Rattle.number_set.specs.First.{IsFirstFrom};
ghost use Rattle.number_set.specs.Members.{is_in};

use super::bits::{contains, first_marked, lengthen, put};
use cache_ident::NoMemory;
use std::alloc::{AllocError, Global};
use std::marker::Model;

// So many words have the bits of fewer than 2^32 numbers.
const MOST_WORDS: usize = (1 << 26) - 1;

/// Which of the numbers below its length are in it.
///
/// A contract sees the `flags`, which say of each number whether it is in, and the `room`, which is how many more numbers
/// can be pushed without memory. Only `make_room` takes memory: for 64 numbers a word and a bit. Unless it says otherwise,
/// a call takes constant time.
#[derive(Drop)]
pub struct NumberSet {
    len: usize,
    // For each number a bit, and zeros behind the length.
    words: Vec<u64>,
    // For each word a bit, which is one where the word isn't zero, and zeros behind them.
    marks: Vec<u64>,
}

impl Model for NumberSet {
    ghost use Rattle.std.specs.Prelude.{◌-◌, ◌*◌, length};
    ghost use Rattle.number_set.specs.Members.{Members};
    ghost use Rattle.number_set.specs.Layout.{flags_in, IsSound};

    ghost Value = { Members };

    ghost view = { λ set. record { flags = flags_in set.len set.words.items; room = 64 * length set.words.items - set.len } };

    ghost invariant = { λ set. IsSound set.len set.words.items set.marks.items };
}

impl NumberSet {
    /// No numbers, and no room for any. It takes no memory.
    pub fn new(alloc: Global) -> NumberSet
        ensures { result ≡ record { flags = []; room = 0 } }
    {
        NumberSet {
            len: 0,
            words: Vec::new(alloc),
            marks: Vec::new(alloc),
        }
    }

    /// Makes room for at least one number more, if there is none. It doubles the words then, so that its time, which grows
    /// with the length, is constant for each number that it makes room for. Where memory is wanted, or the length and the
    /// room would be 2^32 or more, nothing changes.
    pub fn make_room(&mut self) -> Result<(), NoMemory>
        ensures flags { self.new.flags ≡ self.old.flags }
        ensures kept { self.old.room ≤ self.new.room }
        ensures ok { OnOk result (0 < self.new.room) }
        ensures enough { 0 < self.old.room → IsOk result × (self.new ≡ self.old) }
        ensures err { OnErr result (self.new ≡ self.old) }
    {
        let words = self.words.len();
        if self.len < 64 * words {
            return Ok(());
        }
        let all = 2 * words + 1;
        if all > MOST_WORDS {
            return Err(AllocError);
        }
        lengthen(&mut self.marks, all / 64 + 1)?;
        lengthen(&mut self.words, all)
    }

    /// How many more numbers can be pushed without memory.
    pub fn room(&self) -> usize
        ensures { result ≡ self.now.room }
    {
        64 * self.words.len() - self.len
    }

    /// How many numbers there are, in the set or not.
    pub fn len(&self) -> usize
        ensures len { result ≡ length self.now.flags }
        ensures small { result + self.now.room < 2 ^ 32 }
    {
        self.len
    }

    /// Makes the length one more, with the last number in the set or not. It takes no memory.
    pub fn push(&mut self, on: bool)
        requires { 0 < self.old.room }
        ensures flags { self.new.flags ≡ self.old.flags ++ on ∷ [] }
        ensures room { self.new.room + 1 ≡ self.old.room }
    {
        let number = self.len as u32;
        self.len += 1;
        self.set(number, on);
    }

    /// Puts a number into the set, or takes it out.
    pub fn set(&mut self, number: u32, on: bool)
        requires { number < length self.old.flags }
        ensures { self.new ≡ record self.old { flags = slice_set self.old.flags number on } }
    {
        let number = number as usize;
        let place = number / 64;
        put(&mut self.words, number, on);
        let marked = self.words[place] != 0;
        put(&mut self.marks, place, marked);
    }

    /// Whether the number is in the set. None is from the length on.
    pub fn contains(&self, number: u32) -> bool
        ensures { result ≡ is_in self.now.flags number }
    {
        contains(&self.words, number as usize)
    }

    /// The first number from one on that is in the set. It looks at two words, and at one for each 4,096 numbers that it
    /// passes over.
    pub fn next(&self, from: u32) -> Option<u32>
        ensures { IsFirstFrom (is_in self.now.flags) from result }
    {
        let number = first_marked(&self.words, &self.marks, from as usize)?;
        Some(number as u32)
    }
}
