//! The bits of a word, and of words of which each has the bits of 64 numbers.

ghost use Rattle.std.specs.Prelude.{◌≡◌, ◌≢◌, ℕ, ◌<◌, ◌≤◌, ◌/◌, ◌^◌, max, length, slice_index, IfSome, OnErr, OnOk};
ghost use Rattle.number_set.specs.Bits.{bit_in, has_bit, IsMarked};
ghost use Rattle.number_set.specs.First.{IsFirstFrom};

use cache_ident::NoMemory;

// Whether the bit at a place is one.
fn is_one(word: u64, place: usize) -> bool
    requires { place < 64 }
    ensures { result ≡ has_bit word place }
{
    (word >> place) & 1 == 1
}

// The word with that bit at a place.
fn with_bit(word: u64, place: usize, on: bool) -> u64
    requires { place < 64 }
    ensures there { has_bit result place ≡ on }
    ensures others { (other : ℕ) → other ≢ place → has_bit result other ≡ has_bit word other }
{
    if on {
        word | (1 << place)
    } else {
        word & !(1 << place)
    }
}

// The first place from one on at which there is a one.
fn first_one(word: u64, from: usize) -> Option<usize>
    requires { from < 64 }
    ensures within { IfSome result (λ place. place < 64) }
    ensures first { IsFirstFrom (has_bit word) from result }
{
    let rest = word & (u64::MAX << from);
    if rest == 0 {
        None
    } else {
        Some(rest.trailing_zeros() as usize)
    }
}

/// Whether the number's bit is one. There is none behind the words.
pub fn contains(words: &[u64], number: usize) -> bool
    ensures { result ≡ bit_in words.now number }
{
    match words.get(number / 64) {
        Some(word) => is_one(*word, number % 64),
        None => false,
    }
}

/// Makes the number's bit that, if there are so many words.
pub fn put(words: &mut Vec<u64>, number: usize, on: bool)
    requires { number / 64 < length words.old.items }
    ensures len { length words.new.items ≡ length words.old.items }
    ensures there { bit_in words.new.items number ≡ on }
    ensures others { (other : ℕ) → other ≢ number → bit_in words.new.items other ≡ bit_in words.old.items other }
    ensures words { (place : ℕ) → place ≢ number / 64 → slice_index words.new.items place ≡ slice_index words.old.items place }
{
    let place = number / 64;
    words[place] = with_bit(words[place], number % 64, on);
}

/// The first number from one on whose bit is one. It walks over the words.
pub fn first(words: &[u64], from: usize) -> Option<usize>
    requires { length words.now < 2 ^ 32 }
    ensures { IsFirstFrom (bit_in words.now) from result }
{
    let mut from = from;
    while from / 64 < words.len() {
        let place = from / 64;
        match first_one(words[place], from % 64) {
            Some(at) => return Some(64 * place + at),
            None => from = 64 * (place + 1),
        }
    }
    None
}

/// The same, where each word that isn't zero is marked by a one above. It looks at two words, and walks over those above.
pub fn first_marked(words: &[u64], marks: &[u64], from: usize) -> Option<usize>
    requires few { length words.now < 2 ^ 32 }
    requires few_marks { length marks.now < 2 ^ 32 }
    requires marked { IsMarked words.now marks.now }
    ensures { IsFirstFrom (bit_in words.now) from result }
{
    let place = from / 64;
    if let Some(at) = first_one(*words.get(place)?, from % 64) {
        return Some(64 * place + at);
    }
    let place = first(marks, place + 1)?;
    let at = first_one(*words.get(place)?, 0)?;
    Some(64 * place + at)
}

/// Lengthens the words by zeros to so many, if there are fewer.
pub fn lengthen(words: &mut Vec<u64>, len: usize) -> Result<(), NoMemory>
    ensures words { (place : ℕ) → slice_index words.new.items place ≡ slice_index words.old.items place }
    ensures ok { OnOk result (length words.new.items ≡ max (length words.old.items) len) }
    ensures err { OnErr result (words.new.items ≡ words.old.items) }
{
    if words.len() < len {
        words.resize(len, 0)?;
    }
    Ok(())
}
