//! The roll of all identifiers that were issued.

ghost use Rattle.std.specs.Prelude.{◌≡◌, ◌≢◌, ◌+◌, ◌<◌, ◌≤◌, [], ◌∷◌, ◌++◌, length, IsOk, OnOk, OnErr};
ghost use Rattle.cache_ident.specs.Rolls.{IsNumberedFrom, departed, just_issued, standing_in};

use super::idents::{Ident, Kind, Standing};
use std::alloc::{AllocError, Global};
use std::marker::Model;

/// Want of memory.
pub type NoMemory = AllocError;

// An identifier that was issued, and the place of the journal at which it left.
#[derive(Clone, Copy)]
struct Issued {
    ident: Ident,
    left: Option<u64>,
}

/// All identifiers that were issued, in order, each with the place of the journal at which it left.
///
/// A contract sees them as the list `issued`, and as `spare` how many more can be issued without
/// memory. Every call but `reserve` takes constant time, since a serial is a place in that list.
#[derive(Drop)]
pub struct Roll {
    issued: Vec<Issued>,
}

impl Model for Roll {
    ghost use Rattle.std.specs.Prelude.{◌-◌, vec_len, vec_capacity};
    ghost use Rattle.cache_ident.specs.Rolls.{Issues, IsNumberedFrom};

    ghost Value = { Issues };

    ghost view = { λ roll. record { issued = roll.issued.items; spare = vec_capacity roll.issued - vec_len roll.issued } };

    ghost invariant = { λ roll. IsNumberedFrom 0 roll.issued.items };
}

impl Roll {
    /// A roll that has issued nothing. It takes no memory.
    pub fn new(alloc: Global) -> Roll
        ensures { result.issued ≡ [] }
    {
        Roll {
            issued: Vec::new(alloc),
        }
    }

    /// Makes `spare` at least `n`. Where memory is wanted nothing changes.
    pub fn reserve(&mut self, n: usize) -> Result<(), NoMemory>
        ensures issued { self.new.issued ≡ self.old.issued }
        ensures grows { self.old.spare ≤ self.new.spare }
        ensures ok { OnOk result (n ≤ self.new.spare) }
        ensures enough { n ≤ self.old.spare → IsOk result }
        ensures err { OnErr result (self.new.spare ≡ self.old.spare) }
    {
        self.issued.reserve(n)
    }

    /// How many identifiers can be issued without memory.
    pub fn spare(&self) -> usize
        ensures { result ≡ self.now.spare }
    {
        self.issued.capacity() - self.issued.len()
    }

    /// A new identifier, whose serial is the number of those issued before.
    pub fn issue(&mut self, kind: Kind, slot: u32) -> Ident
        requires { 0 < self.old.spare }
        ensures gives { result ≡ record { kind = kind; slot = slot; serial = length self.old.issued } }
        ensures fresh { standing_in self.old.issued result ≡ Standing.Never }
        ensures after { self.new.issued ≡ self.old.issued ++ just_issued result ∷ [] }
        ensures spare { self.old.spare ≡ self.new.spare + 1 }
    {
        let ident = Ident {
            kind,
            slot,
            serial: self.issued.len() as u64,
        };
        self.issued.push_reserved(Issued { ident, left: None });
        ident
    }

    /// A live identifier leaves, at the place `at` of the journal.
    pub fn depart(&mut self, ident: Ident, at: u64)
        requires { standing_in self.old.issued ident ≡ Standing.Live }
        ensures after { self.new ≡ record self.old { issued = departed self.old.issued ident at } }
        ensures left { standing_in self.new.issued ident ≡ Standing.Left at }
        ensures others { (i : Ident) → i ≢ ident → standing_in self.new.issued i ≡ standing_in self.old.issued i }
    {
        let entry = &mut self.issued[ident.serial as usize];
        entry.left = Some(at);
    }

    /// Where an identifier stands: `Never` where no call issued it, with its kind, slot and serial.
    pub fn find(&self, ident: Ident) -> Standing
        ensures standing { result ≡ standing_in self.now.issued ident }
        ensures numbered { IsNumberedFrom 0 self.now.issued }
    {
        match self.issued.get(ident.serial as usize) {
            Some(entry) if entry.ident == ident => match entry.left {
                None => Standing::Live,
                Some(at) => Standing::Left(at),
            },
            _ => Standing::Never,
        }
    }
}
