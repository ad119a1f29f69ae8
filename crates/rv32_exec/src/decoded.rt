// Instructions that were decoded before.

ghost use Rattle.std.specs.Prelude.{◌≡◌, ◌<◌, length, None, IfSome};
ghost use Rattle.std.specs.Bool.{OnFalse, OnTrue};
ghost use Rattle.rv32_isa.specs.Table.{IsValid, instruction_of};
ghost use Rattle.rv32_exec.specs.Decoded.{HasWord};

use crate::lines::Line;
use crate::outputs::NoMemory;
use rv32_isa::{Instr, decode};
use std::alloc::Global;

const LINES: usize = 1_024;

/// The instructions of words that were met lately, each remembered by the address of its word.
///
/// It knows nothing of memory: a line is used only where its word is the word asked for, so no store makes it wrong.
#[derive(Drop)]
pub struct DecodedWords {
    lines: Vec<Line>,
    ghost all: { length lines.items ≡ 1024 },
}

impl DecodedWords {
    /// Remembers no word that was met yet. The one call that takes memory, some 24 KiB.
    pub fn new(alloc: Global) -> Result<DecodedWords, NoMemory> {
        let lines = vec![in alloc; Line::first(); LINES]?;
        Ok(DecodedWords { lines })
    }

    /// The instruction that a word at that address is, as `decode` answers it. Constant time; where the word is
    /// remembered, a comparison and a copy.
    #[inline]
    pub fn instruction(&mut self, va: u32, word: u32) -> Option<Instr>
        ensures decoded { result ≡ instruction_of word }
        ensures valid { IfSome result IsValid }
    {
        let place = place(va);
        if self.knows(place, word) {
            Some(self.lines[place].instr)
        } else {
            None
        }
    }

    // Has the line at a place remember a word, where it is an instruction, and answers whether it is one.
    #[inline]
    fn knows(&mut self, place: usize, word: u32) -> bool
        requires { place < 1024 }
        ensures known { OnTrue result (HasWord self.new.lines.items place word) }
        ensures none { OnFalse result (instruction_of word ≡ None) }
    {
        if self.lines[place].word == word {
            return true;
        }
        self.meet(place, word)
    }

    // The same where it doesn't yet. It stays a call, and answers nothing through memory, so that its caller is short.
    #[cold]
    #[inline(never)]
    fn meet(&mut self, place: usize, word: u32) -> bool
        requires { place < 1024 }
        ensures known { OnTrue result (HasWord self.new.lines.items place word) }
        ensures none { OnFalse result (instruction_of word ≡ None) }
    {
        match decode(word) {
            Some(instr) => {
                self.lines[place] = Line { word, instr };
                true
            }
            None => false,
        }
    }
}

// The line of an address: consecutive words have lines of their own.
#[inline]
fn place(va: u32) -> usize
    ensures { result < 1024 }
{
    (va / 4) as usize % LINES
}
