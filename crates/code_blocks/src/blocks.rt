//! A block of code, line by line.

ghost use Rattle.std.specs.Prelude.{◌≡◌, ◌<◌, ◌++◌, map, OnOk, MatchResult, codes, slice_index_or};
ghost use Rattle.std.specs.String.{string_bytes};
ghost use Rattle.code_blocks.specs.declared.fault.CodeFault.TheVariants.{NoMemory};
ghost use Rattle.code_blocks.specs.Blocks.{no_lines, code_byte, with_line, with_unread, earlier, fault_of, block_words, Answers};

use crate::fault::CodeFault;
use rv32_asm::{AsmFault, assemble};
use std::alloc::Global;
use std::marker::Model;
use text_fields::{is_plain, is_space};

/// The lines of a block of code so far.
#[derive(Drop)]
pub struct CodeBlock {
    // Each line is ended by a line feed.
    text: String,
    // The number of each line.
    numbers: Vec<u64>,
    // The first line with a byte that no line may have.
    unread: Option<u64>,
}

impl Model for CodeBlock {
    ghost use Rattle.std.specs.String.{string_bytes};
    ghost use Rattle.code_blocks.specs.Blocks.{Block};

    ghost Value = { Block };

    ghost view = { λ b. record { text = string_bytes b.text; numbers = b.numbers.items; unread = b.unread } };
}

// The byte as the assembler is to see it.
fn code_byte(byte: u8) -> u8
    ensures value { result ≡ code_byte byte }
    ensures ascii { result < 128 }
{
    if is_space(byte) {
        b' '
    } else if is_plain(byte) {
        byte
    } else {
        b'#'
    }
}

// Appends the bytes, as the assembler is to see them.
fn push_code(text: &mut String, line: &[u8]) -> Result<(), CodeFault>
    ensures ok { OnOk result (string_bytes text.new ≡ string_bytes text.old ++ map code_byte line.now) }
    ensures err { MatchResult result (λ _. Unit {0}) (λ e. e ≡ NoMemory) }
{
    for byte in line {
        text.push(char::from(code_byte(*byte)))?;
    }
    Ok(())
}

impl CodeBlock {
    /// A block without lines. It takes no memory.
    pub fn new(alloc: Global) -> CodeBlock
        ensures { result ≡ no_lines }
    {
        CodeBlock {
            text: String::new(alloc),
            numbers: Vec::new(alloc),
            unread: None,
        }
    }

    /// Appends a line of code without its comment, and with its number in the scenario. Tabs count as spaces. After a
    /// fault, which is want of memory, a part of the line may stand there.
    pub fn push(&mut self, number: u64, line: &[u8]) -> Result<(), CodeFault>
        ensures ok { OnOk result (self.new ≡ with_line self.old number line.now) }
        ensures err { MatchResult result (λ _. Unit {0}) (λ e. e ≡ NoMemory) }
    {
        push_code(&mut self.text, line)?;
        self.text.push('\n')?;
        self.numbers.push(number)?;
        Ok(())
    }

    /// Appends a line that breaks rule 1, which is code in no form, with its number in the scenario. After a fault, which
    /// is want of memory, a part of the line may stand there.
    pub fn push_unread(&mut self, number: u64) -> Result<(), CodeFault>
        ensures ok { OnOk result (self.new ≡ with_unread self.old number) }
        ensures err { MatchResult result (λ _. Unit {0}) (λ e. e ≡ NoMemory) }
    {
        self.text.push_str("#\n")?;
        self.numbers.push(number)?;
        if self.unread.is_none() {
            self.unread = Some(number);
        }
        Ok(())
    }

    // The fault on the earlier line, and on one line that of rule 1.
    fn earlier(&self, line: u64, rule: u32) -> CodeFault
        ensures { result ≡ earlier self.now.unread line rule }
    {
        match self.unread {
            Some(unread) => {
                if unread <= line {
                    CodeFault::Broken {
                        line: unread,
                        rule: 1,
                    }
                } else {
                    CodeFault::Broken { line, rule }
                }
            }
            None => CodeFault::Broken { line, rule },
        }
    }

    // The number of a line of the block, which are counted from 0 there.
    fn number(&self, line: u64) -> u64
        ensures { result ≡ slice_index_or self.now.numbers line 0 }
    {
        self.numbers.get(line as usize).copied().unwrap_or(0)
    }

    fn fault(&self, fault: AsmFault) -> CodeFault
        ensures { result ≡ fault_of self.now fault }
    {
        match fault {
            AsmFault::NoMemory => CodeFault::NoMemory,
            AsmFault::Room { line } => self.earlier(self.number(line), 15),
            AsmFault::BadLine { line } => self.earlier(self.number(line), 20),
            AsmFault::NoLabel { line } => self.earlier(self.number(line), 21),
            AsmFault::TwiceLabel { line } => self.earlier(self.number(line), 22),
            AsmFault::OutOfReach { line } => self.earlier(self.number(line), 23),
        }
    }

    /// The words of the block, of which `room` fit, or its first fault. It takes as long as the assembler takes.
    #[tactic(auto, unfolding(crate::specs::Blocks::block_words))]
    pub fn words(&self, alloc: Global, room: u32) -> Result<Vec<u32>, CodeFault>
        // The words that the lines mean, or the first fault, unless memory runs out.
        ensures { Answers (λ v. v.items) result (block_words room self.now) }
    {
        match assemble(alloc, self.text.as_str(), room) {
            Ok(words) => match self.unread {
                None => Ok(words),
                Some(line) => Err(CodeFault::Broken { line, rule: 1 }),
            },
            Err(fault) => Err(self.fault(fault)),
        }
    }
}
