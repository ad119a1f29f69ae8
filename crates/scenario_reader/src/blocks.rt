//! What a line within a block makes of a reading.

ghost use Rattle.std.specs.Prelude.{◌≡◌, ◌<◌, ◌++◌, Ok, OnOk, MatchResult};
ghost use Rattle.scenario_lines.specs.Lines.{code_line_of, image_line_of};
ghost use Rattle.code_blocks.specs.Blocks.{block_words, with_line, with_unread};
ghost use Rattle.scenario_reader.specs.Readings.{Takes};
ghost use Rattle.scenario_reader.specs.Scenarios.{room, of_code, assembled, in_code, digit_bytes, loaded, in_image};
ghost use Rattle.image_decls.specs.elf_image.specs.Elf.{broken_rule as broken_image};
ghost use Rattle.scenario_reader.specs.declared.fault.ScenarioFault.TheVariants.{NoMemory};
ghost use Rattle.scenario_reader.specs.Views.{reader_view};

use crate::fault::ScenarioFault;
use crate::reader::Reader;
use crate::standing::{ImageHead, Place};
use cache_ident::Frame;
use code_blocks::CodeFault;
use hex::FromHexError;
use image_decls::{ElfFault, image_decls};
use phys_groups::PAGE_BYTES;
use scenario_lines::{CodeLine, ImageLine, read_code_line, read_image_line};
use std::alloc::Global;

// How many words fit in a frame from the offset on.
pub(crate) fn room(offset: u32) -> u32
    ensures { result ≡ room offset }
{
    PAGE_BYTES.saturating_sub(offset) / 4
}

pub(crate) fn of_code(fault: CodeFault) -> ScenarioFault
    ensures { result ≡ of_code fault }
{
    match fault {
        CodeFault::NoMemory => ScenarioFault::NoMemory,
        CodeFault::Broken { line, rule } => ScenarioFault::Bad { line, rule },
    }
}

// Appends the bytes that the digits write.
fn push_bytes(alloc: Global, bytes: &mut Vec<u8>, digits: &[u8]) -> Result<(), ScenarioFault>
    ensures ok { OnOk result (bytes.new.items ≡ bytes.old.items ++ digit_bytes digits.now) }
    ensures err { MatchResult result (λ _. Unit {0}) (λ e. e ≡ NoMemory) }
{
    match hex::decode(alloc, digits) {
        Ok(more) => {
            bytes.extend_from_slice(&more)?;
            Ok(())
        }
        Err(FromHexError::OutOfMemory) => Err(ScenarioFault::NoMemory),
        // Lines that are read have whole bytes.
        Err(_) => Ok(()),
    }
}

impl Reader {
    // One more line of code.
    fn push_code(&mut self, text: &[u8]) -> Result<(), ScenarioFault>
        ensures { Takes reader_view result self.new (Ok (record (reader_view self.old) { block = with_line self.old.block self.old.number text.now })) }
    {
        match self.block.push(self.number, text) {
            Ok(()) => Ok(()),
            Err(fault) => Err(of_code(fault)),
        }
    }

    // One more line that breaks rule 1.
    fn push_unread(&mut self) -> Result<(), ScenarioFault>
        ensures { Takes reader_view result self.new (Ok (record (reader_view self.old) { block = with_unread self.old.block self.old.number })) }
    {
        match self.block.push_unread(self.number) {
            Ok(()) => Ok(()),
            Err(fault) => Err(of_code(fault)),
        }
    }

    // The block's words are declared.
    fn end_code(&mut self, alloc: Global, frame: Frame, offset: u32) -> Result<(), ScenarioFault>
        ensures { Takes reader_view result self.new (assembled (reader_view self.old) frame offset (block_words (room offset) self.old.block)) }
    {
        match self.block.words(alloc, room(offset)) {
            Ok(words) => {
                self.place = Place::Body;
                self.declare_words(frame, offset, &words)
            }
            Err(fault) => Err(of_code(fault)),
        }
    }

    /// A line within a block of code.
    #[tactic(auto, unfolding(crate::specs::Scenarios::in_code))]
    pub fn in_code(
        &mut self,
        alloc: Global,
        frame: Frame,
        offset: u32,
        line: &[u8],
    ) -> Result<(), ScenarioFault>
        ensures { Takes reader_view result self.new (in_code (reader_view self.old) frame offset (code_line_of line.now)) }
    {
        match read_code_line(line) {
            Ok(CodeLine::Blank) => Ok(()),
            Ok(CodeLine::Code(text)) => self.push_code(text),
            Ok(CodeLine::End) => self.end_code(alloc, frame, offset),
            Err(_) => self.push_unread(),
        }
    }

    // What the executable declares.
    fn end_image(&mut self, alloc: Global, head: ImageHead) -> Result<(), ScenarioFault>
        ensures { Takes reader_view result self.new (loaded (broken_image self.old.bytes.items) (reader_view self.old) head.space head.frame head.thread) }
    {
        match image_decls(alloc, &self.bytes, head.space, head.frame, head.thread) {
            Ok(decls) => {
                self.place = Place::Body;
                self.declare_all(&decls)
            }
            Err(ElfFault::Broken { rule }) => Err(self.broken(rule)),
            Err(ElfFault::NoMemory) => Err(ScenarioFault::NoMemory),
        }
    }

    /// A line within a block of an executable.
    #[tactic(auto, unfolding(crate::specs::Scenarios::in_image))]
    pub fn in_image(
        &mut self,
        alloc: Global,
        head: ImageHead,
        line: &[u8],
    ) -> Result<(), ScenarioFault>
        ensures { Takes reader_view result self.new (in_image (reader_view self.old) head.space head.frame head.thread (image_line_of line.now)) }
    {
        match read_image_line(line) {
            Ok(ImageLine::Blank) => Ok(()),
            Ok(ImageLine::Bytes(digits)) => push_bytes(alloc, &mut self.bytes, digits),
            Ok(ImageLine::End) => self.end_image(alloc, head),
            Err(rule) => Err(self.broken(rule)),
        }
    }
}
