//! The reading of a scenario: where its lines stand, and what they declared so far.

ghost use Rattle.std.specs.Prelude.{◌≡◌, ◌<◌, ◌+◌, ◌⊎◌, map, MatchResult, Ok, Err};
ghost use Rattle.flat_machine.specs.flat_state.specs.declared.events.Decl.TheVariants as decls;
ghost use Rattle.scenario_reader.specs.declared.fault.ScenarioFault.TheVariants.{NoMemory, Bad};
ghost use Rattle.text_fields.specs.Lines.{fields};
ghost use Rattle.scenario_lines.specs.Forms.{word_value};
ghost use Rattle.scenario_reader.specs.Readings.{start, declare, declare_all, word_decls, Takes};
ghost use Rattle.scenario_reader.specs.Views.{reader_view};

use crate::fault::ScenarioFault;
use crate::standing::Place;
use cache_ident::Frame;
use code_blocks::CodeBlock;
use flat_machine::{Decl, Event, Flat};
use std::alloc::Global;
use text_fields::{next_field, word};

#[derive(Drop)]
pub(crate) struct Reader {
    /// The number of the line that was read last, from 1 on.
    pub number: u64,
    pub place: Place,
    /// The lines of the block of code.
    pub block: CodeBlock,
    /// The bytes of the executable.
    pub bytes: Vec<u8>,
    /// The machine that the declarations make.
    pub flat: Flat,
    pub decls: Vec<Decl>,
}

impl Reader {
    pub fn new(alloc: Global) -> Reader
        ensures { reader_view result ≡ start }
    {
        Reader {
            number: 0,
            place: Place::Start,
            block: CodeBlock::new(alloc),
            bytes: Vec::new(alloc),
            flat: Flat::new(alloc),
            decls: Vec::new(alloc),
        }
    }

    /// The line breaks that rule.
    pub fn broken(&self, rule: u32) -> ScenarioFault
        ensures { result ≡ Bad self.now.number rule }
    {
        ScenarioFault::Bad {
            line: self.number,
            rule,
        }
    }

    /// One more declaration, or the first rule that it breaks.
    #[tactic(auto, unfolding(crate::specs::Readings::declare))]
    pub fn declare(&mut self, decl: &Decl) -> Result<(), ScenarioFault>
        ensures { Takes reader_view result self.new (declare (reader_view self.old) decl.now) }
    {
        if let Err(rule) = self.flat.admit(decl) {
            return Err(self.broken(rule));
        }
        self.flat.apply(&Event::Declare(*decl))?;
        self.decls.push(*decl)?;
        Ok(())
    }

    /// One declaration after another, up to the first that breaks a rule.
    pub fn declare_all(&mut self, decls: &[Decl]) -> Result<(), ScenarioFault>
        ensures { Takes reader_view result self.new (declare_all (reader_view self.old) decls.now) }
    {
        for decl in decls {
            self.declare(decl)?;
        }
        Ok(())
    }

    // A word at an offset of a frame; answers the offset behind it.
    fn declare_word(&mut self, frame: Frame, offset: u32, value: u32) -> Result<u32, ScenarioFault>
        ensures { MatchResult result (λ next. (next ≡ offset + 4) × (declare (reader_view self.old) (decls.Word frame offset value) ≡ Ok (reader_view self.new))) (λ e. (e ≡ NoMemory) ⊎ (declare (reader_view self.old) (decls.Word frame offset value) ≡ Err e)) }
    {
        self.declare(&Decl::Word {
            frame,
            offset,
            value,
        })?;
        Ok(offset + 4)
    }

    /// The words that the fields write, one after another from an offset on.
    pub fn declare_fields(
        &mut self,
        frame: Frame,
        offset: u32,
        words: &[u8],
    ) -> Result<(), ScenarioFault>
        ensures { Takes reader_view result self.new (declare_all (reader_view self.old) (word_decls frame offset (map word_value (fields words.now)))) }
    {
        let mut next = offset;
        let mut rest = words;
        while let Some((field, more)) = next_field(rest) {
            next = self.declare_word(frame, next, word(field).unwrap_or(0))?;
            rest = more;
        }
        Ok(())
    }

    /// The words, one after another from an offset on.
    pub fn declare_words(
        &mut self,
        frame: Frame,
        offset: u32,
        words: &[u32],
    ) -> Result<(), ScenarioFault>
        ensures { Takes reader_view result self.new (declare_all (reader_view self.old) (word_decls frame offset words.now)) }
    {
        let mut next = offset;
        for word in words {
            next = self.declare_word(frame, next, *word)?;
        }
        Ok(())
    }
}
