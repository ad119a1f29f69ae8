//! A scenario, and the reading of one.

ghost use Rattle.std.specs.Prelude.{◌≡◌, ◌<◌, IfOk, length};
ghost use Rattle.flat_machine.specs.flat_state.specs.State.{nothing_declared};
ghost use Rattle.flat_machine.specs.flat_state.specs.Events.{AllFit, after_declarations};
ghost use Rattle.scenario_reader.specs.Readings.{Takes, Answers};
ghost use Rattle.scenario_reader.specs.Scenarios.{step, finish, scenario};
ghost use Rattle.scenario_reader.specs.Views.{reader_view};

use crate::blocks::{of_code, room};
use crate::fault::ScenarioFault;
use crate::reader::Reader;
use crate::standing::Place;
use flat_machine::Decl;
use scenario_lines::read_line;
use std::alloc::Global;
use std::marker::Model;
use text_fields::next_line;

/// The declarations of one machine, none of which breaks a rule.
#[derive(Drop)]
pub struct Scenario {
    decls: Vec<Decl>,
}

impl Model for Scenario {
    ghost use Rattle.std.specs.Prelude.{List};
    ghost use Rattle.flat_machine.specs.flat_state.specs.declared.events.Decl.{Decl};

    ghost Value = { List Decl };

    ghost view = { λ s. s.decls.items };
}

impl Scenario {
    /// The declarations in the order of their lines.
    pub fn decls(&self) -> &[Decl]
        ensures { result.now ≡ self.now }
    {
        self.decls.as_slice()
    }
}

impl Reader {
    // What a line makes of the reading, by the place at which it stands.
    #[tactic(auto, unfolding(crate::specs::Scenarios::step))]
    pub(crate) fn step(
        &mut self,
        alloc: Global,
        number: u64,
        line: &[u8],
    ) -> Result<(), ScenarioFault>
        ensures { Takes reader_view result self.new (step number (reader_view self.old) line.now) }
    {
        self.number = number;
        match self.place {
            Place::Code { frame, offset } => self.in_code(alloc, frame, offset, line),
            Place::Image(head) => self.in_image(alloc, head, line),
            Place::Start => match read_line(line) {
                Ok(line) => self.at_start(line),
                Err(rule) => Err(self.broken(rule)),
            },
            Place::Memory { groups } => match read_line(line) {
                Ok(line) => self.behind_memory(alloc, groups, line),
                Err(rule) => Err(self.broken(rule)),
            },
            Place::Body => match read_line(line) {
                Ok(line) => self.in_body(alloc, line),
                Err(rule) => Err(self.broken(rule)),
            },
            Place::Ended => match read_line(line) {
                Ok(line) => self.at_end(line),
                Err(rule) => Err(self.broken(rule)),
            },
        }
    }

    // Behind the last line.
    #[tactic(auto, unfolding(crate::specs::Scenarios::finish))]
    pub(crate) fn finish(self, alloc: Global) -> Result<Scenario, ScenarioFault>
        ensures { Answers (λ s. s) result (finish (reader_view self)) }
    {
        match self.place {
            Place::Ended => Ok(Scenario { decls: self.decls }),
            Place::Code { offset, .. } => match self.block.words(alloc, room(offset)) {
                Ok(_) => Err(self.broken(24)),
                Err(fault) => Err(of_code(fault)),
            },
            _ => Err(self.broken(24)),
        }
    }
}

/// The scenario that the text is.
///
/// It goes through the text once, and makes each declaration on a machine of its own, which is let go at the end: that
/// costs the memory of the machine, and the logarithm of the rows for each row. A few lines of an executable can
/// stand for two million words.
pub fn read(alloc: Global, text: &[u8]) -> Result<Scenario, ScenarioFault>
    // The text is a scenario with these declarations; or it has that first fault, unless memory runs out.
    ensures meant { Answers (λ s. s) result (scenario text.now) }

    // They fit one after another, and there are some.
    ensures fit { IfOk result (λ s. AllFit nothing_declared s × (0 < length s)) }

    // A kernel is among them.
    ensures kernel { IfOk result (λ s. 0 < length (after_declarations nothing_declared s).kernels) }
{
    let mut reader = Reader::new(alloc);
    let mut number = 1u64;
    let mut rest = text;
    loop {
        let (line, more) = next_line(rest);
        reader.step(alloc, number, line)?;
        number += 1;
        match more {
            Some(next) => rest = next,
            None => return reader.finish(alloc),
        }
    }
}
