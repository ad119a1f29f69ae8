//! The reading of a scenario that needn't have a kernel.

ghost use Rattle.std.specs.Prelude.{◌≡◌, ◌∷◌, List, Err, IfOk, Ok};
ghost use Rattle.flat_machine.specs.flat_state.specs.declared.events.Decl.{Decl};
ghost use Rattle.flat_machine.specs.flat_state.specs.declared.events.Decl.TheVariants as decls;
ghost use Rattle.flat_machine.specs.flat_state.specs.declared.events.Machine.{Machine};
ghost use Rattle.flat_machine.specs.flat_state.specs.Events.{AllFit};
ghost use Rattle.flat_machine.specs.flat_state.specs.State.{nothing_declared};
ghost use Rattle.scenario_lines.specs.Lines.{line_of};
ghost use Rattle.scenario_reader.specs.Readings.{Answers, Takes};
ghost use Rattle.scenario_reader.specs.Scenarios.{scenario};
ghost use Rattle.scenario_reader.specs.Openings.{WantsNoKernel, ends_behind_memory, ends_it, opening, step_of_opening};
ghost use Rattle.scenario_reader.specs.Views.{reader_view};

use crate::fault::ScenarioFault;
use crate::reader::Reader;
use crate::scenario::Scenario;
use crate::standing::Place;
use flat_machine::GREATEST_CAPS;
use scenario_lines::{Line, read_line};
use std::alloc::Global;
use text_fields::next_line;

// Whether the line is `end`.
fn ends_it(line: &[u8]) -> bool
    ensures { result ≡ ends_it (line_of line.now) }
{
    match read_line(line) {
        Ok(Line::End) => true,
        _ => false,
    }
}

impl Reader {
    // The end right behind `mem`.
    fn end_behind_memory(&mut self, groups: u32) -> Result<(), ScenarioFault>
        ensures { Takes reader_view result self.new (ends_behind_memory (reader_view self.old) groups) }
    {
        self.declare_machine(groups, GREATEST_CAPS)?;
        self.place = Place::Ended;
        Ok(())
    }

    // A line, as `step` reads it, but that `end` needs no kernel.
    #[tactic(auto, unfolding(crate::specs::Openings::step_of_opening, crate::specs::Scenarios::step))]
    fn step_of_opening(
        &mut self,
        alloc: Global,
        number: u64,
        line: &[u8],
    ) -> Result<(), ScenarioFault>
        ensures { Takes reader_view result self.new (step_of_opening number (reader_view self.old) line.now) }
    {
        match self.place {
            Place::Memory { groups } if ends_it(line) => {
                self.number = number;
                self.end_behind_memory(groups)
            }
            Place::Body if ends_it(line) => {
                self.number = number;
                self.place = Place::Ended;
                Ok(())
            }
            _ => self.step(alloc, number, line),
        }
    }
}

/// The declarations with which a machine begins: those of a scenario, as `read` reads it, but that there needn't be a kernel.
/// It costs what `read` does.
pub fn read_opening(alloc: Global, text: &[u8]) -> Result<Scenario, ScenarioFault>
    // The text is an opening with these declarations; or it has that first fault, unless memory runs out.
    ensures meant { Answers (λ s. s) result (opening text.now) }

    // They fit one after another, and the first is the machine.
    ensures fit { IfOk result (λ s. AllFit nothing_declared s) }
    ensures machine { IfOk result (λ s. (machine : Machine) × (rest : List Decl) × (s ≡ decls.Machine machine ∷ rest)) }

    // Any text that isn't refused for want of a kernel means what it means as a scenario.
    ensures alike { WantsNoKernel (scenario text.now) → opening text.now ≡ scenario text.now }
{
    let mut reader = Reader::new(alloc);
    let mut number = 1u64;
    let mut rest = text;
    loop {
        let (line, more) = next_line(rest);
        reader.step_of_opening(alloc, number, line)?;
        number += 1;
        match more {
            Some(next) => rest = next,
            None => return reader.finish(alloc),
        }
    }
}
