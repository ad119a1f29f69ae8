//! What a line outside of blocks makes of a reading, by the place at which it stands.

ghost use Rattle.std.specs.Prelude.{◌≡◌, ◌<◌, Some, None, MatchResult, OnOk};
ghost use Rattle.flat_machine.specs.flat_state.specs.declared.events.TheConstants.{GREATEST_CAPS as GREATEST_CAPS_LEM};
ghost use Rattle.flat_machine.specs.flat_state.specs.declared.events.Decl.TheVariants as decls;
ghost use Rattle.flat_machine.specs.flat_state.specs.Declaration.{broken_rule};
ghost use Rattle.scenario_lines.specs.Forms.{line_view};
ghost use Rattle.scenario_reader.specs.Readings.{Body, Memory, declare, in_place, unless, rule_of_code, rule_of_image, Takes};
ghost use Rattle.scenario_reader.specs.Scenarios.{ends, in_body, behind_memory, behind_machine, at_start, at_end, code_begins, image_begins};
ghost use Rattle.scenario_reader.specs.Views.{reader_view};

use crate::fault::ScenarioFault;
use crate::reader::Reader;
use crate::standing::{ImageHead, Place};
use cache_ident::{Caps, Frame, KernelNo, SpaceNo, ThreadNo};
use code_blocks::CodeBlock;
use flat_machine::{Decl, GREATEST_CAPS, Machine};
use scenario_lines::Line;
use std::alloc::Global;

/// The frames that the largest memory has.
const MOST_FRAMES: u32 = 2048;

impl Reader {
    // Code begins, unless a word there would break a rule.
    fn begin_code(&mut self, alloc: Global, frame: Frame, offset: u32) -> Result<(), ScenarioFault>
        ensures { Takes reader_view result self.new (unless (rule_of_code self.old.flat frame offset) (reader_view self.old) (code_begins (reader_view self.old) frame offset)) }
    {
        let word = Decl::Word {
            frame,
            offset,
            value: 0,
        };
        if let Err(rule) = self.flat.admit(&word) {
            return Err(self.broken(rule));
        }
        self.place = Place::Code { frame, offset };
        self.block = CodeBlock::new(alloc);
        Ok(())
    }

    // The first rule that the beginning of an executable breaks.
    fn rule_of_image(&self, space: SpaceNo, frame: Frame, thread: ThreadNo) -> Result<(), u32>
        ensures is { MatchResult result (λ _. rule_of_image self.now.flat space frame thread ≡ None) (λ rule. rule_of_image self.now.flat space frame thread ≡ Some rule) }
        ensures in_memory { OnOk result (frame.0 < 2048) }
    {
        if thread.0 != self.flat.threads() {
            return Err(8);
        }
        if space.0 >= self.flat.spaces() {
            return Err(12);
        }
        if frame.0 >= MOST_FRAMES {
            return Err(13);
        }
        self.flat.admit(&Decl::Word {
            frame,
            offset: 0,
            value: 0,
        })
    }

    // An executable begins, unless its line breaks a rule.
    fn begin_image(
        &mut self,
        alloc: Global,
        space: SpaceNo,
        frame: Frame,
        thread: ThreadNo,
    ) -> Result<(), ScenarioFault>
        ensures { Takes reader_view result self.new (unless (rule_of_image self.old.flat space frame thread) (reader_view self.old) (image_begins (reader_view self.old) space frame thread)) }
    {
        if let Err(rule) = self.rule_of_image(space, frame, thread) {
            return Err(self.broken(rule));
        }
        self.place = Place::Image(ImageHead {
            space,
            frame,
            thread,
        });
        self.bytes = Vec::new(alloc);
        Ok(())
    }

    // The scenario ends, if there is a kernel.
    fn end(&mut self) -> Result<(), ScenarioFault>
        ensures { Takes reader_view result self.new (ends (reader_view self.old)) }
    {
        if self.flat.limits(KernelNo(0)).is_none() {
            return Err(self.broken(25));
        }
        self.place = Place::Ended;
        Ok(())
    }

    /// A line behind `mem` and `caps`.
    #[tactic(auto, unfolding(crate::specs::Scenarios::in_body))]
    pub fn in_body(&mut self, alloc: Global, line: Line<'_>) -> Result<(), ScenarioFault>
        ensures { Takes reader_view result self.new (in_body (reader_view self.old) (line_view line.entry)) }
    {
        match line {
            Line::Blank => Ok(()),
            Line::Declares(decl) => self.declare(&decl),
            Line::Words {
                frame,
                offset,
                words,
            } => self.declare_fields(frame, offset, words),
            Line::Code { frame, offset } => self.begin_code(alloc, frame, offset),
            Line::Image {
                space,
                frame,
                thread,
            } => self.begin_image(alloc, space, frame, thread),
            Line::End => self.end(),
            Line::Memory { .. } => Err(self.broken(5)),
            Line::Capacities(_) => Err(self.broken(5)),
            Line::EndCode => Err(self.broken(5)),
            Line::EndImage => Err(self.broken(5)),
        }
    }

    // The machine, behind which the body begins.
    pub(crate) fn declare_machine(&mut self, groups: u32, caps: Caps) -> Result<(), ScenarioFault>
        ensures { Takes reader_view result self.new (declare (in_place (reader_view self.old) Body) (decls.Machine (record { groups = groups; caps = caps }))) }
    {
        self.place = Place::Body;
        let machine = Machine { groups, caps };
        self.declare(&Decl::Machine { machine })
    }

    // A line behind `mem`, where none of capacities stands.
    fn behind_machine(
        &mut self,
        alloc: Global,
        groups: u32,
        line: Line<'_>,
    ) -> Result<(), ScenarioFault>
        ensures { Takes reader_view result self.new (behind_machine (reader_view self.old) groups (line_view line.entry)) }
    {
        self.declare_machine(groups, GREATEST_CAPS)?;
        self.in_body(alloc, line)
    }

    // A line right behind `mem`.
    #[tactic(auto, unfolding(crate::specs::Scenarios::behind_memory))]
    pub fn behind_memory(
        &mut self,
        alloc: Global,
        groups: u32,
        line: Line<'_>,
    ) -> Result<(), ScenarioFault>
        ensures { Takes reader_view result self.new (behind_memory (reader_view self.old) groups (line_view line.entry)) }
    {
        match line {
            Line::Blank => Ok(()),
            Line::Capacities(caps) => self.declare_machine(groups, caps),
            _ => self.behind_machine(alloc, groups, line),
        }
    }

    // Memory of so many groups, with the greatest capacities until others are said.
    fn begin_memory(&mut self, groups: u32) -> Result<(), ScenarioFault>
        ensures { Takes reader_view result self.new (unless (broken_rule self.old.flat (decls.Machine (record { groups = groups; caps = GREATEST_CAPS_LEM }))) (reader_view self.old) (in_place (reader_view self.old) (Memory groups))) }
    {
        let machine = Machine {
            groups,
            caps: GREATEST_CAPS,
        };
        if let Err(rule) = self.flat.admit(&Decl::Machine { machine }) {
            return Err(self.broken(rule));
        }
        self.place = Place::Memory { groups };
        Ok(())
    }

    // A line before `mem`.
    #[tactic(auto, unfolding(crate::specs::Scenarios::at_start))]
    pub fn at_start(&mut self, line: Line<'_>) -> Result<(), ScenarioFault>
        ensures { Takes reader_view result self.new (at_start (reader_view self.old) (line_view line.entry)) }
    {
        match line {
            Line::Blank => Ok(()),
            Line::Memory { groups } => self.begin_memory(groups),
            _ => Err(self.broken(5)),
        }
    }

    // A line behind `end`.
    #[tactic(auto, unfolding(crate::specs::Scenarios::at_end))]
    pub fn at_end(&mut self, line: Line<'_>) -> Result<(), ScenarioFault>
        ensures { Takes reader_view result self.new (at_end (reader_view self.old) (line_view line.entry)) }
    {
        match line {
            Line::Blank => Ok(()),
            _ => Err(self.broken(5)),
        }
    }
}
