//! The command that the words of the board by hand are given to.

ghost use Rattle.std.specs.Prelude.{◌≡◌, IfOk};
ghost use Rattle.clap.specs.Words.{app_of};
ghost use Rattle.run_words.specs.Command.{drive_command};
ghost use Rattle.run_words.specs.Options.{steps_allowed, IsReading};

use crate::command::{bare, matches_in, number_within, steps_option};
use crate::options::WordsFault;
use crate::ranges::STEPS;
use crate::words::Words;
use clap::Command;
use std::alloc::{AllocError, Global};

// The command, whose one option is the number of steps.
fn command<'a>(alloc: Global) -> Result<Command<'a>, AllocError>
    ensures { IfOk result (λ c. app_of c ≡ drive_command) }
{
    let steps = steps_option(alloc);
    bare(alloc, "v_drive").arg(steps)
}

/// How many steps the words allow, where the board by hand takes them: 1 to 1,000,000, and 1,000,000 without words.
pub fn read_steps(alloc: Global, words: &Words) -> Result<u32, WordsFault>
    // The words allow so many; or they aren't taken, or memory ran out.
    ensures { IsReading (steps_allowed words.now) result }
{
    let command = command(alloc)?;
    let matches = matches_in(command, words)?;
    number_within(&matches, "steps", STEPS).ok_or(WordsFault::Refused)
}
