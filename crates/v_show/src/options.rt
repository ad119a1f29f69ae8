//! What the words ask for.

ghost use Rattle.std.specs.Prelude.{◌≡◌, IfOk};
ghost use Rattle.clap.specs.Words.{app_of, found_of, rows_of};
ghost use Rattle.run_words.specs.Options.{IsReading};
ghost use Rattle.v_show.specs.Words.{command, options, options_in};

use clap::{ArgMatches, Command};
use journal_picture::Part;
use run_words::{
    ANY_NUMBER, STEPS, Words, WordsFault, bare, matches_in, number_option, number_within,
    steps_option,
};
use std::alloc::{AllocError, Global};

/// What the words of a command line ask for.
#[derive(Clone, Copy)]
pub(crate) struct Options {
    /// Which places are drawn.
    pub part: Part,
    /// At how many steps the run is over.
    pub steps: u32,
}

// The command, without a help flag and without subcommands.
fn command<'a>(alloc: Global) -> Result<Command<'a>, AllocError>
    ensures { IfOk result (λ c. app_of c ≡ command) }
{
    let from = number_option(alloc, "from", "0", ANY_NUMBER);
    let to = number_option(alloc, "to", "4294967295", ANY_NUMBER);
    let steps = steps_option(alloc);
    bare(alloc, "v_show").arg(from)?.arg(to)?.arg(steps)
}

// What the matches of the command ask for.
#[tactic(auto, unfolding(crate::specs::Words::options_in))]
fn options_in<'a>(matches: &ArgMatches<'a>) -> Option<Options>
    ensures { result ≡ options_in (rows_of (found_of matches.now)) }
{
    let from = u64::from(number_within(matches, "from", ANY_NUMBER)?);
    let to = u64::from(number_within(matches, "to", ANY_NUMBER)?);
    let steps = number_within(matches, "steps", STEPS)?;
    let part = Part { from, to };
    Some(Options { part, steps })
}

/// What the words ask for, where the program takes them.
pub(crate) fn read(alloc: Global, words: &Words) -> Result<Options, WordsFault>
    // The words ask for these options; or they aren't taken, or memory ran out.
    ensures { IsReading (options words.now) result }
{
    let command = command(alloc)?;
    let matches = matches_in(command, words)?;
    options_in(&matches).ok_or(WordsFault::Refused)
}
