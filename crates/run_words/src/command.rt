//! The command that the words of a run are given to, and what it makes of them.

ghost use Rattle.std.specs.Prelude.{◌≡◌, [], true, false, IfOk};
ghost use Rattle.clap.specs.Words.{app_of, rule_of, found_of, rows_of, is_simple_and_free, matches_of};
ghost use Rattle.run_words.specs.Command.{option, number_option, bare, command, steps_option};
ghost use Rattle.run_words.specs.Examples.{AreTaken, AreRefused};
ghost use Rattle.run_words.specs.Ranges.{IsIn, cpus_range, steps_range, frames_range};
ghost use Rattle.run_words.specs.Values.{ModesAreNamed, NumbersHaveRanges};
ghost use Rattle.run_words.specs.Options.{mode_in, number_in, number_within, options, options_in, fault_by, are_taken, IfRefused, IsReading, by_default};

use crate::options::{Mode, Options, WordsFault};
use crate::ranges::{ANY_NUMBER, CPUS, FRAMES, NumberRange, STEPS};
use crate::words::Words;
use clap::builder::ValueParser;
use clap::error::ErrorKind;
use clap::{Arg, ArgAction, ArgMatches, Command};
use std::alloc::{AllocError, Global};

// An option with one value.
fn option<'a>(alloc: Global, name: &'a str, default: &'a str, parser: ValueParser<'a>) -> Arg<'a>
    ensures rule { rule_of result ≡ option name.entry.now default.entry.now parser.entry }
    ensures local { result.global ≡ false }
{
    Arg::new(alloc, name)
        .long(name)
        .action(ArgAction::Set)
        .default_value(default)
        .value_parser(parser)
}

/// An option with one number, which has to be one of these.
pub fn number_option<'a>(
    alloc: Global,
    name: &'a str,
    default: &'a str,
    numbers: NumberRange,
) -> Arg<'a>
    ensures rule { rule_of result ≡ number_option name.entry.now default.entry.now numbers }
    ensures local { result.global ≡ false }
{
    let parser = ValueParser::unsigned(u64::from(numbers.lowest), u64::from(numbers.highest));
    option(alloc, name, default, parser)
}

/// The option `--steps`, how many steps may be taken.
pub fn steps_option<'a>(alloc: Global) -> Arg<'a>
    ensures rule { rule_of result ≡ steps_option }
    ensures local { result.global ≡ false }
{
    number_option(alloc, "steps", "1000000", STEPS)
}

/// A program's command without its options: it takes no help flag and no subcommand.
pub fn bare<'a>(alloc: Global, name: &'a str) -> Command<'a>
    ensures { app_of result ≡ bare name.entry.now }
{
    Command::new(alloc, name)
        .no_binary_name(true)
        .disable_help_flag(true)
}

// The command of the program that runs scenarios, without a help flag and without subcommands.
fn command<'a>(alloc: Global) -> Result<Command<'a>, AllocError>
    ensures { IfOk result (λ c. app_of c ≡ command) }
{
    let mode = option(alloc, "mode", "run", ValueParser::String);
    let cpus = number_option(alloc, "cpus", "1", CPUS);
    let steps = steps_option(alloc);
    let seed = number_option(alloc, "seed", "0", ANY_NUMBER);
    let frames = number_option(alloc, "frames", "64", FRAMES);
    bare(alloc, "v_run")
        .arg(mode)?
        .arg(cpus)?
        .arg(steps)?
        .arg(seed)?
        .arg(frames)
}

// Why a parse failed.
fn fault_by(kind: ErrorKind) -> WordsFault
    ensures { result ≡ fault_by kind }
{
    match kind {
        ErrorKind::OutOfMemory => WordsFault::NoMemory,
        _ => WordsFault::Refused,
    }
}

/// What a command finds in the words, or that it doesn't take them, or that memory ran out.
pub fn matches_in<'a>(command: Command<'a>, words: &'a Words) -> Result<ArgMatches<'a>, WordsFault>
    requires { is_simple_and_free (app_of command) ≡ true }
    ensures taken { IfOk result (λ matches. are_taken (app_of command.entry) words.entry.now ≡ true) }
    ensures matches { IfOk result (λ matches. rows_of (found_of matches) ≡ matches_of (app_of command.entry) words.entry.now) }
    ensures refused { IfRefused result (are_taken (app_of command.entry) words.entry.now ≡ false) }
{
    match command.try_get_matches_from(words.as_slice()) {
        Ok(matches) => Ok(matches),
        Err(error) => Err(fault_by(error.kind())),
    }
}

// The mode that was found.
fn mode_in<'a>(matches: &ArgMatches<'a>) -> Option<Mode>
    ensures { result ≡ mode_in (rows_of (found_of matches.now)) }
{
    Mode::named(matches.get_str("mode")?)
}

// The number that was found for an option.
fn number_in<'a>(matches: &ArgMatches<'a>, name: &str) -> Option<u32>
    ensures { result ≡ number_in name.now (rows_of (found_of matches.now)) }
{
    matches.get_one(name)
}

/// The number that was found for an option, where it is one of these.
pub fn number_within<'a>(matches: &ArgMatches<'a>, name: &str, numbers: NumberRange) -> Option<u32>
    ensures { result ≡ number_within name.now numbers (rows_of (found_of matches.now)) }
{
    let number = number_in(matches, name)?;
    numbers.has(number).then_some(number)
}

// What the matches of the command ask for.
#[tactic(auto, unfolding(crate::specs::Options::options_in))]
fn options_in<'a>(matches: &ArgMatches<'a>) -> Option<Options>
    ensures { result ≡ options_in (rows_of (found_of matches.now)) }
{
    Some(Options {
        mode: mode_in(matches)?,
        cpus: number_within(matches, "cpus", CPUS)?,
        steps: number_within(matches, "steps", STEPS)?,
        seed: number_within(matches, "seed", ANY_NUMBER)?,
        frames: number_within(matches, "frames", FRAMES)?,
    })
}

/// What the words ask for, where the program that runs scenarios takes them.
pub fn read(alloc: Global, words: &Words) -> Result<Options, WordsFault>
    // The words ask for these options; or they aren't taken, or memory ran out.
    ensures meant { IsReading (options words.now) result }

    // Whatever the words are, numbers are in their ranges.
    ensures cpus { IfOk result (λ o. IsIn cpus_range o.cpus) }
    ensures steps { IfOk result (λ o. IsIn steps_range o.steps) }
    ensures frames { IfOk result (λ o. IsIn frames_range o.frames) }

    // Without words each option has its default.
    ensures default { words.now ≡ [] → IfOk result (λ o. o ≡ by_default) }
{
    let command = command(alloc)?;
    let matches = matches_in(command, words)?;
    options_in(&matches).ok_or(WordsFault::Refused)
}

/// Which words `read` takes, and what it makes of them: of each option alone with any value, and of several by examples.
pub fn which_words_are_taken()
    // A mode is one of the five names.
    ensures modes { ModesAreNamed }

    // A number is one in decimal digits that lies in its option's range.
    ensures ranges { NumbersHaveRanges }

    // Each of these is taken, and asks for what stands beside it.
    ensures taken { AreTaken }

    // None of these is.
    ensures refused { AreRefused }
{}
