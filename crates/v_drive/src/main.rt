//! The board by hand: reads a scenario and then operations, a line each, from standard input, makes them on a board, and writes
//! their answers to standard output.
#![tactic(auto)]

mod endings;
mod hand;
mod machine;

use byte_ports::{FromRead, ToWrite};
use endings::Ending;
use machine::run_lines;
use run_words::program_words;
use std::process::ExitCode;

fn main(rt: HostRuntime) -> ExitCode {
    let Ok(words) = program_words(&rt) else {
        return ExitCode::from(Ending::NoMemory.exit_status());
    };
    let mut source = FromRead::new(rt.stdin());
    let mut sink = ToWrite::new(rt.stdout());
    let ending = run_lines(rt.alloc(), &words, &mut source, &mut sink);
    ExitCode::from(ending.exit_status())
}
