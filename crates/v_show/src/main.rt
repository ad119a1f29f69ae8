//! A journal as a picture: reads a scenario with a journal behind it from standard input, checks the journal, and writes a page that
//! shows it to standard output.
#![tactic(auto)]

mod endings;
mod machine;
mod options;

use byte_ports::{FromRead, ToWrite};
use endings::Ending;
use machine::run_show;
use run_words::program_words;
use std::process::ExitCode;

fn main(rt: HostRuntime) -> ExitCode {
    let Ok(words) = program_words(&rt) else {
        return ExitCode::from(Ending::NoMemory.exit_status());
    };
    let mut source = FromRead::new(rt.stdin());
    let mut sink = ToWrite::new(rt.stdout());
    let ending = run_show(rt.alloc(), &words, &mut source, &mut sink);
    ExitCode::from(ending.exit_status())
}
