//! Runs the scenario on standard input and writes its report to standard output.
#![tactic(auto)]

use byte_ports::{FromRead, ToWrite};
use proc_run::{NoGate, RunStatus, program_words, run_machine};
use std::process::ExitCode;

fn main(rt: HostRuntime) -> ExitCode {
    let Ok(words) = program_words(&rt) else {
        return ExitCode::from(RunStatus::NoMemory.exit_status());
    };
    let mut source = FromRead::new(rt.stdin());
    let mut sink = ToWrite::new(rt.stdout());
    let outcome = run_machine(&rt, rt.alloc(), &words, &mut source, &mut sink, &NoGate);
    ExitCode::from(outcome.status.exit_status())
}
