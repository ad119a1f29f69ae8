//! Tests of runs with few frames over stores that no program hands them: some of their calls fail, and what they count is asked for.
#![tactic(auto)]

#[cfg(test)]
mod runs_tests;
