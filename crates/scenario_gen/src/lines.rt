//! The lines of a scenario.

ghost use Rattle.std.specs.Prelude.{◌≡◌, IfOk};
ghost use Rattle.std.specs.String.{string_bytes};
ghost use Rattle.scenario_gen.specs.Generated.{registers, right_line, space_line, thread_line, map_line};

use std::alloc::{AllocError, Global};

/// That a kernel may read and write a group.
#[tactic(auto, unfolding(crate::specs::Generated::right_line))]
pub(crate) fn right_line(alloc: Global, kernel: u32, group: u32) -> Result<String, AllocError>
    ensures { IfOk result (λ line. string_bytes line ≡ right_line kernel group) }
{
    format!(in alloc; "right {kernel} {group} rw\n")
}

/// A space of a kernel.
#[tactic(auto, unfolding(crate::specs::Generated::space_line))]
pub(crate) fn space_line(alloc: Global, space: u32, kernel: u32) -> Result<String, AllocError>
    ensures { IfOk result (λ line. string_bytes line ≡ space_line space kernel) }
{
    format!(in alloc; "space {space} {kernel}\n")
}

/// A thread: what its line says, in that order.
#[derive(Clone, Copy)]
pub(crate) struct Thread {
    pub thread: u32,
    pub space: u32,
    pub pc: u32,
    pub priority: u32,
    pub a0: u32,
    pub a1: u32,
}

#[tactic(auto, unfolding(crate::specs::Generated::registers))]
fn registers(alloc: Global, a0: u32, a1: u32) -> Result<String, AllocError>
    ensures { IfOk result (λ text. string_bytes text ≡ registers a0 a1) }
{
    format!(in alloc; " a0 {a0} a1 {a1}\n")
}

#[tactic(auto, unfolding(crate::specs::Generated::thread_line))]
pub(crate) fn thread_line(alloc: Global, t: Thread) -> Result<String, AllocError>
    ensures { IfOk result (λ line. string_bytes line ≡ thread_line t.thread t.space t.pc t.priority t.a0 t.a1) }
{
    let Thread {
        thread,
        space,
        pc,
        priority,
        a0,
        a1,
    } = t;
    let registers = registers(alloc, a0, a1)?;
    format!(in alloc; "thread {thread} {space} {pc} prio {priority}{registers}")
}

/// A row, with its flags and what stands behind them.
#[tactic(auto, unfolding(crate::specs::Generated::map_line))]
pub(crate) fn map_line(
    alloc: Global,
    space: u32,
    page: u32,
    frame: u32,
    flags: &str,
) -> Result<String, AllocError>
    ensures { IfOk result (λ line. string_bytes line ≡ map_line space page frame flags.now) }
{
    format!(in alloc; "map {space} {page} {frame} {flags}\n")
}
