//! The lines.

ghost use Rattle.std.specs.Prelude.{◌≡◌, IfOk};
ghost use Rattle.std.specs.String.{string_bytes};
ghost use Rattle.due_text.specs.Lines.{scenario_fault_line, too_long_line};

use std::alloc::{AllocError, Global};

/// What is written of an input that is too long.
pub fn too_long_line() -> &'static [u8]
    ensures { result.now ≡ too_long_line }
{
    b"too long\n"
}

/// What is written of a text that is no scenario: the line, counted from 1, and the number of the rule that it breaks.
pub fn scenario_fault_line(alloc: Global, line: u64, rule: u32) -> Result<String, AllocError>
    ensures { IfOk result (λ text. string_bytes text ≡ scenario_fault_line line rule) }
{
    format!(in alloc; "scenario fault line {line} rule {rule}\n")
}
