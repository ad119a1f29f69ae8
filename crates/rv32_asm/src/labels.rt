//! The lines of a block, and where its labels are defined.

ghost use Rattle.std.specs.Prelude.{◌≡◌, ℕ, ◌+◌, ◌<◌, ◌^◌, List, ◌∷◌, length, OnOk, IfOk, MatchResult, if◌then◌else◌};
ghost use Rattle.std.specs.Str.{bytes_eq};
ghost use Rattle.rv32_asm.specs.declared.fault.AsmFault.TheVariants.{NoMemory};
ghost use Rattle.rv32_asm.specs.Forms.{or_else};
ghost use Rattle.rv32_asm.specs.Line.{line_of};
ghost use Rattle.rv32_asm.specs.Labels.{marks_of};
ghost use Rattle.rv32_asm.specs.Block.{lines, spelt, start, behind, defines, first_mark};

use crate::fault::AsmFault;
use crate::fields::cut;
use crate::line::label;
use std::alloc::Global;
use std::collections::BTreeMap;

/// A place in a block: how many lines and how many words stand before it.
#[derive(Clone, Copy)]
pub(crate) struct Mark {
    pub line: u64,
    pub word: u64,
}

/// The first line, and the bytes behind it.
pub(crate) fn next_line(bytes: &[u8]) -> (&[u8], &[u8])
    requires { 0 < length bytes.now }
    ensures first { lines bytes.now ≡ result.0.now ∷ lines result.1.now }
    ensures shorter { length result.1.now < length bytes.now }
{
    match cut(bytes, b'\n') {
        Some((line, rest)) => (line, rest),
        None => (bytes, b""),
    }
}

// Binds the label to the place, where no earlier line does.
fn define<'a>(
    labels: &mut BTreeMap<&'a [u8], Mark>,
    name: &'a [u8],
    at: Mark,
) -> Result<(), AsmFault>
    ensures bound { OnOk result ((q : List ℕ) → marks_of labels.new q ≡ or_else (marks_of labels.old q) (if bytes_eq name.now q then Some at else None)) }
    ensures only { MatchResult result (λ _. Unit {0}) (λ e. e ≡ NoMemory) }
{
    if !labels.contains_key(name) {
        labels.insert(name, at)?;
    }
    Ok(())
}

// Binds the label of a line to its place, and answers the place behind the line.
fn pass_line<'a>(
    labels: &mut BTreeMap<&'a [u8], Mark>,
    line: &'a [u8],
    at: Mark,
) -> Result<Mark, AsmFault>
    requires lines { at.line + 1 < 2 ^ 64 }
    requires words { at.word + 1 < 2 ^ 64 }
    ensures bound { IfOk result (λ next. (next ≡ behind at (line_of line.now)) × ((q : List ℕ) → marks_of labels.new q ≡ or_else (marks_of labels.old q) (if defines (line_of line.now) q then Some at else None))) }
    ensures only { MatchResult result (λ _. Unit {0}) (λ e. e ≡ NoMemory) }
{
    match label(line) {
        Some(name) => {
            define(labels, name, at)?;
            Ok(Mark {
                line: at.line + 1,
                word: at.word,
            })
        }
        None => Ok(Mark {
            line: at.line + 1,
            word: at.word + 1,
        }),
    }
}

/// Where each label of the block is defined first.
pub(crate) fn labels(alloc: Global, block: &[u8]) -> Result<BTreeMap<&[u8], Mark>, AsmFault>
    ensures found { IfOk result (λ m. (q : List ℕ) → marks_of m q ≡ first_mark start (spelt block.now) q) }
    ensures only { MatchResult result (λ _. Unit {0}) (λ e. e ≡ NoMemory) }
{
    let mut labels = BTreeMap::new(alloc);
    let mut at = Mark { line: 0, word: 0 };
    let mut rest = block;
    while !rest.is_empty() {
        let (line, more) = next_line(rest);
        at = pass_line(&mut labels, line, at)?;
        rest = more;
    }
    Ok(labels)
}
