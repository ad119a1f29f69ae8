//! A block of lines to its words, or to its first fault.

ghost use Rattle.std.specs.Prelude.{◌≡◌, ◌+◌, ◌<◌, ◌^◌, ◌⊎◌, ◌≤ℤ◌, [], Ok, Err, MatchResult, IfSome};
ghost use Rattle.std.specs.Option.{option_map};
ghost use Rattle.rv32_isa.specs.Table.{LiesFrom, IsValid, word_of};
ghost use Rattle.rv32_asm.specs.declared.fault.AsmFault.TheVariants.{NoMemory};
ghost use Rattle.rv32_asm.specs.Fields.{where_in};
ghost use Rattle.rv32_asm.specs.Aims.{IsAim, least, greatest, aimed, reaching};
ghost use Rattle.rv32_asm.specs.Line.{line_of, code_of, IsEven, IsTarget, target_view};
ghost use Rattle.rv32_asm.specs.Labels.{marks_of};
ghost use Rattle.rv32_asm.specs.Block.{Answers, Exactly, spelt, start, behind, distance, word_or_far, to_target, code_word, first_or_twice, line_words, words_from, with_front, block};

use crate::fault::AsmFault;
use crate::forms::Aim;
use crate::labels::{Mark, labels, next_line};
use crate::line::{Statement, Target, code_of, label};
use rv32_isa::{Instr, encode};
use std::alloc::Global;
use std::collections::BTreeMap;

// The instruction over a distance in reach.
#[tactic(auto, unfolding(rv32_isa::specs::Table::IsValid))]
fn aimed(aim: Aim, imm: i32) -> Instr
    requires sound { IsAim aim }
    requires even { IsEven imm }
    requires low { least aim ≤ℤ imm }
    requires high { imm ≤ℤ greatest aim }
    ensures is { result ≡ aimed aim imm }
    ensures valid { IsValid result }
{
    match aim {
        Aim::Jal { rd } => Instr::Jal { rd, imm },
        Aim::Beq { rs1, rs2 } => Instr::Beq { rs1, rs2, imm },
        Aim::Bne { rs1, rs2 } => Instr::Bne { rs1, rs2, imm },
        Aim::Blt { rs1, rs2 } => Instr::Blt { rs1, rs2, imm },
        Aim::Bge { rs1, rs2 } => Instr::Bge { rs1, rs2, imm },
        Aim::Bltu { rs1, rs2 } => Instr::Bltu { rs1, rs2, imm },
        Aim::Bgeu { rs1, rs2 } => Instr::Bgeu { rs1, rs2, imm },
    }
}

// The least and the greatest distance that the instruction can go.
fn bounds(aim: Aim) -> (i32, i32)
    ensures least { result.0 ≡ least aim }
    ensures greatest { result.1 ≡ greatest aim }
{
    match aim {
        Aim::Jal { .. } => (-1_048_576, 1_048_574),
        Aim::Beq { .. } => (-4096, 4094),
        Aim::Bne { .. } => (-4096, 4094),
        Aim::Blt { .. } => (-4096, 4094),
        Aim::Bge { .. } => (-4096, 4094),
        Aim::Bltu { .. } => (-4096, 4094),
        Aim::Bgeu { .. } => (-4096, 4094),
    }
}

// The distance, where it lies in that range.
fn within(least: i32, greatest: i32, distance: i128) -> Option<i32>
    ensures is { result ≡ where_in least greatest distance }
    ensures range { IfSome result (LiesFrom least greatest) }
    ensures same { IfSome result (λ z. z ≡ distance) }
{
    if distance < i128::from(least) || distance > i128::from(greatest) {
        return None;
    }
    Some(distance as i32)
}

// The word of the instruction over the distance, where it is in reach.
#[tactic(auto, unfolding(crate::specs::Aims::reaching))]
fn reach(aim: Aim, distance: i128) -> Option<u32>
    requires sound { IsAim aim }
    requires even { IsEven distance }
    ensures { result ≡ option_map word_of (reaching aim distance) }
{
    let (least, greatest) = bounds(aim);
    let imm = within(least, greatest, distance)?;
    Some(encode(aimed(aim, imm)))
}

// How many bytes it is from one word to another.
fn distance(here: u64, there: u64) -> i128
    ensures is { result ≡ distance here there }
    ensures even { IsEven result }
{
    4 * i128::from(there) - 4 * i128::from(here)
}

fn over(at: Mark, aim: Aim, distance: i128) -> Result<u32, AsmFault>
    requires sound { IsAim aim }
    requires even { IsEven distance }
    ensures { Exactly (λ w. w) result (word_or_far at (reaching aim distance)) }
{
    match reach(aim, distance) {
        Some(word) => Ok(word),
        None => Err(AsmFault::OutOfReach { line: at.line }),
    }
}

fn to_target(
    labels: &BTreeMap<&[u8], Mark>,
    at: Mark,
    aim: Aim,
    target: Target<'_>,
) -> Result<u32, AsmFault>
    requires sound { IsAim aim }
    requires even { IsTarget target }
    ensures { Exactly (λ w. w) result (to_target (marks_of labels.now) at aim (target_view target.entry)) }
{
    match target {
        Target::Distance(bytes) => over(at, aim, i128::from(bytes)),
        Target::Name(name) => match labels.get(name) {
            Some(there) => over(at, aim, distance(at.word, there.word)),
            None => Err(AsmFault::NoLabel { line: at.line }),
        },
    }
}

// The word of a line of code.
fn code(labels: &BTreeMap<&[u8], Mark>, at: Mark, line: &[u8]) -> Result<u32, AsmFault>
    ensures { Exactly (λ w. w) result (code_word (marks_of labels.now) at (code_of line.now)) }
{
    match code_of(line) {
        None => Err(AsmFault::BadLine { line: at.line }),
        Some(Statement::Word(word)) => Ok(word),
        Some(Statement::To { aim, target }) => to_target(labels, at, aim, target),
    }
}

// Whether the label is defined here first.
fn first(labels: &BTreeMap<&[u8], Mark>, at: Mark, name: &[u8]) -> Result<(), AsmFault>
    ensures { Exactly (λ _. []) result (first_or_twice at (marks_of labels.now name.now)) }
{
    match labels.get(name) {
        Some(mark) => {
            if mark.line == at.line {
                Ok(())
            } else {
                Err(AsmFault::TwiceLabel { line: at.line })
            }
        }
        None => Ok(()),
    }
}

// Appends what the line adds, and answers the place behind it.
fn put(
    words: &mut Vec<u32>,
    labels: &BTreeMap<&[u8], Mark>,
    at: Mark,
    line: &[u8],
    room: u32,
) -> Result<Mark, AsmFault>
    requires lines { at.line + 1 < 2 ^ 64 }
    requires words { at.word + 1 < 2 ^ 64 }
    ensures { MatchResult result (λ next. (next ≡ behind at (line_of line.now)) × (with_front words.old.items (line_words room (marks_of labels.now) at (line_of line.now)) ≡ Ok words.new.items)) (λ e. (e ≡ NoMemory) ⊎ (line_words room (marks_of labels.now) at (line_of line.now) ≡ Err e)) }
{
    match label(line) {
        Some(name) => {
            first(labels, at, name)?;
            Ok(Mark {
                line: at.line + 1,
                word: at.word,
            })
        }
        None => {
            if at.word >= u64::from(room) {
                return Err(AsmFault::Room { line: at.line });
            }
            let word = code(labels, at, line)?;
            words.push(word)?;
            Ok(Mark {
                line: at.line + 1,
                word: at.word + 1,
            })
        }
    }
}

// The words of all lines, where the labels are known.
fn words(
    alloc: Global,
    block: &[u8],
    labels: &BTreeMap<&[u8], Mark>,
    room: u32,
) -> Result<Vec<u32>, AsmFault>
    ensures { Answers (λ v. v.items) result (words_from room (marks_of labels.now) start (spelt block.now)) }
{
    let mut words = Vec::new(alloc);
    let mut at = Mark { line: 0, word: 0 };
    let mut rest = block;
    while !rest.is_empty() {
        let (line, more) = next_line(rest);
        at = put(&mut words, labels, at, line, room)?;
        rest = more;
    }
    Ok(words)
}

/// The words of a block of lines, of which `room` words fit, or its first fault.
///
/// Each line ends with a line feed, which the last may lack. There are no blank lines and no comments, and a
/// tab is no space. A line of code takes one word, a label none. It goes through the text twice: once for the
/// labels, and once for the words; each label costs the logarithm of their number.
pub fn assemble(alloc: Global, text: &str, room: u32) -> Result<Vec<u32>, AsmFault>
    // The words that the block means, or its first fault, unless memory runs out.
    ensures { Answers (λ v. v.items) result (block room text.now) }
{
    let bytes = text.as_bytes();
    let labels = labels(alloc, bytes)?;
    words(alloc, bytes, &labels, room)
}
