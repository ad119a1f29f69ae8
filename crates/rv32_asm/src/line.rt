//! What a line spells.

ghost use Rattle.std.specs.Prelude.{◌≡◌, IfSome};
ghost use Rattle.text_fields.specs.Reading.{Gives};
ghost use Rattle.rv32_asm.specs.Line.{target_view, statement_view, IsTarget, IsStatement, target_at, of_one, pair, triple, operation, name_and_rest, code_of, label_of};

use crate::fields::{cut, immediate, is, is_name, register, trim};
use crate::forms::{Aim, branch, of_three, of_two};
use rv32_isa::{Instr, encode};
use text_fields::number;

/// Where a jump or a branch goes.
#[derive(Clone, Copy)]
pub(crate) enum Target<'a> {
    Name(&'a [u8]),
    /// An even number of bytes from the instruction.
    Distance(i64),
}

/// What a line of code says: a word, or an instruction whose target is still to be found.
#[derive(Clone, Copy)]
pub(crate) enum Statement<'a> {
    Word(u32),
    To { aim: Aim, target: Target<'a> },
}

#[tactic(auto, unfolding(crate::specs::Line::target_at))]
fn target_at(bytes: &[u8]) -> Option<Target<'_>>
    ensures is { Gives target_view result (target_at bytes.now) }
    ensures sound { IfSome result IsTarget }
{
    if is_name(bytes) {
        return Some(Target::Name(bytes));
    }
    let distance = immediate(bytes)?;
    if distance.unsigned_abs() % 2 == 0 {
        Some(Target::Distance(distance))
    } else {
        None
    }
}

// A line without a comma.
#[tactic(auto, unfolding(crate::specs::Line::of_one, rv32_isa::specs::Table::IsValid))]
fn of_one(name: &[u8], rest: &[u8]) -> Option<u32>
    ensures { result ≡ of_one name.now rest.now }
{
    if is(name, b"ecall") {
        if rest.is_empty() {
            Some(encode(Instr::Ecall))
        } else {
            None
        }
    } else if is(name, b"ebreak") {
        if rest.is_empty() {
            Some(encode(Instr::Ebreak))
        } else {
            None
        }
    } else if is(name, b".word") {
        number(rest)
    } else {
        None
    }
}

#[tactic(auto, unfolding(crate::specs::Line::pair))]
fn pair<'a>(name: &[u8], a: &[u8], b: &'a [u8]) -> Option<Statement<'a>>
    ensures is { Gives statement_view result (pair name.now a.now b.now) }
    ensures sound { IfSome result IsStatement }
{
    if is(name, b"jal") {
        let rd = register(a)?;
        let target = target_at(b)?;
        let aim = Aim::Jal { rd };
        return Some(Statement::To { aim, target });
    }
    let instr = of_two(name, a, b)?;
    Some(Statement::Word(encode(instr)))
}

#[tactic(auto, unfolding(crate::specs::Line::triple))]
fn triple<'a>(name: &[u8], a: &[u8], b: &[u8], c: &'a [u8]) -> Option<Statement<'a>>
    ensures is { Gives statement_view result (triple name.now a.now b.now c.now) }
    ensures sound { IfSome result IsStatement }
{
    let x = register(a)?;
    let y = register(b)?;
    match branch(name, x, y) {
        Some(aim) => {
            let target = target_at(c)?;
            Some(Statement::To { aim, target })
        }
        None => {
            let instr = of_three(name, x, y, c)?;
            Some(Statement::Word(encode(instr)))
        }
    }
}

#[tactic(auto, unfolding(crate::specs::Line::operation))]
fn operation<'a>(name: &[u8], rest: &'a [u8]) -> Option<Statement<'a>>
    ensures is { Gives statement_view result (operation name.now rest.now) }
    ensures sound { IfSome result IsStatement }
{
    match cut(rest, b',') {
        None => {
            let word = of_one(name, rest)?;
            Some(Statement::Word(word))
        }
        Some((a, more)) => match cut(more, b',') {
            None => pair(name, trim(a), trim(more)),
            Some((b, c)) => triple(name, trim(a), trim(b), trim(c)),
        },
    }
}

#[tactic(auto, unfolding(crate::specs::Line::name_and_rest))]
fn name_and_rest(bytes: &[u8]) -> (&[u8], &[u8])
    ensures { (result.0.now, result.1.now) ≡ name_and_rest bytes.now }
{
    match cut(bytes, b' ') {
        Some((name, rest)) => (name, trim(rest)),
        None => (bytes, b""),
    }
}

/// What a line says that is no label.
#[tactic(auto, unfolding(crate::specs::Line::code_of))]
pub(crate) fn code_of(line: &[u8]) -> Option<Statement<'_>>
    ensures is { Gives statement_view result (code_of line.now) }
    ensures sound { IfSome result IsStatement }
{
    let (name, rest) = name_and_rest(trim(line));
    operation(name, rest)
}

/// The label that a line defines.
#[tactic(auto, unfolding(crate::specs::Line::label_of))]
pub(crate) fn label(line: &[u8]) -> Option<&[u8]>
    ensures { Gives (λ x. x.now) result (label_of line.now) }
{
    let (name, behind) = cut(trim(line), b':')?;
    if is_name(name) && behind.is_empty() {
        Some(name)
    } else {
        None
    }
}
