//! The parts of a line, each read from all of its bytes.

ghost use Rattle.std.specs.Prelude.{◌≡◌, ◌<◌, ◌==◌, length, IfSome};
ghost use Rattle.std.specs.List.{position, list_all};
ghost use Rattle.std.specs.Str.{bytes_eq};
ghost use Rattle.rv32_isa.specs.Table.{LiesFrom};
ghost use Rattle.text_fields.specs.Numbers.{digit, number};
ghost use Rattle.text_fields.specs.Reading.{Gives, after};
ghost use Rattle.rv32_asm.specs.Fields.{cut, trim_front, trim_back, trim, immediate, immediate_in, short_number, lettered, numbered, register, bracketed, is_letter, is_name_byte, is_name};

use text_fields::{digit, number, skip};

fn place(bytes: &[u8], at: u8) -> Option<usize>
    ensures is { result ≡ position (λ b. b == at) bytes.now }
    ensures within { IfSome result (λ i. i < length bytes.now) }
{
    bytes.iter().position(|byte| *byte == at)
}

/// What stands before the first such byte, and what follows it.
#[tactic(auto, unfolding(crate::specs::Fields::cut))]
pub(crate) fn cut(bytes: &[u8], at: u8) -> Option<(&[u8], &[u8])>
    ensures { Gives (λ x. (x.0.now, x.1.now)) result (cut at bytes.now) }
{
    match place(bytes, at) {
        None => None,
        Some(i) => {
            let (front, _) = bytes.split_at(i);
            let (_, behind) = bytes.split_at(i + 1);
            Some((front, behind))
        }
    }
}

pub(crate) fn is(bytes: &[u8], text: &[u8]) -> bool
    ensures { result ≡ bytes_eq bytes.now text.now }
{
    bytes == text
}

#[tactic(auto, unfolding(crate::specs::Fields::trim_front))]
fn trim_front(bytes: &[u8]) -> &[u8]
    ensures { result.now ≡ trim_front bytes.now }
{
    let mut rest = bytes;
    while let [b' ', more @ ..] = rest {
        rest = more;
    }
    rest
}

#[tactic(auto, unfolding(crate::specs::Fields::trim_front))]
fn trim_back(bytes: &[u8]) -> &[u8]
    ensures { result.now ≡ trim_back bytes.now }
{
    let mut rest = bytes;
    while let [more @ .., b' '] = rest {
        rest = more;
    }
    rest
}

/// The bytes without the spaces at both ends.
pub(crate) fn trim(bytes: &[u8]) -> &[u8]
    ensures { result.now ≡ trim bytes.now }
{
    trim_back(trim_front(bytes))
}

/// A number with or without a minus.
#[tactic(auto, unfolding(crate::specs::Fields::immediate))]
pub(crate) fn immediate(bytes: &[u8]) -> Option<i64>
    ensures { result ≡ immediate bytes.now }
{
    match skip(bytes, b"-") {
        Some(minus) => Some(-i64::from(number(minus)?)),
        None => Some(i64::from(number(bytes)?)),
    }
}

/// An immediate in that range.
#[tactic(auto, unfolding(crate::specs::Fields::immediate_in))]
pub(crate) fn immediate_in(least: i32, greatest: i32, bytes: &[u8]) -> Option<i32>
    ensures is { result ≡ immediate_in least greatest bytes.now }
    ensures range { IfSome result (LiesFrom least greatest) }
{
    let number = immediate(bytes)?;
    if number < i64::from(least) || number > i64::from(greatest) {
        return None;
    }
    Some(number as i32)
}

// A number of one digit, or of two without a leading zero.
#[tactic(auto, unfolding(crate::specs::Fields::short_number))]
fn short_number(bytes: &[u8]) -> Option<u32>
    ensures is { result ≡ short_number bytes.now }
    ensures small { IfSome result (λ n. n < 100) }
{
    match bytes {
        [ones] => digit(10, *ones),
        [tens, ones] => {
            if *tens == b'0' {
                return None;
            }
            Some(10 * digit(10, *tens)? + digit(10, *ones)?)
        }
        _ => None,
    }
}

// The register that a letter and a number name.
#[tactic(auto, unfolding(crate::specs::Fields::lettered))]
fn lettered(letter: u8, number: u32) -> Option<u32>
    requires { number < 100 }
    ensures is { result ≡ lettered letter number }
    ensures range { IfSome result (λ r. r < 32) }
{
    if letter == b'x' && number < 32 {
        Some(number)
    } else if letter == b't' && number < 3 {
        Some(number + 5)
    } else if letter == b't' && number < 7 {
        Some(number + 25)
    } else if letter == b's' && number < 2 {
        Some(number + 8)
    } else if letter == b's' && number < 12 {
        Some(number + 16)
    } else if letter == b'a' && number < 8 {
        Some(number + 10)
    } else {
        None
    }
}

#[tactic(auto, unfolding(crate::specs::Fields::numbered))]
fn numbered(bytes: &[u8]) -> Option<u32>
    ensures is { result ≡ numbered bytes.now }
    ensures range { IfSome result (λ r. r < 32) }
{
    match bytes {
        [] => None,
        [letter, digits @ ..] => {
            let number = short_number(digits)?;
            lettered(*letter, number)
        }
    }
}

/// The number of a register, by any of its names.
#[tactic(auto, unfolding(crate::specs::Fields::register))]
pub(crate) fn register(bytes: &[u8]) -> Option<u32>
    ensures is { result ≡ register bytes.now }
    ensures range { IfSome result (λ r. r < 32) }
{
    if is(bytes, b"zero") {
        Some(0)
    } else if is(bytes, b"ra") {
        Some(1)
    } else if is(bytes, b"sp") {
        Some(2)
    } else if is(bytes, b"gp") {
        Some(3)
    } else if is(bytes, b"tp") {
        Some(4)
    } else if is(bytes, b"fp") {
        Some(8)
    } else {
        numbered(bytes)
    }
}

/// What stands before a register in brackets at the end, and that register.
#[tactic(auto, unfolding(crate::specs::Fields::bracketed))]
pub(crate) fn bracketed(bytes: &[u8]) -> Option<(&[u8], u32)>
    ensures is { Gives (λ x. (x.0.now, x.1)) result (bracketed bytes.now) }
    ensures range { IfSome result (λ x. x.1 < 32) }
{
    let (front, rest) = cut(bytes, b'(')?;
    let (inside, behind) = cut(rest, b')')?;
    let number = register(inside)?;
    if !behind.is_empty() {
        return None;
    }
    Some((front, number))
}

fn is_letter(byte: u8) -> bool
    ensures { result ≡ is_letter byte }
{
    matches!(byte, b'a'..=b'z' | b'A'..=b'Z' | b'_')
}

fn is_name_byte(byte: u8) -> bool
    ensures { result ≡ is_name_byte byte }
{
    is_letter(byte) || matches!(byte, b'0'..=b'9')
}

fn are_name_bytes(bytes: &[u8]) -> bool
    ensures { result ≡ list_all is_name_byte bytes.now }
{
    bytes.iter().all(|byte| is_name_byte(*byte))
}

/// Whether the bytes are a letter or `_`, and then letters, digits and `_`.
#[tactic(auto, unfolding(crate::specs::Fields::is_name))]
pub(crate) fn is_name(bytes: &[u8]) -> bool
    ensures { result ≡ is_name bytes.now }
{
    match bytes {
        [] => false,
        [first, rest @ ..] => is_letter(*first) && are_name_bytes(rest),
    }
}
