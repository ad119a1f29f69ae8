//! What the fields of a line write.

ghost use Rattle.std.specs.Prelude.{◌≡◌};
ghost use Rattle.scenario_lines.specs.Values.{value, value_or, rights, mark, flags};

use phys_groups::Flags;
use text_fields::{is, number};

/// A number of 32 bits.
#[tactic(auto, unfolding(crate::specs::Values::value))]
pub(crate) fn value(field: &[u8]) -> Result<u32, u32>
    ensures { result ≡ value field.now }
{
    match number(field) {
        Some(value) => Ok(value),
        None => Err(4),
    }
}

/// The number of an option, and `default` where it is left out and has no bytes.
#[tactic(auto, unfolding(crate::specs::Values::value_or))]
pub(crate) fn value_or(default: u32, field: &[u8]) -> Result<u32, u32>
    ensures { result ≡ value_or default field.now }
{
    if field.is_empty() {
        Ok(default)
    } else {
        value(field)
    }
}

/// The right to read and the right to write.
#[tactic(auto, unfolding(crate::specs::Values::rights))]
pub(crate) fn rights(field: &[u8]) -> Result<(bool, bool), u32>
    ensures { result ≡ rights field.now }
{
    if is(field, b"r") {
        Ok((true, false))
    } else if is(field, b"w") {
        Ok((false, true))
    } else if is(field, b"rw") {
        Ok((true, true))
    } else if is(field, b"-") {
        Ok((false, false))
    } else {
        Err(4)
    }
}

// Whether the letter stands at the front, and what follows it.
fn mark(bytes: &[u8], letter: u8) -> (bool, &[u8])
    ensures { (result.0, result.1.now) ≡ mark letter bytes.now }
{
    match bytes {
        [first, rest @ ..] if *first == letter => (true, rest),
        _ => (false, bytes),
    }
}

/// At least one of the letters `r`, `w`, `x` and `m`, in that order.
#[tactic(auto, unfolding(crate::specs::Values::flags))]
pub(crate) fn flags(field: &[u8]) -> Result<Flags, u32>
    ensures { result ≡ flags field.now }
{
    let (r, rest) = mark(field, b'r');
    let (w, rest) = mark(rest, b'w');
    let (x, rest) = mark(rest, b'x');
    let (m, rest) = mark(rest, b'm');
    if field.is_empty() || !rest.is_empty() {
        return Err(4);
    }
    Ok(Flags { r, w, x, m })
}
