//! The fields of a line, which one or more spaces or tabs divide.

ghost use Rattle.std.specs.Prelude.{◌≡◌, ◌<◌, ◌==◌, length, [], IfSome};
ghost use Rattle.std.specs.List.{position};
ghost use Rattle.text_fields.specs.Reading.{Gives, first_of};
ghost use Rattle.text_fields.specs.Lines.{fields, is_space, skip_spaces, one, two, three, four};

use crate::lines::around;

/// Whether the byte is a space or a tab.
pub fn is_space(byte: u8) -> bool
    ensures { result ≡ is_space byte }
{
    byte == b' ' || byte == b'\t'
}

fn first_space(bytes: &[u8]) -> Option<usize>
    ensures is { result ≡ position is_space bytes.now }
    ensures within { IfSome result (λ i. i < length bytes.now) }
{
    bytes.iter().position(|byte| is_space(*byte))
}

// From the first byte on that is no space.
#[tactic(auto, unfolding(crate::specs::Lines::skip_spaces))]
fn skip_spaces(bytes: &[u8]) -> &[u8]
    ensures { result.now ≡ skip_spaces bytes.now }
{
    let mut rest = bytes;
    while let [first, more @ ..] = rest {
        if !is_space(*first) {
            return rest;
        }
        rest = more;
    }
    rest
}

/// The first field, and the bytes behind it; none where the bytes have no field. It takes time for that field
/// and the spaces before it.
pub fn next_field(bytes: &[u8]) -> Option<(&[u8], &[u8])>
    ensures is { Gives (λ x. (x.0.now, fields x.1.now)) result (first_of (fields bytes.now)) }
    ensures shorter { IfSome result (λ x. length x.1.now < length bytes.now) }
{
    let rest = skip_spaces(bytes);
    if rest.is_empty() {
        return None;
    }
    match first_space(rest) {
        Some(at) => Some(around(rest, at)),
        None => Some((rest, b"")),
    }
}

/// Whether the bytes have no field.
pub fn is_blank(bytes: &[u8]) -> bool
    ensures { result ≡ (length (fields bytes.now) == 0) }
{
    next_field(bytes).is_none()
}

/// The only field of the bytes.
#[tactic(auto, unfolding(crate::specs::Lines::one))]
pub fn one(bytes: &[u8]) -> Option<&[u8]>
    ensures { Gives (λ x. x.now) result (one (fields bytes.now)) }
{
    let (a, rest) = next_field(bytes)?;
    if is_blank(rest) { Some(a) } else { None }
}

/// Both fields of bytes that have two.
#[tactic(auto, unfolding(crate::specs::Lines::two))]
pub fn two(bytes: &[u8]) -> Option<(&[u8], &[u8])>
    ensures { Gives (λ x. (x.0.now, x.1.now)) result (two (fields bytes.now)) }
{
    let (a, rest) = next_field(bytes)?;
    let b = one(rest)?;
    Some((a, b))
}

/// The fields of bytes that have three.
#[tactic(auto, unfolding(crate::specs::Lines::three))]
pub fn three(bytes: &[u8]) -> Option<(&[u8], &[u8], &[u8])>
    ensures { Gives (λ x. (x.0.now, x.1.now, x.2.now)) result (three (fields bytes.now)) }
{
    let (a, rest) = next_field(bytes)?;
    let (b, c) = two(rest)?;
    Some((a, b, c))
}

/// The fields of bytes that have four.
#[tactic(auto, unfolding(crate::specs::Lines::four))]
pub fn four(bytes: &[u8]) -> Option<(&[u8], &[u8], &[u8], &[u8])>
    ensures { Gives (λ x. (x.0.now, x.1.now, x.2.now, x.3.now)) result (four (fields bytes.now)) }
{
    let (a, rest) = next_field(bytes)?;
    let (b, c, d) = three(rest)?;
    Some((a, b, c, d))
}
