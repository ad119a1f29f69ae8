//! The numbers that fields write.

ghost use Rattle.std.specs.Prelude.{◌≡◌, ◌<◌, ◌++◌, IfSome, OnOk};
ghost use Rattle.text_fields.specs.Reading.{Gives, after};
ghost use Rattle.text_fields.specs.Numbers.{digit, digits_from, digits, number, word, word_text};

use std::alloc::AllocError;

/// What follows the text, where the bytes begin with it.
#[tactic(auto, unfolding(crate::specs::Reading::after))]
pub fn skip<'a>(bytes: &'a [u8], text: &[u8]) -> Option<&'a [u8]>
    ensures { Gives (λ x. x.now) result (after text.now bytes.now) }
{
    bytes.strip_prefix(text)
}

/// The value of a digit of either case in a base of at most 16; none where the byte is no digit of that base.
#[tactic(auto, unfolding(crate::specs::Numbers::digit))]
pub fn digit(base: u32, byte: u8) -> Option<u32>
    ensures is { result ≡ digit base byte }
    ensures below { IfSome result (λ d. d < base) }
{
    let value = match byte {
        b'0'..=b'9' => byte - b'0',
        b'a'..=b'f' => byte - b'a' + 10,
        b'A'..=b'F' => byte - b'A' + 10,
        _ => return None,
    };
    let value = u32::from(value);
    if value < base { Some(value) } else { None }
}

// The number that the digits write, none where it needs more than 32 bits.
#[tactic(auto, unfolding(crate::specs::Numbers::digits_from))]
fn digits_from(base: u32, bytes: &[u8]) -> Option<u32>
    ensures { result ≡ digits_from base 0 bytes.now }
{
    let mut number: u32 = 0;
    let mut rest = bytes;
    while let [byte, more @ ..] = rest {
        let longer = u64::from(base) * u64::from(number) + u64::from(digit(base, *byte)?);
        if longer > u64::from(u32::MAX) {
            return None;
        }
        number = longer as u32;
        rest = more;
    }
    Some(number)
}

// At least and at most so many digits.
#[tactic(auto, unfolding(crate::specs::Numbers::digits))]
fn digits(base: u32, least: usize, most: usize, bytes: &[u8]) -> Option<u32>
    ensures { result ≡ digits base least most bytes.now }
{
    if bytes.len() < least || bytes.len() > most {
        return None;
    }
    digits_from(base, bytes)
}

/// A number of 32 bits: one to ten decimal digits, or `0x` and one to eight hexadecimal ones of either case. None
/// where the field is anything else, or the number is above 4,294,967,295.
#[tactic(auto, unfolding(crate::specs::Numbers::number))]
pub fn number(field: &[u8]) -> Option<u32>
    ensures { result ≡ number field.now }
{
    match skip(field, b"0x") {
        Some(hexadecimal) => digits(16, 1, 8, hexadecimal),
        None => digits(10, 1, 10, field),
    }
}

/// The number that exactly eight hexadecimal digits of either case write; none where the field is anything else.
#[tactic(auto, unfolding(crate::specs::Numbers::word))]
pub fn word(field: &[u8]) -> Option<u32>
    ensures { result ≡ word field.now }
{
    digits(16, 8, 8, field)
}

/// Adds the eight hexadecimal digits of a word, in lower case.
#[tactic(auto, unfolding(crate::specs::Numbers::word_text))]
pub fn put_word(out: &mut Vec<u8>, value: u32) -> Result<(), AllocError>
    ensures { OnOk result (out.new.items ≡ out.old.items ++ word_text value) }
{
    let mut digits = [0; 8];
    let _ = hex::encode_to_slice(value.to_be_bytes(), &mut digits);
    out.extend_from_slice(&digits)
}
