//! A line within a block.

ghost use Rattle.std.specs.Prelude.{◌≡◌};
ghost use Rattle.std.specs.List.{list_all};
ghost use Rattle.hex.specs.Hex.{is_hex_digit};
ghost use Rattle.scenario_lines.specs.Rules.{Exactly};
ghost use Rattle.scenario_lines.specs.Lines.{code_line_of, code_line_view, are_bytes, image_line_of, image_line_view};

use text_fields::{are_plain, is, is_blank, one, without_comment};

/// What a line of a block of code says.
#[derive(Clone, Copy)]
pub enum CodeLine<'a> {
    /// Nothing: it has no fields.
    Blank,
    /// A label or an instruction, or what is neither: the line without its comment, in which tabs count as spaces.
    Code(&'a [u8]),
    /// The block ends.
    End,
}

/// What a line of a block of code says, without its line feed; or rule 1, if it breaks that one. It takes time for
/// the bytes of the line.
#[tactic(auto, unfolding(crate::specs::Lines::code_line_of))]
pub fn read_code_line(line: &[u8]) -> Result<CodeLine<'_>, u32>
    ensures { Exactly code_line_view result (code_line_of line.now) }
{
    let text = without_comment(line);
    if !are_plain(text) {
        return Err(1);
    }
    if is_blank(text) {
        return Ok(CodeLine::Blank);
    }
    match one(text) {
        Some(field) => {
            if is(field, b"endcode") {
                Ok(CodeLine::End)
            } else {
                Ok(CodeLine::Code(text))
            }
        }
        None => Ok(CodeLine::Code(text)),
    }
}

/// What a line of a block of an executable says.
#[derive(Clone, Copy)]
pub enum ImageLine<'a> {
    /// Nothing: it has no fields.
    Blank,
    /// The next bytes of the executable, 1 to 64, each as two hexadecimal digits of either case.
    Bytes(&'a [u8]),
    /// The block ends.
    End,
}

fn is_hex_digit(byte: u8) -> bool
    ensures { result ≡ is_hex_digit byte }
{
    matches!(byte, b'0'..=b'9' | b'a'..=b'f' | b'A'..=b'F')
}

fn are_hex_digits(field: &[u8]) -> bool
    ensures { result ≡ list_all is_hex_digit field.now }
{
    field.iter().all(|byte| is_hex_digit(*byte))
}

// Whether the field is two digits for each of 1 to 64 bytes.
fn are_bytes(field: &[u8]) -> bool
    ensures { result ≡ are_bytes field.now }
{
    field.len() % 2 == 0 && field.len() >= 2 && field.len() <= 128 && are_hex_digits(field)
}

/// What a line of a block of an executable says, without its line feed; or the first of the rules 1 and 26 that it
/// breaks: rule 26 where it isn't one field of an even number of 2 to 128 hexadecimal digits. It takes time for the
/// bytes of the line.
#[tactic(auto, unfolding(crate::specs::Lines::image_line_of))]
pub fn read_image_line(line: &[u8]) -> Result<ImageLine<'_>, u32>
    ensures { Exactly image_line_view result (image_line_of line.now) }
{
    let text = without_comment(line);
    if !are_plain(text) {
        return Err(1);
    }
    if is_blank(text) {
        return Ok(ImageLine::Blank);
    }
    let Some(field) = one(text) else {
        return Err(26);
    };
    if is(field, b"endelf") {
        Ok(ImageLine::End)
    } else if are_bytes(field) {
        Ok(ImageLine::Bytes(field))
    } else {
        Err(26)
    }
}
