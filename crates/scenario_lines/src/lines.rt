//! A line outside of blocks.

ghost use Rattle.std.specs.Prelude.{◌≡◌};
ghost use Rattle.text_fields.specs.Lines.{fields};
ghost use Rattle.scenario_lines.specs.Rules.{Exactly};
ghost use Rattle.scenario_lines.specs.Forms.{line_view};
ghost use Rattle.scenario_lines.specs.Lines.{by_word, line_of};

use crate::forms::{
    Line, bare_line, capacities_line, code_line, image_line, kernel_line, memory_line, right_line,
    row_line, space_line, thread_line, word_line,
};
use text_fields::{are_plain, is, next_field, without_comment};

// By the line's word, and the bytes behind it.
#[tactic(auto, unfolding(crate::specs::Lines::by_word))]
fn by_word<'a>(name: &[u8], line: &'a [u8]) -> Result<Line<'a>, u32>
    ensures { Exactly line_view result (by_word name.now (fields line.now)) }
{
    if is(name, b"mem") {
        memory_line(line)
    } else if is(name, b"caps") {
        capacities_line(line)
    } else if is(name, b"kernel") {
        kernel_line(line)
    } else if is(name, b"right") {
        right_line(line)
    } else if is(name, b"space") {
        space_line(line)
    } else if is(name, b"thread") {
        thread_line(line)
    } else if is(name, b"map") {
        row_line(line)
    } else if is(name, b"word") {
        word_line(line)
    } else if is(name, b"code") {
        code_line(line)
    } else if is(name, b"endcode") {
        bare_line(Line::EndCode, line)
    } else if is(name, b"elf") {
        image_line(line)
    } else if is(name, b"endelf") {
        bare_line(Line::EndImage, line)
    } else if is(name, b"end") {
        bare_line(Line::End, line)
    } else {
        Err(2)
    }
}

/// What a line outside of blocks says, without its line feed; or the first of the rules 1 to 4 that it breaks. It takes
/// time for the bytes of the line.
#[tactic(auto, unfolding(crate::specs::Lines::line_of))]
pub fn read_line(line: &[u8]) -> Result<Line<'_>, u32>
    ensures { Exactly line_view result (line_of line.now) }
{
    let text = without_comment(line);
    if !are_plain(text) {
        return Err(1);
    }
    match next_field(text) {
        None => Ok(Line::Blank),
        Some((name, rest)) => by_word(name, rest),
    }
}
