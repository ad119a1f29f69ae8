//! A line from its text.

ghost use Rattle.std.specs.Prelude.{◌≡◌, ◌++◌, List, ℕ, IfOk, MatchOption};
ghost use Rattle.drive_text.specs.declared.lines.Line.{Line};
ghost use Rattle.drive_text.specs.Lines.{line_text};
ghost use Rattle.drive_text.specs.Ranges.{IsInRange, BeginsWithNoLine};

use crate::NoMemory;
use crate::lines::Line;
use crate::ops::line_at;
use crate::printing::put_line;
use std::alloc::Global;
use text_fields::skip;

/// What the first line of a text says, and the text behind its line feed.
#[derive(Clone, Copy)]
pub struct ReadLine<'a> {
    pub line: Line,
    pub rest: &'a [u8],
}

/// Reads the line at the front of the bytes; none where no operation's line stands there, nor `journal`. A line has
/// its one form: fields with one space between them, numbers without leading zeros, and its line feed. So a blank
/// line, a comment and a last line without its line feed are none. It takes time and memory for that line alone.
pub fn read_line(alloc: Global, bytes: &[u8]) -> Result<Option<ReadLine<'_>>, NoMemory>
    // What is read stands at the front; nothing is where no line does.
    ensures found { IfOk result (λ found. MatchOption found (BeginsWithNoLine bytes.now) (λ first. bytes.now ≡ line_text first.line ++ first.rest.now)) }

    // Each line at the front is read as what it says, unless memory runs out.
    ensures only { (line : Line) (rest : List ℕ) → IsInRange line → bytes.now ≡ line_text line ++ rest → IfOk result (λ found. MatchOption found ⊥ (λ first. (first.line ≡ line) × (first.rest.now ≡ rest))) }
{
    let Some(line) = line_at(bytes) else {
        return Ok(None);
    };
    let mut text = Vec::new(alloc);
    put_line(&mut text, &line)?;
    match skip(bytes, text.as_slice()) {
        Some(rest) => Ok(Some(ReadLine { line, rest })),
        None => Ok(None),
    }
}
