//! How many fields a line has behind its word, and which options.

ghost use Rattle.std.specs.Prelude.{◌≡◌, ◌<◌, length, IfOk};
ghost use Rattle.text_fields.specs.Lines.{fields};
ghost use Rattle.scenario_lines.specs.Rules.{Exactly};
ghost use Rattle.scenario_lines.specs.Shapes.{next, no_more, single, pair, triple, quadruple, option, locks, thread_fields, row_fields, word_fields};
ghost use Rattle.scenario_lines.specs.ShapeViews.{thread_view, row_view};

use text_fields::{four, is, is_blank, next_field, one, three, two};

/// The next field, and the bytes behind it.
#[tactic(auto, unfolding(crate::specs::Shapes::next))]
pub(crate) fn next(line: &[u8]) -> Result<(&[u8], &[u8]), u32>
    ensures { Exactly (λ x. (x.0.now, fields x.1.now)) result (next (fields line.now)) }
{
    match next_field(line) {
        Some(parts) => Ok(parts),
        None => Err(3),
    }
}

/// Nothing, where no field is left.
#[tactic(auto, unfolding(crate::specs::Shapes::no_more))]
pub(crate) fn no_more(line: &[u8]) -> Result<(), u32>
    ensures { result ≡ no_more (fields line.now) }
{
    if is_blank(line) { Ok(()) } else { Err(3) }
}

/// The only field.
#[tactic(auto, unfolding(crate::specs::Shapes::single))]
pub(crate) fn single(line: &[u8]) -> Result<&[u8], u32>
    ensures { Exactly (λ x. x.now) result (single (fields line.now)) }
{
    match one(line) {
        Some(field) => Ok(field),
        None => Err(3),
    }
}

/// The two fields.
#[tactic(auto, unfolding(crate::specs::Shapes::pair))]
pub(crate) fn pair(line: &[u8]) -> Result<(&[u8], &[u8]), u32>
    ensures { Exactly (λ x. (x.0.now, x.1.now)) result (pair (fields line.now)) }
{
    match two(line) {
        Some(parts) => Ok(parts),
        None => Err(3),
    }
}

/// The three fields.
#[tactic(auto, unfolding(crate::specs::Shapes::triple))]
pub(crate) fn triple(line: &[u8]) -> Result<(&[u8], &[u8], &[u8]), u32>
    ensures { Exactly (λ x. (x.0.now, x.1.now, x.2.now)) result (triple (fields line.now)) }
{
    match three(line) {
        Some(parts) => Ok(parts),
        None => Err(3),
    }
}

/// The four fields.
#[tactic(auto, unfolding(crate::specs::Shapes::quadruple))]
pub(crate) fn quadruple(line: &[u8]) -> Result<(&[u8], &[u8], &[u8], &[u8]), u32>
    ensures { Exactly (λ x. (x.0.now, x.1.now, x.2.now, x.3.now)) result (quadruple (fields line.now)) }
{
    match four(line) {
        Some(parts) => Ok(parts),
        None => Err(3),
    }
}

/// The field behind an option's name, where that comes next, and the bytes behind it. An option that is left out
/// has no bytes.
#[tactic(auto, unfolding(crate::specs::Shapes::option))]
fn option<'a>(name: &[u8], line: &'a [u8]) -> Result<(&'a [u8], &'a [u8]), u32>
    ensures { Exactly (λ x. (x.0.now, fields x.1.now)) result (option name.now (fields line.now)) }
{
    match next_field(line) {
        None => Ok((b"", line)),
        Some((first, behind)) => {
            if is(first, name) {
                next(behind)
            } else {
                Ok((b"", line))
            }
        }
    }
}

/// The four fields behind `locks`, which have no bytes where the option is left out.
#[tactic(auto, unfolding(crate::specs::Shapes::locks))]
pub(crate) fn locks(line: &[u8]) -> Result<(&[u8], &[u8], &[u8], &[u8]), u32>
    ensures { Exactly (λ x. (x.0.now, x.1.now, x.2.now, x.3.now)) result (locks (fields line.now)) }
{
    match next_field(line) {
        None => Ok((b"", b"", b"", b"")),
        Some((first, behind)) => {
            if is(first, b"locks") {
                quadruple(behind)
            } else {
                Err(3)
            }
        }
    }
}

/// The fields of a thread; the last three are options.
#[derive(Clone, Copy)]
pub(crate) struct ThreadFields<'a> {
    pub no: &'a [u8],
    pub space: &'a [u8],
    pub pc: &'a [u8],
    pub priority: &'a [u8],
    pub a0: &'a [u8],
    pub a1: &'a [u8],
}

#[tactic(auto, unfolding(crate::specs::Shapes::thread_fields))]
pub(crate) fn thread_fields(line: &[u8]) -> Result<ThreadFields<'_>, u32>
    ensures { Exactly thread_view result (thread_fields (fields line.now)) }
{
    let (no, rest) = next(line)?;
    let (space, rest) = next(rest)?;
    let (pc, rest) = next(rest)?;
    let (priority, rest) = option(b"prio", rest)?;
    let (a0, rest) = option(b"a0", rest)?;
    let (a1, rest) = option(b"a1", rest)?;
    no_more(rest)?;
    Ok(ThreadFields {
        no,
        space,
        pc,
        priority,
        a0,
        a1,
    })
}

/// The fields of a row; the last is an option.
#[derive(Clone, Copy)]
pub(crate) struct RowFields<'a> {
    pub space: &'a [u8],
    pub vpn: &'a [u8],
    pub frame: &'a [u8],
    pub flags: &'a [u8],
    pub signal: &'a [u8],
}

#[tactic(auto, unfolding(crate::specs::Shapes::row_fields))]
pub(crate) fn row_fields(line: &[u8]) -> Result<RowFields<'_>, u32>
    ensures { Exactly row_view result (row_fields (fields line.now)) }
{
    let (space, rest) = next(line)?;
    let (vpn, rest) = next(rest)?;
    let (frame, rest) = next(rest)?;
    let (flags, rest) = next(rest)?;
    let (signal, rest) = option(b"signal", rest)?;
    no_more(rest)?;
    Ok(RowFields {
        space,
        vpn,
        frame,
        flags,
        signal,
    })
}

/// A frame, an offset, and the bytes with the words, of which there is one or more.
#[tactic(auto, unfolding(crate::specs::Shapes::word_fields))]
pub(crate) fn word_fields(line: &[u8]) -> Result<(&[u8], &[u8], &[u8]), u32>
    ensures { Exactly (λ x. (x.0.now, x.1.now, fields x.2.now)) result (word_fields (fields line.now)) }
{
    let (frame, rest) = next(line)?;
    let (offset, rest) = next(rest)?;
    let (_, _) = next(rest)?;
    Ok((frame, offset, rest))
}
