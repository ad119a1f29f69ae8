//! The line forms, each by the fields behind the line's word.

ghost use Rattle.std.specs.Prelude.{◌≡◌, map};
ghost use Rattle.std.specs.List.{list_all};
ghost use Rattle.text_fields.specs.Lines.{fields};
ghost use Rattle.scenario_lines.specs.Rules.{Exactly};
ghost use Rattle.scenario_lines.specs.Forms.{line_view, memory_line, amounts, capacities_line, limits, kernel_line, right_line, space_line, thread_line, receiver, row_line, is_word, words, word_value, word_line, code_line, image_line, bare_line};

use crate::shapes::{
    locks, next, no_more, pair, quadruple, row_fields, single, thread_fields, triple, word_fields,
};
use crate::values::{flags, rights, value, value_or};
use cache_ident::{Caps, Frame, KernelNo, SpaceNo, ThreadNo, Vpn};
use flat_state::Decl;
use text_fields::{next_field, word};

/// What a line outside of blocks says.
#[derive(Clone, Copy)]
pub enum Line<'a> {
    /// Nothing: it has no fields.
    Blank,
    /// How many page groups memory has.
    Memory {
        groups: u32,
    },
    /// How much each cache holds.
    Capacities(Caps),
    /// A kernel, a right, a space, a thread or a row is declared.
    Declares(Decl),
    /// Words stand in a frame from an offset on. `words` are the fields behind these: one or more, each of eight
    /// hexadecimal digits, divided by spaces and tabs.
    Words {
        frame: Frame,
        offset: u32,
        words: &'a [u8],
    },
    /// A block of code begins, whose words stand in a frame from an offset on.
    Code {
        frame: Frame,
        offset: u32,
    },
    /// A block of code ends.
    EndCode,
    /// A block of an executable begins: the space and the first frame of its rows, and its thread.
    Image {
        space: SpaceNo,
        frame: Frame,
        thread: ThreadNo,
    },
    /// A block of an executable ends.
    EndImage,
    /// The scenario ends.
    End,
}

/// `mem <groups>`
#[tactic(auto, unfolding(crate::specs::Forms::memory_line))]
pub(crate) fn memory_line(line: &[u8]) -> Result<Line<'_>, u32>
    ensures { Exactly line_view result (memory_line (fields line.now)) }
{
    let field = single(line)?;
    let groups = value(field)?;
    Ok(Line::Memory { groups })
}

#[tactic(auto, unfolding(crate::specs::Forms::amounts))]
fn amounts(four: (&[u8], &[u8], &[u8], &[u8])) -> Result<Caps, u32>
    ensures { result ≡ amounts (four.entry.0.now, four.entry.1.now, four.entry.2.now, four.entry.3.now) }
{
    let kernels = value(four.0)?;
    let spaces = value(four.1)?;
    let threads = value(four.2)?;
    let mappings = value(four.3)?;
    Ok(Caps {
        kernels,
        spaces,
        threads,
        mappings,
    })
}

/// `caps <kernels> <spaces> <threads> <mappings>`
#[tactic(auto, unfolding(crate::specs::Forms::capacities_line))]
pub(crate) fn capacities_line(line: &[u8]) -> Result<Line<'_>, u32>
    ensures { Exactly line_view result (capacities_line (fields line.now)) }
{
    let four = quadruple(line)?;
    let caps = amounts(four)?;
    Ok(Line::Capacities(caps))
}

// The lock limits of a kernel. Kernel 0 may lock one kernel, itself, where nothing else is said.
#[tactic(auto, unfolding(crate::specs::Forms::limits))]
fn limits(kernel: u32, four: (&[u8], &[u8], &[u8], &[u8])) -> Result<Caps, u32>
    ensures { result ≡ limits kernel (four.entry.0.now, four.entry.1.now, four.entry.2.now, four.entry.3.now) }
{
    let own = if kernel == 0 { 1 } else { 0 };
    let kernels = value_or(own, four.0)?;
    let spaces = value_or(0, four.1)?;
    let threads = value_or(0, four.2)?;
    let mappings = value_or(0, four.3)?;
    Ok(Caps {
        kernels,
        spaces,
        threads,
        mappings,
    })
}

/// `kernel <k> [locks <kernels> <spaces> <threads> <mappings>]`
#[tactic(auto, unfolding(crate::specs::Forms::kernel_line))]
pub(crate) fn kernel_line(line: &[u8]) -> Result<Line<'_>, u32>
    ensures { Exactly line_view result (kernel_line (fields line.now)) }
{
    let (field, rest) = next(line)?;
    let four = locks(rest)?;
    let no = value(field)?;
    let limits = limits(no, four)?;
    Ok(Line::Declares(Decl::Kernel {
        no: KernelNo(no),
        limits,
    }))
}

/// `right <kernel> <group> <rights>`
#[tactic(auto, unfolding(crate::specs::Forms::right_line))]
pub(crate) fn right_line(line: &[u8]) -> Result<Line<'_>, u32>
    ensures { Exactly line_view result (right_line (fields line.now)) }
{
    let (kernel, group, right) = triple(line)?;
    let kernel = value(kernel)?;
    let group = value(group)?;
    let (read, write) = rights(right)?;
    Ok(Line::Declares(Decl::Right {
        kernel: KernelNo(kernel),
        group,
        read,
        write,
    }))
}

/// `space <s> <kernel>`
#[tactic(auto, unfolding(crate::specs::Forms::space_line))]
pub(crate) fn space_line(line: &[u8]) -> Result<Line<'_>, u32>
    ensures { Exactly line_view result (space_line (fields line.now)) }
{
    let (no, kernel) = pair(line)?;
    let no = value(no)?;
    let kernel = value(kernel)?;
    Ok(Line::Declares(Decl::Space {
        no: SpaceNo(no),
        kernel: KernelNo(kernel),
    }))
}

/// `thread <t> <space> <pc> [prio <priority>] [a0 <value>] [a1 <value>]`
#[tactic(auto, unfolding(crate::specs::Forms::thread_line))]
pub(crate) fn thread_line(line: &[u8]) -> Result<Line<'_>, u32>
    ensures { Exactly line_view result (thread_line (fields line.now)) }
{
    let fields = thread_fields(line)?;
    let no = value(fields.no)?;
    let space = value(fields.space)?;
    let pc = value(fields.pc)?;
    let priority = value_or(0, fields.priority)?;
    let a0 = value_or(0, fields.a0)?;
    let a1 = value_or(0, fields.a1)?;
    Ok(Line::Declares(Decl::Thread {
        no: ThreadNo(no),
        space: SpaceNo(space),
        pc,
        priority,
        a0,
        a1,
    }))
}

// The thread that receives signals, if one does.
#[tactic(auto, unfolding(crate::specs::Forms::receiver))]
fn receiver(field: &[u8]) -> Result<Option<ThreadNo>, u32>
    ensures { result ≡ receiver field.now }
{
    if field.is_empty() {
        return Ok(None);
    }
    let no = value(field)?;
    Ok(Some(ThreadNo(no)))
}

/// `map <space> <page> <frame> <flags> [signal <thread>]`
#[tactic(auto, unfolding(crate::specs::Forms::row_line))]
pub(crate) fn row_line(line: &[u8]) -> Result<Line<'_>, u32>
    ensures { Exactly line_view result (row_line (fields line.now)) }
{
    let row = row_fields(line)?;
    let space = value(row.space)?;
    let vpn = value(row.vpn)?;
    let frame = value(row.frame)?;
    let flags = flags(row.flags)?;
    let receiver = receiver(row.signal)?;
    Ok(Line::Declares(Decl::Map {
        space: SpaceNo(space),
        vpn: Vpn(vpn),
        frame: Frame(frame),
        flags,
        receiver,
    }))
}

// Nothing, where each field is a word.
fn are_words(line: &[u8]) -> bool
    ensures { result ≡ list_all is_word (fields line.now) }
{
    let mut rest = line;
    while let Some((field, more)) = next_field(rest) {
        if word(field).is_none() {
            return false;
        }
        rest = more;
    }
    true
}

// The bytes themselves, where each field is a word.
#[tactic(auto, unfolding(crate::specs::Forms::words))]
fn words(line: &[u8]) -> Result<&[u8], u32>
    ensures { Exactly (λ x. map word_value (fields x.now)) result (words (fields line.now)) }
{
    if are_words(line) { Ok(line) } else { Err(4) }
}

/// `word <frame> <offset> <word> ..`
#[tactic(auto, unfolding(crate::specs::Forms::word_line))]
pub(crate) fn word_line(line: &[u8]) -> Result<Line<'_>, u32>
    ensures { Exactly line_view result (word_line (fields line.now)) }
{
    let (frame, offset, rest) = word_fields(line)?;
    let frame = value(frame)?;
    let offset = value(offset)?;
    let words = words(rest)?;
    Ok(Line::Words {
        frame: Frame(frame),
        offset,
        words,
    })
}

/// `code <frame> <offset>`
#[tactic(auto, unfolding(crate::specs::Forms::code_line))]
pub(crate) fn code_line(line: &[u8]) -> Result<Line<'_>, u32>
    ensures { Exactly line_view result (code_line (fields line.now)) }
{
    let (frame, offset) = pair(line)?;
    let frame = value(frame)?;
    let offset = value(offset)?;
    Ok(Line::Code {
        frame: Frame(frame),
        offset,
    })
}

/// `elf <space> <frame> <thread>`
#[tactic(auto, unfolding(crate::specs::Forms::image_line))]
pub(crate) fn image_line(line: &[u8]) -> Result<Line<'_>, u32>
    ensures { Exactly line_view result (image_line (fields line.now)) }
{
    let (space, frame, thread) = triple(line)?;
    let space = value(space)?;
    let frame = value(frame)?;
    let thread = value(thread)?;
    Ok(Line::Image {
        space: SpaceNo(space),
        frame: Frame(frame),
        thread: ThreadNo(thread),
    })
}

/// What a line says that is its word alone.
#[tactic(auto, unfolding(crate::specs::Forms::bare_line))]
pub(crate) fn bare_line<'a>(is: Line<'a>, line: &[u8]) -> Result<Line<'a>, u32>
    ensures { Exactly line_view result (bare_line (line_view is.entry) (fields line.now)) }
{
    no_more(line)?;
    Ok(is)
}
