//! A journal from its text.

ghost use Rattle.std.specs.Prelude.{◌≡◌, ◌++◌, List, IfOk, IfErr, MatchResult, MatchOption, Some};
ghost use Rattle.run_journal.specs.declared.entries.Entry.{Entry};
ghost use Rattle.journal_text.specs.declared.fault.JournalFault.TheVariants.{NoMemory};
ghost use Rattle.journal_text.specs.Lines.{line, journal_text};
ghost use Rattle.journal_text.specs.Reading.{entry_at};
ghost use Rattle.journal_text.specs.Ranges.{AreInRange, BeginsWithNoLine, IsFault};

use crate::fault::JournalFault;
use crate::lines::entry_at;
use crate::printing::put_line;
use cache_ident::NoMemory;
use run_journal::{Entry, Journal};
use std::alloc::Global;
use text_fields::skip;

/// The journal whose text the bytes are, to the last one. Each line has to be the very line that `print` gives of an
/// entry. Whether the journal is legal isn't asked. It costs one pass, and what the entries take.
pub fn read(alloc: Global, text: &[u8]) -> Result<Journal, JournalFault>
    // What is read has this text.
    ensures found { IfOk result (λ journal. text.now ≡ journal_text journal.entries) }

    // Each text of entries is read, unless memory runs out.
    ensures only { (es : List Entry) → AreInRange es → text.now ≡ journal_text es → MatchResult result (λ journal. journal.entries ≡ es) (λ e. e ≡ NoMemory) }

    // The line of a fault is the first that isn't an entry's.
    ensures fault { IfErr result (IsFault text.now) }
{
    let mut journal = Journal::new(alloc);
    let mut scratch = Vec::new(alloc);
    let mut rest = text;
    while !rest.is_empty() {
        let Some(line) = line_at(&mut scratch, rest)? else {
            return Err(JournalFault::Line(journal.len() + 1));
        };
        journal.push(line.entry)?;
        rest = line.rest;
    }
    Ok(journal)
}

// The entry of a line, and what follows the line.
#[derive(Clone, Copy)]
struct EntryLine<'a> {
    entry: Entry,
    rest: &'a [u8],
}

// The line at the front, where it is that of an entry. `scratch` is room for it.
fn line_at<'a>(scratch: &mut Vec<u8>, bytes: &'a [u8]) -> Result<Option<EntryLine<'a>>, NoMemory>
    ensures { IfOk result (λ found. MatchOption found (BeginsWithNoLine bytes.now) (λ first. (bytes.now ≡ line first.entry ++ first.rest.now) × (entry_at bytes.now ≡ Some first.entry))) }
{
    let Some(entry) = entry_at(bytes) else {
        return Ok(None);
    };
    scratch.clear();
    put_line(scratch, &entry)?;
    match skip(bytes, scratch.as_slice()) {
        Some(rest) => Ok(Some(EntryLine { entry, rest })),
        None => Ok(None),
    }
}
