//! The bytes of an input, or why nothing can be answered to it.

ghost use Rattle.std.specs.Prelude.{◌≡◌, IfOk};
ghost use Rattle.byte_ports.specs.Faults.{HasRisen};
ghost use Rattle.due_text.specs.Inputs.{IsInput, OnFailed, UnlessFailed};
ghost use Rattle.due_text.specs.declared.input.NoText.TheVariants as no_text;

use byte_ports::{ReadError, Source, read_to_end};
use std::alloc::{AllocError, Global};

/// How many bytes an input may have.
const MOST_BYTES: usize = 4_194_304;

/// What came from a source.
#[derive(Drop)]
pub enum Input {
    /// All its bytes, which are no more than an input may have.
    Whole(Vec<u8>),
    /// More than an input may have.
    TooLong,
}

/// Why no text is due.
#[derive(Clone, Copy)]
pub enum NoText {
    /// The source failed.
    ReadFault,
    NoMemory,
}

impl From<AllocError> for NoText {
    ghost from_gives = { λ _ e. e ≡ no_text.NoMemory };

    fn from(_e: AllocError) -> NoText {
        NoText::NoMemory
    }
}

/// Reads a source to its end, or until more than 4,194,304 bytes came. It costs what was read.
pub fn read_input<S: Source>(alloc: Global, source: &mut S) -> Result<Input, NoText>
    ensures came { IfOk result (IsInput (S.bytes_left source.old) (S.bytes_left source.new)) }
    ensures fault { OnFailed result (HasRisen (S.faults source.old) (S.faults source.new)) }
    ensures faultless { UnlessFailed result (S.faults source.new ≡ S.faults source.old) }
{
    match read_to_end(alloc, source, MOST_BYTES) {
        Ok(bytes) => Ok(Input::Whole(bytes)),
        Err(ReadError::TooLong) => Ok(Input::TooLong),
        Err(ReadError::Failed) => Err(NoText::ReadFault),
        Err(ReadError::NoMemory) => Err(NoText::NoMemory),
    }
}
