// Whole texts from a source and to a sink.
ghost use Rattle.std.specs.Prelude.{◌≡◌, ◌<◌, ◌≤◌, IfOk, OnOk, OnErr, IfSome, length, vec_len};
ghost use Rattle.std.specs.Io.KnownBytes.{Appends, IsAtEnd};
ghost use Rattle.byte_ports.specs.Faults.{HasRisen};
ghost use Rattle.byte_ports.specs.Whole.{OnTooLong, OnFailed, UnlessFailed, TakesMore, AppendsFront};

use crate::ports::{Failed, Sink, Source};
use std::alloc::Global;

/// How many bytes one read asks for.
const PIECE: usize = 4096;

/// Why a source wasn't read to its end.
#[derive(Clone, Copy, Debug, PartialEq, Eq)]
pub enum ReadError {
    /// It gave more bytes than the limit.
    TooLong,
    /// A read failed.
    Failed,
    /// There was no memory for the bytes.
    NoMemory,
}

/// Reads a source to its end, unless it gives more than `limit` bytes, at a cost linear in what it
/// gives. On a refusal what was read so far is lost.
pub fn read_to_end<S: Source>(
    alloc: Global,
    source: &mut S,
    limit: usize,
) -> Result<Vec<u8>, ReadError>
    ensures within { IfOk result (λ bytes. vec_len bytes ≤ limit) }
    ensures whole { IfOk result (λ bytes. IfSome (S.bytes_left source.old) (λ left. bytes.items ≡ left)) }
    ensures end { OnOk result (IsAtEnd (S.bytes_left source.new)) }
    ensures too_long { OnTooLong result (IfSome (S.bytes_left source.old) (λ left. limit < length left)) }
    ensures taken { OnTooLong result
        (TakesMore (S.bytes_left source.old) (S.bytes_left source.new) limit) }
    ensures fault { OnFailed result (HasRisen (S.faults source.old) (S.faults source.new)) }
    ensures faultless { UnlessFailed result (S.faults source.new ≡ S.faults source.old) }
{
    let mut bytes = Vec::new(alloc);
    let mut piece = [0; PIECE];
    loop {
        let Ok(count) = source.read(&mut piece) else {
            return Err(ReadError::Failed);
        };
        if count == 0 {
            return Ok(bytes);
        }
        if count > limit - bytes.len() {
            return Err(ReadError::TooLong);
        }
        if bytes.extend_from_slice(&piece[..count]).is_err() {
            return Err(ReadError::NoMemory);
        }
    }
}

/// Writes a whole text, in as many writes as the sink wants.
pub fn write_all<W: Sink>(sink: &mut W, text: &[u8]) -> Result<(), Failed>
    ensures written { OnOk result (Appends (W.bytes_held sink.old) (W.bytes_held sink.new) text.now) }
    ensures faultless { OnOk result (W.faults sink.new ≡ W.faults sink.old) }
    ensures front { OnErr result (AppendsFront (W.bytes_held sink.old) (W.bytes_held sink.new) text.now) }
    ensures fault { OnErr result (HasRisen (W.faults sink.old) (W.faults sink.new)) }
{
    let mut written = 0;
    while written < text.len() {
        written += sink.write(&text[written..])?;
    }
    Ok(())
}
