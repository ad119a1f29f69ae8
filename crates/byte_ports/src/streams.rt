// Readers and writers of std as sources and sinks.
ghost use Rattle.std.specs.Prelude.{◌≡◌};

use crate::ports::{Failed, Sink, Source};
use std::io::{Read, Write};

/// A reader as a source, which tells the bytes that the reader tells. Each `Err` is a fault.
#[derive(Drop)]
pub struct FromRead<R> {
    inner: R,
    faults: u64,
}

impl<R: Read> FromRead<R> {
    /// The source that reads from `inner`, without a fault so far.
    pub fn new(inner: R) -> FromRead<R>
        ensures told { ⟦<FromRead<R> as Source>⟧.bytes_left result ≡ R.remaining inner }
        ensures faultless { ⟦<FromRead<R> as Source>⟧.faults result ≡ 0 }
    {
        FromRead { inner, faults: 0 }
    }
}

impl<R: Read> Source for FromRead<R> {
    ghost bytes_left = { λ source. R.remaining source.inner };

    ghost faults = { λ source. source.faults };

    fn read(&mut self, into: &mut [u8]) -> Result<usize, Failed> {
        let faults = self.faults;
        let Ok(count) = self.inner.read(into) else {
            self.faults = faults.saturating_add(1);
            return Err(Failed);
        };
        Ok(count)
    }
}

/// A writer as a sink, which tells the bytes that the writer tells. Each `Err` is a fault, and so
/// is a write that takes nothing of a piece that isn't empty.
#[derive(Drop)]
pub struct ToWrite<W> {
    inner: W,
    faults: u64,
}

impl<W: Write> ToWrite<W> {
    /// The sink that writes to `inner`, without a fault so far.
    pub fn new(inner: W) -> ToWrite<W>
        ensures told { ⟦<ToWrite<W> as Sink>⟧.bytes_held result ≡ W.contents inner }
        ensures faultless { ⟦<ToWrite<W> as Sink>⟧.faults result ≡ 0 }
    {
        ToWrite { inner, faults: 0 }
    }
}

impl<W: Write> Sink for ToWrite<W> {
    ghost bytes_held = { λ sink. W.contents sink.inner };

    ghost faults = { λ sink. sink.faults };

    fn write(&mut self, piece: &[u8]) -> Result<usize, Failed> {
        let faults = self.faults;
        match self.inner.write(piece) {
            Ok(count) if count > 0 || piece.is_empty() => Ok(count),
            _ => {
                self.faults = faults.saturating_add(1);
                Err(Failed)
            }
        }
    }
}
