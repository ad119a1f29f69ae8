//! Runs whose input or output fails, at each read and at each write in turn.

ghost use Rattle.std.specs.Prelude.{◌≤◌, IfOk};

use byte_ports::{
    Failed, FromRead, MemSink, MemSource, Sink, Source, ToWrite, read_to_end, write_all,
};
use proc_run::{NoGate, Words, run_machine};
use std::alloc::Global;
use std::io::{self, ErrorKind, Read, Write};
use std::process::Abort;
use std::sync::Wait;
use std::test::Fail;
use std::thread::Threads;

// Of 130 bytes: three reads of fifty, and one that finds the end.
const HELLO: &str = "mem 1\nkernel 0\nright 0 0 rw\nspace 0 0\nthread 0 0 0\nmap 0 0 0 x\n\
word 0 0 00100893 04800513 00000073 00000893 00000513 00000073\nend\n";

// The words of the command line that a text has, one a line.
fn words_of(alloc: Global, lines: &str) -> Result<Words, Fail> {
    let mut words = Words::new(alloc);
    for word in lines.lines() {
        words.push(word)?;
    }
    Ok(words)
}

// The exit status of a run over memory, and what it wrote.
fn run_over<R: Threads + Wait + Sync>(
    rt: &R,
    alloc: Global,
    words: &Words,
    bytes: &[u8],
    failing_reads: &[u64],
    failing_writes: &[u64],
) -> Result<(u8, Vec<u8>), Fail> {
    let mut source = MemSource::new(alloc, bytes, 50, failing_reads)?;
    let mut sink = MemSink::new(alloc, 4096, 16, failing_writes)?;
    let outcome = run_machine(rt, alloc, words, &mut source, &mut sink, &NoGate);
    let status = outcome.status.exit_status();
    std::mem::forget(outcome);
    let held = Vec::from_slice(alloc, sink.held())?;
    Ok((status, held))
}

// Whether each of the first writes that fails, in turn, is answered by its status, and leaves the text up to that write.
fn writes_fail_in_turn<R: Threads + Wait + Sync>(
    rt: &R,
    alloc: Global,
    lines: &str,
    writes: u64,
) -> Result<bool, Fail> {
    let words = words_of(alloc, lines)?;
    let (whole, text) = run_over(rt, alloc, &words, HELLO.as_bytes(), &[], &[])?;
    for at in 0..writes {
        let (status, held) = run_over(rt, alloc, &words, HELLO.as_bytes(), &[], &[at])?;
        let front = text.len().min((at as usize).saturating_mul(16));
        let due = if front < text.len() { 4 } else { whole };
        if held.as_slice() != &text[..front] || status != due {
            return Ok(false);
        }
    }
    Ok(true)
}

#[test]
fn each_write_fails(rt: HostRuntime) -> Result<(), Fail> {
    assert!(rt; writes_fail_in_turn(&rt, rt.alloc(), "", 7)?);
    assert!(rt; writes_fail_in_turn(&rt, rt.alloc(), "--mode\njournal", 28)?);
    assert!(rt; writes_fail_in_turn(&rt, rt.alloc(), "x", 8)?);
    assert!(rt; writes_fail_in_turn(&rt, rt.alloc(), "--mode=gen\n--steps=1", 4)?);
    assert!(rt; writes_fail_in_turn(&rt, rt.alloc(), "--mode=check", 3)?);
    Ok(())
}

// Whether a run where one read of fifty bytes fails has that exit status, and wrote so many bytes.
fn read_fails<R: Threads + Wait + Sync>(
    rt: &R,
    alloc: Global,
    lines: &str,
    at: u64,
    status: u8,
    written: usize,
) -> Result<bool, Fail> {
    let words = words_of(alloc, lines)?;
    let (found, held) = run_over(rt, alloc, &words, HELLO.as_bytes(), &[at], &[])?;
    Ok(found == status && held.len() == written)
}

#[test]
fn each_read_fails(rt: HostRuntime) -> Result<(), Fail> {
    for at in 0..4 {
        assert!(rt; read_fails(&rt, rt.alloc(), "", at, 3, 0)?);
        assert!(rt; read_fails(&rt, rt.alloc(), "--mode=journal", at, 3, 0)?);
        assert!(rt; read_fails(&rt, rt.alloc(), "--mode=check", at, 3, 0)?);
    }
    // Nothing is left to be read, or nothing is read.
    assert!(rt; read_fails(&rt, rt.alloc(), "", 4, 0, 83)?);
    assert!(rt; read_fails(&rt, rt.alloc(), "x", 0, 7, 96)?);
    assert!(rt; read_fails(&rt, rt.alloc(), "--mode=gen\n--steps=1", 0, 2, 39)?);
    Ok(())
}

// Whether the run of a text of so many bytes ends with a status, and with a line.
fn is_answered<R: Threads + Wait + Sync>(
    rt: &R,
    alloc: Global,
    length: usize,
    status: u8,
    line: &str,
) -> Result<bool, Fail> {
    let words = Words::new(alloc);
    let long = vec![in alloc; b'#'; length]?;
    let mut source = MemSource::new(alloc, &long, 4096, &[])?;
    let mut sink = MemSink::new(alloc, 4096, 4096, &[])?;
    let outcome = run_machine(rt, alloc, &words, &mut source, &mut sink, &NoGate);
    let found = outcome.status.exit_status();
    std::mem::forget(outcome);
    Ok(found == status && sink.held() == line.as_bytes())
}

#[test]
fn too_many_bytes(rt: HostRuntime) -> Result<(), Fail> {
    assert!(rt; is_answered(&rt, rt.alloc(), 4_194_305, 8, "too long\n")?);
    assert!(rt;
        is_answered(
            &rt,
            rt.alloc(),
            4_194_304,
            5,
            "scenario fault line 1 rule 24\n"
        )?
    );
    Ok(())
}

// A reader and writer that gives and takes one byte, then none, and then fails.
#[derive(Drop)]
struct Fading {
    calls: u8,
}

impl Fading {
    fn answer(&mut self, most: usize) -> io::Result<usize>
        ensures { IfOk result (λ count. count ≤ most) }
    {
        self.calls = self.calls.saturating_add(1);
        match self.calls {
            1 => Ok(most.min(1)),
            2 => Ok(0),
            _ => Err(ErrorKind::Other.into()),
        }
    }
}

impl Read for Fading {
    fn read(&mut self, buf: &mut [u8]) -> io::Result<usize> {
        self.answer(buf.len())
    }
}

impl Write for Fading {
    fn write(&mut self, buf: &[u8]) -> io::Result<usize> {
        self.answer(buf.len())
    }

    fn flush(&mut self) -> io::Result<()> {
        Ok(())
    }
}

#[test]
fn passes_std_on(rt: HostRuntime) -> Result<(), Fail> {
    let mut source = FromRead::new(Fading { calls: 0 });
    for count in [Ok(1), Ok(0), Err(Failed), Err(Failed)] {
        assert!(rt; source.read(&mut [0; 4]) == count);
    }
    let mut sink = ToWrite::new(Fading { calls: 0 });
    for count in [Ok(1), Err(Failed), Err(Failed)] {
        assert!(rt; sink.write(b"abcd") == count);
    }
    let mut source = FromRead::new(Fading { calls: 0 });
    assert!(rt; matches!(read_to_end(rt.alloc(), &mut source, 20), Ok(bytes) if bytes.len() == 1));
    let mut sink = ToWrite::new(Fading { calls: 0 });
    assert!(rt; write_all(&mut sink, b"abcd") == Err(Failed));
    Ok(())
}
