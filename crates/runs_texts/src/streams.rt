//! Runs of a text whose reader, and then whose writer, fails at one call, for each call.

use crate::run::{ended, run};
use anyhow::{Result, bail};
use pf_console::{ProgramError, run_text};
use pf_manifold::OneThread;
use pf_text::{Bytes, Input, Output};
use std::alloc::Global;
use std::io::{Error, ErrorKind, Read, Write};

/// How the call of this number fails.
fn failure(call: usize) -> Error {
    Error::from(match call % 3 {
        0 => ErrorKind::Other,
        1 => ErrorKind::BrokenPipe,
        _ => ErrorKind::WouldBlock,
    })
}

/// A reader that gives a byte at a time, is interrupted three times before each, and fails at one
/// call.
#[derive(Drop)]
struct Trickle<'a> {
    bytes: &'a [u8],
    calls: usize,
    fails_at: usize,
}

impl Read for Trickle<'_> {
    fn read(&mut self, buffer: &mut [u8]) -> std::io::Result<usize> {
        self.calls = self.calls.wrapping_add(1);
        if self.calls == self.fails_at {
            return Err(failure(self.calls));
        }
        if self.calls % 4 != 0 {
            return Err(Error::from(ErrorKind::Interrupted));
        }
        if self.bytes.is_empty() || buffer.is_empty() {
            return Ok(0);
        }
        buffer[0] = self.bytes[0];
        self.bytes = &self.bytes[1..];
        Ok(1)
    }
}

/// A writer that takes two bytes at a time, is interrupted up to three times before each write,
/// keeps what it took until it is flushed, and fails at one call: by an error, or, at each fourth
/// call, by taking nothing.
#[derive(Drop)]
struct Brittle {
    taken: Vec<u8>,
    flushed: Vec<u8>,
    calls: usize,
    fails_at: usize,
}

impl Brittle {
    fn new(alloc: Global, fails_at: usize) -> Brittle {
        Brittle {
            taken: Vec::new(alloc),
            flushed: Vec::new(alloc),
            calls: 0,
            fails_at,
        }
    }

    fn call(&mut self) -> std::io::Result<()> {
        self.calls = self.calls.wrapping_add(1);
        if self.calls == self.fails_at {
            return Err(failure(self.calls));
        }
        Ok(())
    }
}

impl Write for Brittle {
    fn write(&mut self, bytes: &[u8]) -> std::io::Result<usize> {
        let called = self.call();
        if self.calls % 4 != 0 {
            called?;
            return Err(Error::from(ErrorKind::Interrupted));
        }
        if called.is_err() {
            return Ok(0);
        }
        let count = bytes.len().min(2);
        self.taken.extend_from_slice(&bytes[..count])?;
        Ok(count)
    }

    fn flush(&mut self) -> std::io::Result<()> {
        self.call()?;
        self.flushed.extend_from_slice(&self.taken)?;
        self.taken.clear();
        Ok(())
    }
}

/// Prints what a text gives whose reader fails at one call, for the first call, and for each where
/// that differs from the call before, with how many bytes were read; and at last without a failure.
fn print_reads<W: Write>(alloc: Global, text: &[u8], writer: &mut W) -> Result<()> {
    let mut last = Vec::new(alloc);
    let calls = text.len().saturating_add(2).saturating_mul(4);
    for fails_at in 1..calls {
        let reader = Trickle {
            bytes: text,
            calls: 0,
            fails_at,
        };
        let output = run(&OneThread, alloc, &mut Input::new(reader), &mut OneThread)?;
        if output != last {
            writeln!(writer, "read {}", (fails_at - 1) / 4)?;
            writer.write_all(&output)?;
        }
        last = output;
    }
    Ok(())
}

/// What a writer has flushed that fails at one call, the report and the status; and whether no call
/// failed.
fn written(alloc: Global, text: &[u8], fails_at: usize) -> Result<(Vec<u8>, bool)> {
    let mut brittle = Brittle::new(alloc, fails_at);
    let mut output = Output::new(&mut brittle);
    let outcome = run_text(
        &OneThread,
        alloc,
        &mut Bytes::new(text),
        &mut output,
        &mut OneThread,
    );
    if brittle.calls >= fails_at && !matches!(outcome, Err(ProgramError::Write)) {
        bail!("a writer that fails is the error");
    }
    let all = ended(alloc, outcome, &brittle.flushed)?;
    Ok((all, brittle.calls < fails_at))
}

/// Prints what a writer has flushed that fails at one call, with the report and the status, for the
/// first call, and for each where that differs from the call before, up to one that is not reached.
fn print_writes<W: Write>(alloc: Global, text: &[u8], writer: &mut W) -> Result<()> {
    let mut last = Vec::new(alloc);
    for fails_at in 1..usize::MAX {
        let (output, is_whole) = written(alloc, text, fails_at)?;
        if output != last {
            writeln!(writer, "write")?;
            writer.write_all(&output)?;
        }
        if is_whole {
            return Ok(());
        }
        last = output;
    }
    bail!("a writer that is called for ever")
}

/// Prints what a text gives where its reader fails, and then where its writer fails.
pub fn print_streams<W: Write>(alloc: Global, text: &[u8], writer: &mut W) -> Result<()> {
    print_reads(alloc, text, writer)?;
    print_writes(alloc, text, writer)
}
