//! Any reader as a source, any writer as a sink: standard input and output among them.

ghost use Rattle.std.specs.Prelude.{◌≡◌, ◌+◌, ◌<◌, ◌≤◌, length, take, IfOk, OnOk, OnErr};
ghost use Rattle.std.specs.Io.KnownBytes.{Appends, Keeps, ReadConsumes, prepend_known};
ghost use Rattle.pf_text.specs.Lines.{AppendsPrefix};
ghost use Rattle.pf_text.specs.Buffer.{unread};

use crate::lines::{ReadFailed, Sink, Source, WriteFailed};
use std::io::{ErrorKind, Read, Write};

/// How many bytes are read at once.
const BUFFER: usize = 8192;

/// Reads the bytes that there are, and again after an interrupt. It returns 0 at the end, and
/// nowhere else.
#[tactic(auto, using(crate::proofs::Taking::reads))]
#[inline(never)]
fn read_some<R: Read>(reader: &mut R, buffer: &mut [u8]) -> Result<usize, ReadFailed>
    ensures within { IfOk result (λ count. count ≤ length buffer.new) }
    ensures read { ReadConsumes (R.remaining reader.old) (R.remaining reader.new)
        result buffer.new }
{
    for _ in 0..u64::MAX {
        match reader.read(buffer) {
            Ok(count) => return Ok(count),
            Err(error) if error.kind() == ErrorKind::Interrupted => {}
            Err(_) => return Err(ReadFailed),
        }
    }
    Err(ReadFailed)
}

/// A reader as a source, which exposes to proofs the bytes that the reader exposes.
#[derive(Drop)]
pub struct Input<R: Read> {
    reader: R,
    buffer: [u8; BUFFER],
    start: usize,
    end: usize,
    failures: u64,
    ghost ordered: { start ≤ end },
    ghost filled: { end ≤ length buffer },
}

impl<R: Read> Input<R> {
    /// The bytes of a reader, from its next on.
    #[tactic(auto, using(crate::proofs::Taking::keeps_same))]
    pub fn new(reader: R) -> Self
        ensures remaining { Keeps (R.remaining reader) (⟦<Input<R> as Source>⟧.remaining result) }
        ensures failures { ⟦<Input<R> as Source>⟧.failures result ≡ 0 }
    {
        Input {
            reader,
            buffer: [0; BUFFER],
            start: 0,
            end: 0,
            failures: 0,
        }
    }
}

impl<R: Read> Source for Input<R> {
    ghost remaining = { λ source. prepend_known (unread source.start source.end source.buffer)
        (R.remaining source.reader) };

    ghost ready = { λ source. unread source.start source.end source.buffer };

    ghost failures = { λ source. source.failures };

    #[tactic(auto, using(crate::proofs::Buffered::fills))]
    #[inline]
    fn fill(&mut self) -> Result<(), ReadFailed> {
        if self.start < self.end {
            return Ok(());
        }
        match read_some(&mut self.reader, &mut self.buffer) {
            Ok(count) => {
                self.start = 0;
                self.end = count;
                Ok(())
            }
            Err(failed) => {
                self.failures += 1;
                Err(failed)
            }
        }
    }

    #[inline]
    fn ready(&self) -> &[u8] {
        &self.buffer[self.start..self.end]
    }

    #[tactic(auto, using(crate::proofs::Buffered::consumes_unread))]
    #[inline]
    fn skip(&mut self, count: usize) {
        self.start += count;
    }
}

/// Writes a prefix of the bytes, which are not empty, and again after an interrupt.
#[tactic(auto, using(crate::proofs::Buffered::writes_some))]
fn write_some<W: Write>(writer: &mut W, bytes: &[u8]) -> Result<usize, WriteFailed>
    ensures some { IfOk result (λ count. (0 < count) × (count ≤ length bytes.now)) }
    ensures ok { IfOk result
        (λ count. Appends (W.contents writer.old) (W.contents writer.new) (take count bytes.now)) }
    ensures err { OnErr result (Keeps (W.contents writer.old) (W.contents writer.new)) }
{
    for _ in 0..u64::MAX {
        match writer.write(bytes) {
            Ok(0) => return Err(WriteFailed),
            Ok(count) => return Ok(count),
            Err(fault) if fault.kind() == ErrorKind::Interrupted => {}
            Err(_) => return Err(WriteFailed),
        }
    }
    Err(WriteFailed)
}

/// Writes all the bytes.
#[tactic(auto, using(crate::proofs::Buffered::writes_whole))]
fn write_whole<W: Write>(writer: &mut W, bytes: &[u8]) -> Result<(), WriteFailed>
    ensures ok { OnOk result (Appends (W.contents writer.old) (W.contents writer.new) bytes.now) }
    ensures err { OnErr result
        (AppendsPrefix (W.contents writer.old) (W.contents writer.new) bytes.now) }
{
    let mut rest = bytes;
    while !rest.is_empty() {
        let count = write_some(writer, rest)?;
        rest = &rest[count..];
    }
    Ok(())
}

/// A writer as a sink, which is flushed at each write and exposes to proofs the bytes that the
/// writer exposes.
#[derive(Debug, Drop)]
pub struct Output<W: Write> {
    writer: W,
    failures: u64,
}

impl<W: Write> Output<W> {
    /// A sink of what a writer takes.
    pub fn new(writer: W) -> Self
        ensures contents { ⟦<Output<W> as Sink>⟧.contents result ≡ W.contents writer }
        ensures failures { ⟦<Output<W> as Sink>⟧.failures result ≡ 0 }
    {
        Output {
            writer,
            failures: 0,
        }
    }
}

impl<W: Write> Sink for Output<W> {
    ghost contents = { λ sink. W.contents sink.writer };

    ghost failures = { λ sink. sink.failures };

    fn write_all(&mut self, bytes: &[u8]) -> Result<(), WriteFailed> {
        if write_whole(&mut self.writer, bytes).is_ok() && self.writer.flush().is_ok() {
            return Ok(());
        }
        self.failures += 1;
        Err(WriteFailed)
    }
}
