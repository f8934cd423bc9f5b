//! A text processed line by line.

ghost use Rattle.std.specs.Prelude.{◌≡◌, ◌+◌, ◌^◌, ◌<◌, ◌≤◌, length, map, true, Err, OnOk, OnErr};
ghost use Rattle.pf_text.specs.declared.driver.DriveError.TheVariants.{Read, Write};
ghost use Rattle.pf_text.specs.declared.driver.TakeError.TheVariants as take_errors;
ghost use Rattle.std.specs.Io.KnownBytes.{Appends};
ghost use Rattle.pf_text.specs.Fields.{parts_of};
ghost use Rattle.pf_text.specs.Lines.{AppendsPrefix, Counts};
ghost use Rattle.pf_text.specs.Streams.{IfExposed};
ghost use Rattle.pf_text.specs.Driver.{Rules, Produces, KeepsLent, Drives, RunKeepsLent, CountsReads, CountsWrites, fault_at, line_step, line_allocates, line_changes_lent, is_ascii, is_plain, is_skipped};

use crate::fault::LineFault;
use crate::fields::{field_count, split_into};
use crate::lines::{LineBuffer, MAX_LINE, ReadFailed, Sink, Source, Taken, WriteFailed, take_line};
use std::alloc::{AllocError, AllocFailed, Global};

/// How many fields a line has where they are split without much of the stack.
const FEW_FIELDS: usize = 16;

/// The most fields that a line can have: each has a byte, and all but the last have a space behind
/// them.
const MAX_FIELDS: usize = 2048;

/// Why a machine took no line.
#[derive(Clone, Copy, Debug, PartialEq, Eq)]
pub enum TakeError<F> {
    /// No memory is left.
    Memory,
    /// The line is invalid.
    Fault(F),
}

impl<F> From<AllocError> for TakeError<F> {
    ghost from_gives = { λ _ error. error ≡ take_errors.Memory };

    fn from(_error: AllocError) -> TakeError<F> {
        TakeError::Memory
    }
}

impl<F, T: Drop> From<AllocFailed<T>> for TakeError<F> {
    ghost from_gives = { λ _ error. error ≡ take_errors.Memory };

    fn from(_error: AllocFailed<T>) -> TakeError<F> {
        TakeError::Memory
    }
}

/// What lines mean: a state that takes the fields of one line after the other. Each line is lent an
/// `L`, which it may change only where it runs out of memory.
pub trait Machine<L>: Drop {
    /// What can be wrong with a line.
    type Fault: Drop;

    // Its output for fields and its next state, its error for a line that has none, and what it may
    // take and change for fields.
    ghost rules: { Rules Self Self.Fault };

    /// The error of a line that has no fields, is too long or not ASCII.
    fn line_error(fault: LineFault) -> Self::Fault
        ensures { result ≡ rules.line_error fault };

    /// Takes the fields of a line, and returns its output, which may be empty, and the next state.
    fn take(
        self,
        alloc: Global,
        lent: &mut L,
        fields: &[&[u8]],
    ) -> Result<(String, Self), TakeError<Self::Fault>>
    where
        Self: Sized,
        ensures reply { Produces result
            (rules.transition self (map (λ field. field.now) fields.now)) }
        ensures memory { result ≡ Err take_errors.Memory
            → rules.allocates self (map (λ field. field.now) fields.now) ≡ true }
        ensures kept { KeepsLent result
            (rules.changes_lent self (map (λ field. field.now) fields.now)) lent.old lent.new };
}

/// Why a text was not processed to its end.
#[derive(Clone, Copy, Debug, PartialEq, Eq)]
pub enum DriveError<F> {
    /// The line of this number, from 1, is invalid.
    Line(u64, F),
    /// No memory is left, or no number for a line.
    Memory,
    /// The reader failed.
    Read,
    /// The writer failed.
    Write,
}

/// Whether all bytes are of ASCII. It has no early exit, so that the compiler can vectorize it.
#[tactic(auto, using(crate::proofs::Ascii::ascii_next))]
fn is_ascii(line: &[u8]) -> bool
    ensures { result ≡ is_ascii line.now }
{
    let mut greatest = 0;
    for byte in line {
        greatest = greatest.max(*byte);
    }
    greatest < 128
}

/// Whether a line has at most `MAX_LINE` bytes, all of ASCII.
fn is_plain(line: &[u8]) -> bool
    ensures { result ≡ is_plain line.now }
{
    line.len() <= MAX_LINE && is_ascii(line)
}

/// Whether a line is counted and no more: it is empty or begins with `#`.
fn is_skipped(line: &[u8]) -> bool
    ensures { result ≡ is_skipped line.now }
{
    match line {
        [] => true,
        [first, ..] => *first == b'#',
    }
}

/// The output for the fields of a line, which are written into `fields`, and the next state.
fn take_fields<'a, L, M: Machine<L>>(
    alloc: Global,
    lent: &mut L,
    machine: M,
    line: &'a [u8],
    fields: &mut [&'a [u8]],
) -> Result<(String, M), TakeError<M::Fault>>
    requires { length (parts_of line.now) ≤ length fields.old }
    ensures reply { Produces result (M.rules.transition machine (parts_of line.now)) }
    ensures memory { result ≡ Err take_errors.Memory
        → M.rules.allocates machine (parts_of line.now) ≡ true }
    ensures kept { KeepsLent result (M.rules.changes_lent machine (parts_of line.now))
        lent.old lent.new }
{
    let count = split_into(line, fields);
    machine.take(alloc, lent, &fields[..count])
}

/// The same for any line. It is a function of its own, so that lines of few fields do not pay for
/// its 32 KiB of stack.
#[inline(never)]
fn take_many_fields<L, M: Machine<L>>(
    alloc: Global,
    lent: &mut L,
    machine: M,
    line: &[u8],
) -> Result<(String, M), TakeError<M::Fault>>
    requires { length (parts_of line.now) ≤ MAX_FIELDS }
    ensures reply { Produces result (M.rules.transition machine (parts_of line.now)) }
    ensures memory { result ≡ Err take_errors.Memory
        → M.rules.allocates machine (parts_of line.now) ≡ true }
    ensures kept { KeepsLent result (M.rules.changes_lent machine (parts_of line.now))
        lent.old lent.new }
{
    take_fields(alloc, lent, machine, line, &mut [line; MAX_FIELDS])
}

/// The output for a line, and the next state. Only the machine takes memory, and only for a valid
/// line.
#[tactic(auto, unfolding(crate::specs::Driver::line_step))]
fn output<L, M: Machine<L>>(
    alloc: Global,
    lent: &mut L,
    machine: M,
    line: &[u8],
) -> Result<(String, M), TakeError<M::Fault>>
    ensures reply { Produces result (line_step M.rules machine line.now) }
    ensures memory { result ≡ Err take_errors.Memory
        → line_allocates M.rules machine line.now ≡ true }
    ensures kept { KeepsLent result (line_changes_lent M.rules machine line.now)
        lent.old lent.new }
{
    if !is_plain(line) {
        return Err(TakeError::Fault(M::line_error(LineFault::BadLine)));
    }
    if is_skipped(line) {
        return Ok((String::new(alloc), machine));
    }
    match field_count(line) {
        Ok(count) if count <= FEW_FIELDS => {
            take_fields(alloc, lent, machine, line, &mut [line; FEW_FIELDS])
        }
        Ok(_) => take_many_fields(alloc, lent, machine, line),
        Err(fault) => Err(TakeError::Fault(M::line_error(fault))),
    }
}

impl<F> From<ReadFailed> for DriveError<F> {
    ghost from_gives = { λ _ fault. fault ≡ Read };

    fn from(_failed: ReadFailed) -> DriveError<F> {
        DriveError::Read
    }
}

impl<F> From<WriteFailed> for DriveError<F> {
    ghost from_gives = { λ _ fault. fault ≡ Write };

    fn from(_failed: WriteFailed) -> DriveError<F> {
        DriveError::Write
    }
}

/// The error of a run whose machine did not take the line of this number.
fn fault_at<F>(number: u64, refusal: TakeError<F>) -> DriveError<F>
    ensures { result ≡ fault_at number refusal }
{
    match refusal {
        TakeError::Memory => DriveError::Memory,
        TakeError::Fault(fault) => DriveError::Line(number, fault),
    }
}

/// Writes a text; for an empty one the writer is not called.
#[tactic(auto, using(crate::proofs::Taking::appends_none))]
fn write_text<W: Sink>(writer: &mut W, text: &str) -> Result<(), WriteFailed>
    requires { W.failures writer.old + 1 < 2 ^ 64 }
    ensures ok { OnOk result (Appends (W.contents writer.old) (W.contents writer.new) text.now) }
    ensures err { OnErr result
        (AppendsPrefix (W.contents writer.old) (W.contents writer.new) text.now) }
    ensures some { OnErr result (0 < length text.now) }
    ensures counted { Counts (W.failures writer.old) result (W.failures writer.new) }
{
    if text.is_empty() {
        return Ok(());
    }
    writer.write_all(text.as_bytes())
}

/// Processes the lines of a text one by one: the output of a machine for a line is written before
/// the next line is read.
///
/// A line that is empty or begins with `#` is counted and skipped. At the end it returns the number
/// of the line after the last, and the machine. At an error the output for the lines before it was
/// written. Only the machine takes memory. What is lent to the lines comes back as it was, unless
/// the machine ran out of memory at a line that may change it.
pub fn drive<L, M: Machine<L>, R: Source, W: Sink>(
    alloc: Global,
    lent: &mut L,
    reader: &mut R,
    writer: &mut W,
    start: M,
) -> Result<(u64, M), DriveError<M::Fault>>
    requires reads { R.failures reader.old + 1 < 2 ^ 64 }
    requires writes { W.failures writer.old + 1 < 2 ^ 64 }
    ensures driven { IfExposed (record {
      unread = R.remaining reader.old;
      left = R.remaining reader.new;
      before = W.contents writer.old;
      after = W.contents writer.new;
    })
        (λ transfer. Drives M.rules start transfer result) }
    ensures lent { RunKeepsLent M.rules start (record {
      unread = R.remaining reader.old;
      left = R.remaining reader.new;
      before = W.contents writer.old;
      after = W.contents writer.new;
    })
        result lent.old lent.new }
    // An error of the reader or the writer is returned exactly where it failed in this call.
    ensures reads_counted { CountsReads (R.failures reader.old) result (R.failures reader.new) }
    ensures writes_counted { CountsWrites (W.failures writer.old) result (W.failures writer.new) }
{
    let mut line = LineBuffer::new();
    let mut machine = start;
    for number in 1..u64::MAX {
        let taken = take_line(reader, &mut line)?;
        if let Taken::End = taken {
            return Ok((number, machine));
        }
        let (text, next) = match output(alloc, lent, machine, line.as_slice()) {
            Ok(reply) => reply,
            Err(refusal) => return Err(fault_at(number, refusal)),
        };
        machine = next;
        write_text(writer, &text)?;
        if let Taken::Last = taken {
            return Ok((number + 1, machine));
        }
    }
    Err(DriveError::Memory)
}
