//! Bytes that come and go, and one line of them.

ghost use Rattle.std.specs.Prelude.{◌≡◌, ◌≢◌, ℕ, ◌+◌, ◌^◌, ◌<◌, ◌≤◌, List, [], length, take, true, false, Option, Some, OnOk, OnErr};
ghost use Rattle.std.specs.Io.KnownBytes.{Consumes, Appends, Keeps, IsAtEnd};
ghost use Rattle.pf_text.specs.Lines.{AppendsPrefix, Counts, Takes, ExtendsLine, line_length};

use arrayvec::ArrayVec;
use memchr::memchr;
use thiserror::Error;

/// How many bytes a line may have, its LF apart.
pub const MAX_LINE: usize = 4096;

/// Room for a line, and one byte more, by which a line is found too long.
pub const LINE_CAPACITY: usize = MAX_LINE + 1;

/// The bytes of one line.
pub type LineBuffer = ArrayVec<u8, LINE_CAPACITY>;

/// A source gave no byte: what it reads from failed.
#[derive(Clone, Copy, Debug, PartialEq, Eq, Error)]
#[error("read failed")]
pub struct ReadFailed;

/// A sink did not take all bytes: what it writes to failed.
#[derive(Clone, Copy, Debug, PartialEq, Eq, Error)]
#[error("write failed")]
pub struct WriteFailed;

/// Bytes that come one after the other, some of which are ready. A source counts its failures, and
/// exposes its bytes to proofs where it knows them.
pub trait Source {
    // The bytes that are still to come, or `None`, of which nothing is claimed.
    ghost remaining: { Self → Option (List ℕ) };

    // Those of them that are ready.
    ghost ready: { Self → List ℕ };

    // How often it failed.
    ghost failures: { Self → ℕ };

    /// Has bytes ready, if any are left. A failure takes none.
    fn fill(&mut self) -> Result<(), ReadFailed>
        requires { failures self.old + 1 < 2 ^ 64 }
        ensures kept { Keeps (remaining self.old) (remaining self.new) }
        ensures end { OnOk result (ready self.new ≡ [] → IsAtEnd (remaining self.new)) }
        ensures counted { Counts (failures self.old) result (failures self.new) };

    /// The bytes that are ready.
    fn ready(&self) -> &[u8]
        ensures { result.now ≡ ready self.now };

    /// Takes the first bytes of those that are ready.
    fn skip(&mut self, count: usize)
        requires { count ≤ length (ready self.old) }
        ensures taken { Consumes (remaining self.old) (remaining self.new)
            (take count (ready self.old)) }
        ensures counted { failures self.new ≡ failures self.old };
}

/// Where bytes go. A sink counts its failures, and exposes the bytes that it has taken to proofs
/// where it knows them.
pub trait Sink {
    // The bytes that it has taken, or `None`, of which nothing is claimed.
    ghost contents: { Self → Option (List ℕ) };

    // How often it failed.
    ghost failures: { Self → ℕ };

    /// Writes all the bytes, none of which waits for later ones. At a failure a prefix of them was
    /// written.
    fn write_all(&mut self, bytes: &[u8]) -> Result<(), WriteFailed>
        requires { failures self.old + 1 < 2 ^ 64 }
        ensures ok { OnOk result (Appends (contents self.old) (contents self.new) bytes.now) }
        ensures err { OnErr result
            (AppendsPrefix (contents self.old) (contents self.new) bytes.now) }
        ensures counted { Counts (failures self.old) result (failures self.new) };
}

/// What was taken from a source.
#[derive(Clone, Copy, Debug, PartialEq, Eq)]
pub enum Taken {
    /// A line, and its LF.
    Line,
    /// A last line, which has bytes but no LF.
    Last,
    /// Nothing: no byte is left.
    End,
    /// The first `MAX_LINE + 1` bytes of a line that is too long.
    TooLong,
}

/// How many bytes come before the first LF, or all.
#[tactic(auto, using(crate::proofs::FirstByte::first_or_length))]
fn line_length(bytes: &[u8]) -> usize
    ensures { result ≡ line_length bytes.now }
{
    memchr(b'\n', bytes).unwrap_or(bytes.len())
}

/// Takes the bytes of a line that are ready, appends them to what was taken of it, and returns
/// whether its LF was taken.
fn take_part<R: Source>(source: &mut R, line: &mut LineBuffer) -> bool
    requires begun { length line.old.items ≤ MAX_LINE }
    ensures part { ExtendsLine (R.remaining source.old) (R.remaining source.new)
        line.old.items line.new.items result }
    ensures further { R.ready source.old ≢ [] → result ≡ false
        → length line.old.items < length line.new.items }
    ensures bounded { length line.new.items ≤ LINE_CAPACITY }
    ensures line { result ≡ true → length line.new.items ≤ MAX_LINE }
    ensures counted { R.failures source.new ≡ R.failures source.old }
{
    let ready = source.ready();
    let ready = &ready[..ready.len().min(LINE_CAPACITY - line.len())];
    let part = line_length(ready);
    let is_ended = part < ready.len();
    line.try_extend_from_slice(&ready[..part]).unwrap();
    source.skip(if is_ended { part + 1 } else { part });
    is_ended
}

/// Takes the next line of a source into `line`, which it empties first, with one byte more than a
/// line may have at most.
///
/// At an error a part of one line was taken. It takes no memory.
pub fn take_line<R: Source>(source: &mut R, line: &mut LineBuffer) -> Result<Taken, ReadFailed>
    requires { R.failures source.old + 1 < 2 ^ 64 }
    ensures taken { (before : List ℕ) → R.remaining source.old ≡ Some before
        → Takes before line.new.items (R.remaining source.new) result }
    ensures counted { Counts (R.failures source.old) result (R.failures source.new) }
    // However long a line is, the buffer stays small.
    ensures bounded { length line.new.items ≤ LINE_CAPACITY }
{
    line.clear();
    while line.len() <= MAX_LINE {
        source.fill()?;
        if source.ready().is_empty() {
            return Ok(if line.is_empty() {
                Taken::End
            } else {
                Taken::Last
            });
        }
        if take_part(source, line) {
            return Ok(Taken::Line);
        }
    }
    Ok(Taken::TooLong)
}
