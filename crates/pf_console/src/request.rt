//! What a call of the program asks for, and doing it.

ghost use Rattle.std.specs.Prelude.{◌≡◌, ℕ, ◌+◌, ◌^◌, ◌<◌, List, Some};
ghost use Rattle.pf_text.specs.Streams.{IfExposed};
ghost use Rattle.pf_console.specs.Request.{CanStart, FailsByThreadsOf, Performs, Writes};
ghost use Rattle.pf_console.specs.Text.{CountsReading, CountsWriting, ReadsNothing};

use crate::error::ProgramError;
use crate::frame::frame_text;
use crate::run::run_text;
use crate::session::session_text;
use pf_manifold::Collider;
use pf_step::Crew;
use pf_text::{Sink, Source};
use std::alloc::Global;
use std::sync::Wait;
use std::thread::Threads;

/// The line of the program's version.
pub const VERSION: &str = "pf_play 0.1.0\n";

/// What a command line asks for.
#[derive(Debug, Drop)]
pub enum Request<'a> {
    /// Process a text line by line, with a crew of so many workers, or without one.
    Run { crew_size: Option<usize> },
    /// Play the session of a text, each peer in a thread, with a crew of so many workers for each
    /// peer, or without crews.
    Session { crew_size: Option<usize> },
    /// Print the fields of the frame that these digits encode.
    Frame(&'a str),
    /// Write this text, a help.
    Help(String),
    /// Write the program's version.
    Version,
}

/// Writes a text.
fn say<W: Sink>(text: &str, writer: &mut W) -> Result<(), ProgramError>
    requires { W.failures writer.old + 1 < 2 ^ 64 }
    ensures text { (before : List ℕ) → W.contents writer.old ≡ Some before
        → Writes text.now (record { before = before; after = W.contents writer.new }) result }
    ensures reads_nothing { ReadsNothing result }
    ensures writes_counted { CountsWriting (W.failures writer.old) result (W.failures writer.new) }
{
    Ok(writer.write_all(text.as_bytes())?)
}

/// Does what a request asks for. A run and a session read the reader; the settles of a run use this
/// collider and this crew, and a session starts the threads of its peers, and waits for them. The
/// other requests leave reader and crew as they were.
#[tactic(auto, using(crate::proofs::Counting::counts_nothing, crate::proofs::Counting::fails_by_no_crew))]
pub fn perform<T, P: Collider, R: Source, W: Sink, C: Crew>(
    rt: &T,
    collider: &P,
    alloc: Global,
    request: Request,
    reader: &mut R,
    writer: &mut W,
    crew: &mut C,
) -> Result<(), ProgramError>
where
    T: Threads + Wait + Copy + Send + Sync + 'static,
    requires start { CanStart request }
    requires can { P.can_collide collider.now }
    requires reads { R.failures reader.old + 1 < 2 ^ 64 }
    requires writes { W.failures writer.old + 1 < 2 ^ 64 }
    ensures done { IfExposed (record {
      unread = R.remaining reader.old;
      left = R.remaining reader.new;
      before = W.contents writer.old;
      after = W.contents writer.new;
    })
        (λ transfer. Performs request.entry transfer result) }
    ensures reads_counted { CountsReading (R.failures reader.old) result (R.failures reader.new) }
    ensures writes_counted { CountsWriting (W.failures writer.old) result (W.failures writer.new) }
    ensures crew { FailsByThreadsOf C.may_fail request.entry result }
{
    match request {
        Request::Run { .. } => run_text(collider, alloc, reader, writer, crew),
        Request::Session { crew_size } => session_text(rt, alloc, reader, writer, crew_size),
        Request::Frame(digits) => frame_text(alloc, digits, writer),
        Request::Help(text) => say(&text, writer),
        Request::Version => say(VERSION, writer),
    }
}
