//! A text of a scene and scripts, played by peers in threads.

ghost use Rattle.std.specs.Prelude.{◌≢◌, ◌+◌, ◌^◌, ◌<◌, ◌≤◌, Err, IfSome};
ghost use Rattle.pf_pool.specs.declared.pool.TheConstants.{MAX_WORKERS};
ghost use Rattle.pf_text.specs.Streams.{IfExposed};
ghost use Rattle.pf_step.specs.declared.crew.CrewError.{CrewError};
ghost use Rattle.pf_console.specs.declared.error.ProgramError.TheVariants.{Crew};
ghost use Rattle.pf_console.specs.Crews.{FailsByThreads};
ghost use Rattle.pf_console.specs.SessionText.{PlaysSession, ReadsScripts, WritesNothing};
ghost use Rattle.pf_console.specs.Text.{CountsReading, CountsWriting};

use crate::ending::outcome_of;
use crate::error::ProgramError;
use crate::phase::Phase;
use crate::scripts::Scripts;
use pf_text::{Sink, Source, drive};
use std::alloc::Global;
use std::sync::Wait;
use std::thread::Threads;

/// Reads the scripts of a text. Nothing is written.
fn read_scripts<R: Source, W: Sink>(
    alloc: Global,
    reader: &mut R,
    writer: &mut W,
) -> Result<Scripts, ProgramError>
    requires reads { R.failures reader.old + 1 < 2 ^ 64 }
    requires writes { W.failures writer.old + 1 < 2 ^ 64 }
    ensures text { IfExposed (record {
      unread = R.remaining reader.old;
      left = R.remaining reader.new;
      before = W.contents writer.old;
      after = W.contents writer.new;
    })
        (λ transfer. WritesNothing transfer × ReadsScripts transfer result) }
    ensures reads_counted { CountsReading (R.failures reader.old) result (R.failures reader.new) }
    ensures writes_counted { CountsWriting (W.failures writer.old) result (W.failures writer.new) }
    ensures no_threads { (error : CrewError) → result ≢ Err (Crew error) }
{
    let read = drive(alloc, &mut (), reader, writer, Phase::<Scripts>::first());
    outcome_of(read, ProgramError::Memory)
}

/// Processes a text of a scene, its peers and their turns: when all of it is read, each peer plays
/// its script in a thread, with a crew of so many workers or without one, and at the end the block
/// of each peer at its reached tick is written. What is written never depends on threads or crews.
/// The call waits for its threads.
///
/// With any error but one of the writer nothing was written.
pub fn session_text<T: Threads + Wait + Copy + Send + Sync + 'static, R: Source, W: Sink>(
    rt: &T,
    alloc: Global,
    reader: &mut R,
    writer: &mut W,
    crew: Option<usize>,
) -> Result<(), ProgramError>
    requires crew { IfSome crew (λ workers. (0 < workers) × (workers ≤ MAX_WORKERS)) }
    requires reads { R.failures reader.old + 1 < 2 ^ 64 }
    requires writes { W.failures writer.old + 1 < 2 ^ 64 }
    ensures text { IfExposed (record {
      unread = R.remaining reader.old;
      left = R.remaining reader.new;
      before = W.contents writer.old;
      after = W.contents writer.new;
    })
        (λ transfer. PlaysSession transfer result) }
    // An error of the reader or the writer is returned exactly where it failed in this call.
    ensures reads_counted { CountsReading (R.failures reader.old) result (R.failures reader.new) }
    ensures writes_counted { CountsWriting (W.failures writer.old) result (W.failures writer.new) }
    ensures threads { FailsByThreads crew result }
{
    let scripts = read_scripts(alloc, reader, writer)?;
    let blocks = scripts.play(rt, alloc, crew)?;
    Ok(writer.write_all(blocks.as_bytes())?)
}
