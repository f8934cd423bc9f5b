//! The program, from the words of its call to its status.

ghost use Rattle.std.specs.Prelude.{◌≡◌, ◌+◌, ◌^◌, ◌<◌, IfErr, IfOk, option_map, true};
ghost use Rattle.std.specs.Process.{exit_status};
ghost use Rattle.pf_console.specs.Report.{Reports};
ghost use Rattle.pf_console.specs.Text.{CountsReading, CountsWriting};
ghost use Rattle.pf_program.specs.Options.{FailsByWordsOrMemory, HasCrewSize};
ghost use Rattle.pf_program.specs.Program.{Ends, IsCrewStartError, Plays, crew_for};

use crate::command_line::options;
use pf_console::{ProgramError, Request, finish, perform};
use pf_manifold::OneThread;
use pf_text::{Sink, Source};
use pf_workers::{Gate, OpenGate, Workers};
use std::alloc::Global;
use std::convert::AsStr;
use std::process::ExitCode;
use std::sync::Wait;
use std::thread::Threads;

/// The crew that a run asks for, if it asks for one, with a collider whose workers are the crew's.
fn crew_of<
    T: Threads + Wait + Copy + Send + Sync + 'static,
    G: Gate + Send + Sync + Drop + 'static,
>(rt: T, alloc: Global, gate: G, request: &Request) -> Result<Option<Workers<T, G>>, ProgramError>
    requires { HasCrewSize request.now }
    ensures crew { IfOk result (λ made. option_map (λ w. w.crew) made ≡ crew_for request.now) }
    ensures fault { IfErr result (IsCrewStartError request.now) }
{
    let Request::Run {
        crew_size: Some(size),
    } = request
    else {
        return Ok(None);
    };
    match Workers::start(rt, alloc, *size, gate) {
        Ok(workers) => Ok(Some(workers)),
        Err(error) => Err(ProgramError::Crew(error)),
    }
}

/// Does what the words of a call ask for. Where they ask for a run with a crew, it is made before
/// anything is read, and closed at the end; the peers of a session make their own.
#[tactic(auto, using(crate::proofs::Crews::can_start))]
fn play<
    S: AsStr + Drop,
    R: Source,
    W: Sink,
    T: Threads + Wait + Copy + Send + Sync + 'static,
    G: Gate + Send + Sync + Drop + 'static,
>(
    rt: T,
    alloc: Global,
    gate: G,
    words: Result<Vec<S>, ProgramError>,
    reader: &mut R,
    writer: &mut W,
) -> Result<(), ProgramError>
    requires gate { G.ALWAYS ≡ true }
    requires words { FailsByWordsOrMemory words }
    requires reads { R.failures reader.old + 1 < 2 ^ 64 }
    requires writes { W.failures writer.old + 1 < 2 ^ 64 }
    ensures plays { Plays S.text words (record {
      unread = R.remaining reader.old;
      left = R.remaining reader.new;
      before = W.contents writer.old;
      after = W.contents writer.new;
    })
        result }
    ensures reads_counted { CountsReading (R.failures reader.old) result (R.failures reader.new) }
    ensures writes_counted { CountsWriting (W.failures writer.old) result (W.failures writer.new) }
{
    let words = words?;
    let request = options(alloc, words.as_slice())?;
    let Some(workers) = crew_of(rt, alloc, gate, &request)? else {
        return perform(
            &rt,
            &OneThread,
            alloc,
            request,
            reader,
            writer,
            &mut OneThread,
        );
    };
    let Workers { mut crew, collider } = workers;
    let outcome = perform(&rt, &collider, alloc, request, reader, writer, &mut crew);
    crew.close();
    outcome
}

/// What `program` does, where the workers of a run with a crew pass a gate.
pub fn program_by_gate<
    S: AsStr + Drop,
    R: Source,
    W: Sink,
    E: Sink,
    T: Threads + Wait + Copy + Send + Sync + 'static,
    G: Gate + Send + Sync + Drop + 'static,
>(
    rt: T,
    alloc: Global,
    gate: G,
    words: Result<Vec<S>, ProgramError>,
    reader: &mut R,
    writer: &mut W,
    errors: &mut E,
) -> ExitCode
    requires gate { G.ALWAYS ≡ true }
    requires words { FailsByWordsOrMemory words }
    requires reads { R.failures reader.old + 1 < 2 ^ 64 }
    requires writes { W.failures writer.old + 1 < 2 ^ 64 }
    requires reports { E.failures errors.old + 1 < 2 ^ 64 }
    ensures { Ends
        (Plays S.text words (record {
          unread = R.remaining reader.old;
          left = R.remaining reader.new;
          before = W.contents writer.old;
          after = W.contents writer.new;
        }))
        (λ outcome. CountsReading (R.failures reader.old) outcome (R.failures reader.new)
        × CountsWriting (W.failures writer.old) outcome (W.failures writer.new))
        (Reports (record {
          before = E.contents errors.old;
          after = E.contents errors.new;
          failures_before = E.failures errors.old;
          failures_after = E.failures errors.new;
        }))
        (exit_status result) }
{
    ExitCode::from(finish(play(rt, alloc, gate, words, reader, writer), errors))
}

/// Does what the words of a call ask for, reports an error, and returns the status to end with.
pub fn program<
    S: AsStr + Drop,
    R: Source,
    W: Sink,
    E: Sink,
    T: Threads + Wait + Copy + Send + Sync + 'static,
>(
    rt: T,
    alloc: Global,
    words: Result<Vec<S>, ProgramError>,
    reader: &mut R,
    writer: &mut W,
    errors: &mut E,
) -> ExitCode
    requires words { FailsByWordsOrMemory words }
    requires reads { R.failures reader.old + 1 < 2 ^ 64 }
    requires writes { W.failures writer.old + 1 < 2 ^ 64 }
    requires reports { E.failures errors.old + 1 < 2 ^ 64 }
    ensures { Ends
        (Plays S.text words (record {
          unread = R.remaining reader.old;
          left = R.remaining reader.new;
          before = W.contents writer.old;
          after = W.contents writer.new;
        }))
        (λ outcome. CountsReading (R.failures reader.old) outcome (R.failures reader.new)
        × CountsWriting (W.failures writer.old) outcome (W.failures writer.new))
        (Reports (record {
          before = E.contents errors.old;
          after = E.contents errors.new;
          failures_before = E.failures errors.old;
          failures_after = E.failures errors.new;
        }))
        (exit_status result) }
{
    program_by_gate(rt, alloc, OpenGate, words, reader, writer, errors)
}
