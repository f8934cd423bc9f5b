//! A text of a scene and events, processed line by line.

ghost use Rattle.std.specs.Prelude.{◌+◌, ◌^◌, ◌<◌};
ghost use Rattle.pf_text.specs.Streams.{IfExposed};
ghost use Rattle.pf_console.specs.Crews.{FailsByCrew};
ghost use Rattle.pf_console.specs.Text.{Runs, CountsReading, CountsWriting};

use crate::ending::outcome_of;
use crate::error::ProgramError;
use crate::phase::Phase;
use crate::settler::Settler;
use pf_events::Session;
use pf_manifold::Collider;
use pf_step::Crew;
use pf_text::{Sink, Source, drive};
use std::alloc::Global;

/// Processes a text of a scene, its peers and events: the replies to its events are written, each
/// before the next line is read, up to the first line that is invalid. In a line `settle` a
/// collider computes contact points and a crew solves islands; all else is done by the caller's
/// thread. What is written never depends on them. [`pf_manifold::OneThread`], the caller's own
/// thread, is both; it has no error of a crew.
///
/// An error of the crew ends the text, at a line `settle P` alone. Then what was written are the
/// replies of the lines before.
#[tactic(auto, unfolding(crate::specs::Text::text_of))]
pub fn run_text<P: Collider, R: Source, W: Sink, C: Crew>(
    collider: &P,
    alloc: Global,
    reader: &mut R,
    writer: &mut W,
    crew: &mut C,
) -> Result<(), ProgramError>
    requires can { P.can_collide collider.now }
    requires reads { R.failures reader.old + 1 < 2 ^ 64 }
    requires writes { W.failures writer.old + 1 < 2 ^ 64 }
    ensures text { IfExposed (record {
      unread = R.remaining reader.old;
      left = R.remaining reader.new;
      before = W.contents writer.old;
      after = W.contents writer.new;
    })
        (λ transfer. Runs transfer result) }
    // An error of the reader or the writer is returned exactly where it failed in this call.
    ensures reads_counted { CountsReading (R.failures reader.old) result (R.failures reader.new) }
    ensures writes_counted { CountsWriting (W.failures writer.old) result (W.failures writer.new) }
    ensures crew { FailsByCrew C.may_fail result }
{
    let mut settler = Settler::new(collider, crew);
    let read = drive(
        alloc,
        &mut settler,
        reader,
        writer,
        Phase::<Session>::first(),
    );
    outcome_of(read, settler.fault())?;
    Ok(())
}
