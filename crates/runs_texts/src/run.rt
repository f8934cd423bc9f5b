//! A run of one text.

ghost use Rattle.std.specs.Prelude.{◌+◌, ◌<◌, ◌^◌};

use anyhow::Result;
use pf_console::{ProgramError, finish, run_text};
use pf_manifold::Collider;
use pf_step::Crew;
use pf_text::{Collected, Source};
use std::alloc::Global;
use std::io::Write;

/// What was written, the report of an error and the status.
pub fn ended(alloc: Global, outcome: Result<(), ProgramError>, written: &[u8]) -> Result<Vec<u8>> {
    let mut errors = Collected::new(alloc);
    let status = finish(outcome, &mut errors);
    let mut all = Vec::from_slice(alloc, written)?;
    all.extend_from_slice(errors.bytes())?;
    writeln!(all, "status {status}")?;
    Ok(all)
}

/// The replies to a text, its error and its status.
pub fn run<P: Collider, R: Source, C: Crew>(
    collider: &P,
    alloc: Global,
    reader: &mut R,
    crew: &mut C,
) -> Result<Vec<u8>>
    requires can { P.can_collide collider.now }
    requires reads { R.failures reader.old + 1 < 2 ^ 64 }
{
    let mut output = Collected::new(alloc);
    let outcome = run_text(collider, alloc, reader, &mut output, crew);
    ended(alloc, outcome, output.bytes())
}
