//! How a text ends.

ghost use Rattle.std.specs.Prelude.{◌≡◌};
ghost use Rattle.pf_console.specs.Text.{outcome_of};

use crate::error::ProgramError;
use crate::phase::Phase;
use pf_shapes::SceneFault;
use pf_text::DriveError;

/// What the end of a text's lines is for the program. `missing` is why a valid line had no reply.
pub fn outcome_of<B>(
    read: Result<(u64, Phase<B>), DriveError<SceneFault>>,
    missing: ProgramError,
) -> Result<B, ProgramError>
    ensures { result ≡ outcome_of missing read }
{
    match read {
        Ok((_, Phase::Playing(begun))) => Ok(begun),
        Ok((number, _)) => Err(ProgramError::Line(number, SceneFault::BadLine)),
        Err(DriveError::Line(number, fault)) => Err(ProgramError::Line(number, fault)),
        Err(DriveError::Memory) => Err(missing),
        Err(DriveError::Read) => Err(ProgramError::Read),
        Err(DriveError::Write) => Err(ProgramError::Write),
    }
}
