//! Why the program ended with another status than 0.

ghost use Rattle.std.specs.Prelude.{◌≡◌};
ghost use Rattle.pf_console.specs.declared.error.ProgramError.TheVariants.{Memory, Write};

use pf_commands::FrameFault;
use pf_rollback::Refusal;
use pf_shapes::SceneFault;
use pf_step::CrewError;
use pf_text::WriteFailed;
use std::alloc::{AllocError, AllocFailed};
use thiserror::Error;

/// Why digits encode no command.
#[derive(Clone, Copy, Debug, PartialEq, Eq, Error)]
pub enum DigitsFault {
    /// They are no bytes: their count is odd, or one is no hexadecimal digit.
    #[error("the digits encode no bytes")]
    BadNumber,
    /// The bytes encode no command.
    #[error("{0}")]
    Refused(FrameFault),
}

/// Why the program ended with another status than 0.
#[derive(Debug, Drop, Error)]
pub enum ProgramError {
    /// The command line is invalid, and this text says how.
    #[error("{0}")]
    Words(String),
    /// The line of this number, from 1, is invalid.
    #[error("line {0}: {1}")]
    Line(u64, SceneFault),
    /// The frame of the command line is invalid.
    #[error("frame: {0}")]
    Frame(DigitsFault),
    /// A script of a session is refused.
    #[error("session: {0}")]
    Session(Refusal),
    /// No memory is left.
    #[error("out of memory")]
    Memory,
    /// The crew failed in a settle, or could not be made; or the threads of a session.
    #[error("crew: {0}")]
    Crew(CrewError),
    /// The reader failed.
    #[error("read failed")]
    Read,
    /// The writer failed.
    #[error("write failed")]
    Write,
}

impl From<AllocError> for ProgramError {
    ghost from_gives = { λ _ fault. fault ≡ Memory };

    fn from(_error: AllocError) -> ProgramError {
        ProgramError::Memory
    }
}

impl<T: Drop> From<AllocFailed<T>> for ProgramError {
    ghost from_gives = { λ _ fault. fault ≡ Memory };

    fn from(_error: AllocFailed<T>) -> ProgramError {
        ProgramError::Memory
    }
}

impl From<WriteFailed> for ProgramError {
    ghost from_gives = { λ _ fault. fault ≡ Write };

    fn from(_failed: WriteFailed) -> ProgramError {
        ProgramError::Write
    }
}
