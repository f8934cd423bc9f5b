//! One error for all calls of the core.

ghost use Rattle.std.specs.Prelude.{◌≡◌};
ghost use Rattle.buyosen.specs.declared.error.Error.TheVariants.{OutOfMemory};
ghost use Rattle.buyosen.specs.Error.{error_of_crew, error_of_peer, scene_error, settle_error};

use pf_rollback::{PeerError, Refusal};
use pf_shapes::ReadError;
use pf_step::{CrewError, StepError};
use std::alloc::{AllocError, AllocFailed};
use thiserror::Error;

/// Why a call failed. The errors of scenes, peers and crews turn into it by `?`.
#[derive(Clone, Copy, Debug, PartialEq, Eq, Error)]
pub enum Error {
    /// The text is no scene.
    #[error("the scene, {0}")]
    Scene(ReadError),
    /// A peer refused the call, which changed nothing.
    #[error("refused: {0}")]
    Refused(Refusal),
    /// A crew of threads failed. The ticks that were settled before stay settled.
    #[error("the crew failed: {0}")]
    Crew(CrewError),
    /// An allocation failed.
    #[error("out of memory")]
    OutOfMemory,
}

impl From<AllocError> for Error {
    ghost from_gives = { λ _ error. error ≡ OutOfMemory };

    fn from(_error: AllocError) -> Error {
        Error::OutOfMemory
    }
}

impl<T: Drop> From<AllocFailed<T>> for Error {
    ghost from_gives = { λ _ error. error ≡ OutOfMemory };

    fn from(_error: AllocFailed<T>) -> Error {
        Error::OutOfMemory
    }
}

impl From<ReadError> for Error {
    ghost from_gives = { λ error result. result ≡ scene_error error };

    fn from(error: ReadError) -> Error {
        match error {
            ReadError::Memory => Error::OutOfMemory,
            ReadError::Line(..) => Error::Scene(error),
        }
    }
}

impl From<PeerError> for Error {
    ghost from_gives = { λ fault result. result ≡ error_of_peer fault };

    fn from(fault: PeerError) -> Error {
        match fault {
            PeerError::Refused(refusal) => Error::Refused(refusal),
            PeerError::OutOfMemory => Error::OutOfMemory,
        }
    }
}

impl From<CrewError> for Error {
    ghost from_gives = { λ error result. result ≡ error_of_crew error };

    fn from(error: CrewError) -> Error {
        match error {
            CrewError::OutOfMemory => Error::OutOfMemory,
            _ => Error::Crew(error),
        }
    }
}

impl From<StepError> for Error {
    ghost from_gives = { λ error result. result ≡ settle_error error };

    fn from(error: StepError) -> Error {
        match error {
            StepError::OutOfMemory => Error::OutOfMemory,
            StepError::Crew(error) => Error::from(error),
        }
    }
}
