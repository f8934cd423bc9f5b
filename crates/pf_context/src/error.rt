//! One error for all calls of a context.

ghost use Rattle.std.specs.Prelude.{◌≡◌};
ghost use Rattle.pf_context.specs.declared.error.ContextError.TheVariants.{Scene};
ghost use Rattle.pf_context.specs.Errors.{memory_error, peer_error, read_error, table_error};

use crate::plain::Sizes;
use crate::table::TableError;
use pf_rollback::{PeerError, Refusal};
use pf_shapes::{ReadError, SceneFault};
use std::alloc::AllocError;
use thiserror::Error;

/// Why a call of a context failed.
#[derive(Clone, Copy, Debug, PartialEq, Eq, Error)]
pub enum ContextError {
    /// The key names nothing: it was never given out, or what it named is freed.
    #[error("the key names nothing")]
    BadKey,
    /// An allocation failed.
    #[error("out of memory")]
    OutOfMemory,
    /// The context has no key left: 2^32 slots are in use.
    #[error("the context has no key left")]
    Full,
    /// The line of this number, from 1, of a scene's text is invalid.
    #[error("line {0}: {1}")]
    Line(u64, SceneFault),
    /// A number that makes a scene or a body of it is out of its range.
    #[error("the scene, {0}")]
    Scene(SceneFault),
    /// The number of a player is not below 8.
    #[error("the number of a player is not below 8")]
    BadPlayer,
    /// The number of settled worlds to keep is not from 1 to 64.
    #[error("the number of settled worlds to keep is not from 1 to 64")]
    BadRing,
    /// A number of a command is out of its range.
    #[error("a number is out of its range: within 2^31, of a place 2^20")]
    BadNumber,
    /// The buffer is too small for the frames: so many there are.
    #[error("{0} frames do not fit")]
    SmallBuffer(usize),
    /// A buffer is too small for the world, which has so many bodies and contacts.
    #[error("{} bodies and {} contacts do not fit", .0.bodies, .0.contacts)]
    SmallBuffers(Sizes),
    /// The peer refuses the call.
    #[error("refused: {0}")]
    Refused(Refusal),
}

impl From<AllocError> for ContextError {
    ghost from_gives = { λ fault error. error ≡ memory_error fault };

    fn from(_error: AllocError) -> ContextError {
        ContextError::OutOfMemory
    }
}

impl From<PeerError> for ContextError {
    ghost from_gives = { λ fault error. error ≡ peer_error fault };

    fn from(fault: PeerError) -> ContextError {
        match fault {
            PeerError::Refused(refusal) => ContextError::Refused(refusal),
            PeerError::OutOfMemory => ContextError::OutOfMemory,
        }
    }
}

impl From<ReadError> for ContextError {
    ghost from_gives = { λ fault error. error ≡ read_error fault };

    fn from(fault: ReadError) -> ContextError {
        match fault {
            ReadError::Line(number, fault) => ContextError::Line(number, fault),
            ReadError::Memory => ContextError::OutOfMemory,
        }
    }
}

impl From<SceneFault> for ContextError {
    ghost from_gives = { λ fault error. error ≡ Scene fault };

    fn from(fault: SceneFault) -> ContextError {
        ContextError::Scene(fault)
    }
}

impl From<TableError> for ContextError {
    ghost from_gives = { λ fault error. error ≡ table_error fault };

    fn from(fault: TableError) -> ContextError {
        match fault {
            TableError::OutOfMemory => ContextError::OutOfMemory,
            TableError::Full => ContextError::Full,
        }
    }
}
