//! Why a call of a peer core fails.

ghost use Rattle.std.specs.Prelude.{◌≡◌};
ghost use Rattle.pf_rollback.specs.declared.error.PeerError.TheVariants.{OutOfMemory, Refused};

use pf_commands::{CheckFault, FrameFault};
use std::alloc::AllocError;
use thiserror::Error;

/// Why a peer refuses a call. A refused call changes nothing and takes no memory.
#[derive(Clone, Copy, Debug, PartialEq, Eq, Error)]
pub enum Refusal {
    /// The last tick, 1,048,576: the peer would pass it, or has reached it and has no tick left for
    /// a command.
    #[error("the last tick, 1,048,576, leaves no tick for this")]
    TickLimit,
    /// The peer holds a command of its player at the reached tick with the last number, 65,535.
    #[error("the player has no number left for a command at the reached tick")]
    NumbersSpent,
    /// The bytes are no command's frame.
    #[error("{0}")]
    Frame(FrameFault),
    /// The scene does not allow the command.
    #[error("{0}")]
    Check(CheckFault),
    /// The tick is above the reached tick, which is given here.
    #[error("the tick is above {0}, the reached tick")]
    NotReached(u32),
    /// The tick is before the horizon, which is given here: what came before it is sealed.
    #[error("the tick is before {0}, the horizon: what came before it is sealed")]
    TooOld(u32),
    /// The horizons differ: this peer's, then the other's.
    #[error("the horizons differ: {0} here and {1} there")]
    HorizonsDiffer(u32, u32),
    /// The other peer has another world at the horizon.
    #[error("the other peer has another world at the horizon")]
    BasesDiffer,
}

/// Why a call fails.
#[derive(Clone, Copy, Debug, PartialEq, Eq, Error)]
pub enum PeerError {
    /// The peer refuses it.
    #[error("{0}")]
    Refused(Refusal),
    /// An allocation failed. The peer is as it was, except that a seal may have counted ticks
    /// and pairs.
    #[error("out of memory")]
    OutOfMemory,
}

impl From<AllocError> for PeerError {
    ghost from_gives = { λ _ fault. fault ≡ OutOfMemory };

    fn from(_error: AllocError) -> PeerError {
        PeerError::OutOfMemory
    }
}

impl From<Refusal> for PeerError {
    ghost from_gives = { λ refusal fault. fault ≡ Refused refusal };

    fn from(refusal: Refusal) -> PeerError {
        PeerError::Refused(refusal)
    }
}
