//! Why a peer that plays a script fails, and a session of such peers.

use pf_rollback::Refusal;
use pf_step::CrewError;
use std::alloc::AllocError;
use thiserror::Error;

/// Why a play or a session of several fails. A peer is named by its player.
#[derive(Clone, Copy, Debug, PartialEq, Eq, Error)]
pub enum SessionError {
    /// A peer refuses a frame of its own script. The frame's number counts all frames of the script
    /// from 0.
    #[error("player {0}, frame {1}: {2}")]
    Frame(u8, usize, Refusal),
    /// A script would pass the last tick, 1,048,576.
    #[error("player {0}: the script passes the last tick, 1,048,576")]
    TickLimit(u8),
    /// A peer was out of memory, its gate was shut, or its crew failed.
    #[error("player {0}: {1}")]
    Peer(u8, CrewError),
    /// There was no memory outside of the peers' threads.
    #[error("out of memory")]
    OutOfMemory,
    /// The thread of a peer could not be started.
    #[error("a thread could not be started")]
    NoThread,
}

impl From<AllocError> for SessionError {
    ghost use Rattle.std.specs.Prelude.{◌≡◌};
    ghost use Rattle.pf_scripts.specs.declared.error.SessionError.TheVariants.{OutOfMemory};

    ghost from_gives = { λ error result. result ≡ OutOfMemory };

    fn from(_: AllocError) -> SessionError {
        SessionError::OutOfMemory
    }
}
