//! Errors of a pool.

use std::alloc::{AllocError, AllocFailed};
use thiserror::Error;

/// Why a pool did not start, or did not do its work.
#[derive(Clone, Copy, Debug, PartialEq, Eq, Error)]
pub enum PoolError {
    /// There was no memory.
    #[error("out of memory")]
    OutOfMemory,
    /// The system started no thread.
    #[error("no thread could be started")]
    NoThread,
    /// A worker was dismissed, or has ended.
    #[error("a worker is lost")]
    WorkerLost,
}

impl From<AllocError> for PoolError {
    ghost use Rattle.std.specs.Prelude.{◌≡◌};
    ghost use Rattle.pf_pool.specs.declared.error.PoolError.TheVariants.{OutOfMemory};

    ghost from_gives = { λ error result. result ≡ OutOfMemory };

    fn from(_: AllocError) -> PoolError {
        PoolError::OutOfMemory
    }
}

impl<T: Drop> From<AllocFailed<T>> for PoolError {
    ghost use Rattle.std.specs.Prelude.{◌≡◌};
    ghost use Rattle.pf_pool.specs.declared.error.PoolError.TheVariants.{OutOfMemory};

    ghost from_gives = { λ error result. result ≡ OutOfMemory };

    fn from(_: AllocFailed<T>) -> PoolError {
        PoolError::OutOfMemory
    }
}
