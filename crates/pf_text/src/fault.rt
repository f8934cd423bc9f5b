//! What can be wrong with a line.

ghost use Rattle.std.specs.Prelude.{◌≡◌};
ghost use Rattle.pf_text.specs.declared.fault.LineError.TheVariants.{Memory, Fault};

use std::alloc::{AllocError, AllocFailed};
use thiserror::Error;

/// What is wrong with a line, in the names that any text has.
#[derive(Clone, Copy, Debug, PartialEq, Eq, Error)]
pub enum LineFault {
    /// No line has this form.
    #[error("BadLine")]
    BadLine,
    /// A field is no whole number, or one out of its range.
    #[error("BadNumber")]
    BadNumber,
}

/// Why a line gave no value.
#[derive(Clone, Copy, Debug, PartialEq, Eq, Error)]
pub enum LineError {
    /// No memory is left.
    #[error("out of memory")]
    Memory,
    /// The line is invalid.
    #[error("{0}")]
    Fault(LineFault),
}

impl From<LineFault> for LineError {
    ghost from_gives = { λ fault error. error ≡ Fault fault };

    fn from(fault: LineFault) -> LineError {
        LineError::Fault(fault)
    }
}

impl From<AllocError> for LineError {
    ghost from_gives = { λ _ error. error ≡ Memory };

    fn from(_error: AllocError) -> LineError {
        LineError::Memory
    }
}

impl<T: Drop> From<AllocFailed<T>> for LineError {
    ghost from_gives = { λ _ error. error ≡ Memory };

    fn from(_error: AllocFailed<T>) -> LineError {
        LineError::Memory
    }
}
