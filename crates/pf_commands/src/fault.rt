//! Why a frame is invalid.

use thiserror::Error;

/// Why bytes encode no command. Of several causes it is the first in this order.
#[derive(Clone, Copy, Debug, PartialEq, Eq, Error)]
pub enum FrameFault {
    /// There are fewer than 27 bytes.
    #[error("the frame has fewer than 27 bytes")]
    Short,
    /// There are more than 27 bytes.
    #[error("the frame has more than 27 bytes")]
    Long,
    /// The first byte is neither 1 nor 2.
    #[error("the frame begins with neither 1 nor 2")]
    BadVersion,
    /// The version has no such kind: version 1 has 0 to 2 (push, turn, stop), 2 has 3 (place).
    #[error("the kind is none of its version: 0 to 2 of version 1, 3 of version 2")]
    BadKind,
    /// A turn has a y that is not 0, or a stop an x or a y.
    #[error("a field that the command does not use is not 0")]
    NotCanonical,
    /// A field is out of its range; x and y of a place have that of
    /// [`Coordinate`](crate::Coordinate).
    #[error("a field is out of its range: the tick is below 2^20, the player below 8, \
         the body below 1,024, a number within 2^31, or of a place within 2^20")]
    OutOfRange,
}
