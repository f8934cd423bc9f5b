//! The peer core: the commands that one player's peer holds, and the worlds that they make.
//!
//! A peer holds commands for any tick from its horizon on, its own and others', in whatever order
//! they come. Each world that it shows is the simulation from tick zero of the commands that it
//! holds and of those that it has sealed.
#![tactic(auto)]

mod error;
pub mod laws;
mod peer;
mod sealed;
mod simulate;
mod snapshots;

pub use error::{PeerError, Refusal};
pub use peer::{MAX_RING, PeerCore};
pub use sealed::Sealed;
pub use snapshots::KEYFRAME_INTERVAL;
