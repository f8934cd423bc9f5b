//! Peers that play scripts: in each turn a peer takes its own frames and hands them to the others,
//! takes those that have come over its links, and goes on by some ticks.
#![tactic(auto)]

mod error;
pub mod laws;
mod peer;
mod play;
mod ranges;
mod taking;
mod turn;

pub use error::SessionError;
pub use peer::{Peer, Polled};
pub use play::MAX_POLLS;
pub use taking::take;
pub use turn::Turn;
