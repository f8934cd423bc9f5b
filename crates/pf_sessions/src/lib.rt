//! Sessions: each peer plays its script in a thread of its own, and hands its frames to the others
//! over lock-free rings. Where none fails, each holds the commands of all scripts at the end, under
//! every schedule.
#![tactic(auto)]

mod ending;
pub mod laws;
mod links;
mod playing;
mod rest;
mod session;
mod table;

pub use links::{LINK_CAPACITY, RING, linked_peers};
pub use session::run_session;
