//! Peers of one scene, and lists of events on them.
#![tactic(auto)]

mod answering;
mod event;
pub mod laws;
mod replay;
mod session;

pub use event::{Event, Reply};
pub use replay::run;
pub use session::Session;
