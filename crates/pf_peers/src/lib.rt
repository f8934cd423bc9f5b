//! Peers of one scene: as a list of events on one thread ([`run`]), and as threads that exchange
//! frames over links ([`run_session`]). Each call stands, with its contract, in one of the crates
//! below.
#![tactic(auto)]

pub use pf_events::{Event, Reply, Session, run};
pub use pf_links::{Link, LinkIn, LinkOut, MAX_CAPACITY};
pub use pf_scripts::{MAX_POLLS, Peer, Polled, SessionError, Turn};
pub use pf_sessions::{LINK_CAPACITY, RING, linked_peers, run_session};
