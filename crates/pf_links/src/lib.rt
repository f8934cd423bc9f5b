//! Links: frames on their way from one peer to another, over a bounded lock-free ring.
#![tactic(auto)]

mod input;
pub mod laws;
mod output;
mod pair;

pub use input::LinkIn;
pub use output::LinkOut;
pub use pair::{Link, MAX_CAPACITY};
