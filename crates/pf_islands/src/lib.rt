//! Groups of bodies that contacts connect: which of them are awake, and which go to sleep; and the
//! islands of a tick, in which awake bodies are solved.
#![tactic(auto)]

mod active;
mod awake;
mod dealing;
mod forest;
mod groups;
mod island;
mod joining;
pub mod laws;
mod marks;
mod sizes;
mod sleep;
mod splitting;

pub use island::Island;
pub use joining::join_back;
pub use sleep::{fall_asleep, sleep_if_still};
pub use splitting::{LoneBodies, Parts, split, wake_and_split};
