//! Players' commands: names, payloads, frames on the wire, maps of commands, and which commands a
//! scene allows.
#![tactic(auto)]

mod checking;
mod coordinate;
mod fault;
mod frame;
pub mod laws;
mod map;
mod name;
mod outcome;
mod payload;
mod weight;

pub use checking::{CheckFault, check};
pub use coordinate::Coordinate;
pub use fault::FrameFault;
pub use frame::{FRAME_LEN, decode, encode};
pub use map::CommandMap;
pub use name::{MAX_TICK, NUMBERS, Name};
pub use outcome::{Merged, Put};
pub use payload::{Command, Payload};
