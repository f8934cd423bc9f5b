//! The console: a text's lines are parsed as a scene and events, and have replies line by line; or
//! as a scene and scripts, which are played by peers in threads.
#![tactic(auto)]

mod digits;
mod ending;
mod error;
mod fields;
mod frame;
mod grammar;
pub mod laws;
mod names;
mod phase;
mod print;
mod replying;
mod reporting;
mod request;
mod run;
mod scripts;
mod session;
mod settler;
mod turns;

pub use error::{DigitsFault, ProgramError};
pub use frame::frame_text;
pub use reporting::{finish, report};
pub use request::{Request, VERSION, perform};
pub use run::run_text;
pub use session::session_text;
