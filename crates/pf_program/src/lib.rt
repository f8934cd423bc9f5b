//! The program below its streams: what the words of a call ask for, and what a call does, from its
//! words to its status.
#![tactic(auto)]

mod call;
mod command_line;

pub use call::{program, program_by_gate};
pub use command_line::{options, words_of};
