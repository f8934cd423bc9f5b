//! Texts as lines, fields and whole numbers: what a program that processes lines needs, whatever
//! the lines mean.
#![tactic(auto)]

mod driver;
mod fault;
mod fields;
pub mod laws;
mod lines;
mod memory;
mod numbers;
mod streams;
mod words;

pub use driver::{DriveError, Machine, TakeError, drive};
pub use fault::{LineError, LineFault};
pub use fields::fields_of;
pub use lines::{
    LINE_CAPACITY, LineBuffer, MAX_LINE, ReadFailed, Sink, Source, Taken, WriteFailed, take_line,
};
pub use memory::{Bytes, Collected};
pub use numbers::{ParsedNumber, integer, number, whole};
pub use streams::{Input, Output};
pub use words::{push_line, push_words};
