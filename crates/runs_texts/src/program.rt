//! Calls of the program with words.

use anyhow::{Result, bail};
use pf_program::program;
use pf_text::{Bytes, Collected};
use std::alloc::Global;
use std::io::Write;
use std::process::ExitCode;
use std::sync::Wait;
use std::thread::Threads;

/// The number of a status from 0 to 3.
fn number_of(status: ExitCode) -> Result<u8> {
    for number in 0..4 {
        if status == ExitCode::from(number) {
            return Ok(number);
        }
    }
    bail!("no such status")
}

/// Prints what the program writes for these words and a text on standard input, what it reports,
/// and its status.
pub fn print_program<T: Threads + Wait + Copy + Send + Sync + 'static, W: Write>(
    rt: T,
    alloc: Global,
    words: &[&str],
    text: &[u8],
    writer: &mut W,
) -> Result<()> {
    let words = Ok(Vec::from_slice(alloc, words)?);
    let mut output = Collected::new(alloc);
    let mut errors = Collected::new(alloc);
    let mut reader = Bytes::new(text);
    let status = program(rt, alloc, words, &mut reader, &mut output, &mut errors);
    writer.write_all(output.bytes())?;
    writer.write_all(errors.bytes())?;
    let number = number_of(status)?;
    writeln!(writer, "status {number}")?;
    Ok(())
}
