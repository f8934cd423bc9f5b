//! Runs many texts. They stand on standard input, separated by a line that no text has; for each,
//! the program prints its replies, the line that reports its error, if it has one, and `status N`.
//! It runs each text on one thread, and then with contact points by several where there are many,
//! and ends where these differ. The first line of a text may ask for another way:
//!
//! - `frame DIGITS`: the frame is printed, and nothing is run.
//! - `cuts`: the text behind it is run cut off after every byte, on one thread. For length 0, and
//!   for each length whose output differs from that of the length before, `cut LENGTH` and that
//!   output are printed. A line `frame DIGITS` is cut off as well; what is shorter than `frame `
//!   is then a text like any other.
//! - `crew`: the text is run with a crew that counts its calls, and `crew COUNT` is printed
//!   behind its output. `settle` calls the crew once for each tick that it settles, and no other
//!   line does.
//! - `crew N ERROR`: the same, and the crew fails from its call N on.
//! - `lines N`: the text is run behind so many empty lines.
//! - `streams`: the text is run with a reader that fails at one call, for each call. Where the
//!   output differs from that of the call before, `read LENGTH` and it are printed; LENGTH is how
//!   many bytes were read, and one more where all were and no call failed. Then it is run with a
//!   writer that fails at one call, for each call; where what this has flushed differs, `write`
//!   and it are printed.
//! - `words WORD ..`: the program is called with these words, and the text is its standard input.
//!
//! The stored run has what an independent program prints for the same texts; but for those of
//! crews, of help and of mistaken words.
#![tactic(auto)]

ghost use Rattle.std.specs.Prelude.{◌+◌, ◌<◌, length, IfSome};

mod crew;
mod program;
mod run;
mod streams;

use crate::crew::CountingCrew;
use crate::program::print_program;
use crate::run::{ended, run};
use crate::streams::print_streams;
use anyhow::{Context, Result, bail};
use memchr::{memchr, memmem};
use pf_console::frame_text;
use pf_manifold::{OneThread, SeveralThreads};
use pf_text::{Bytes, Collected};
use std::alloc::Global;
use std::io::{Read, Write};
use std::sync::Wait;
use std::thread::Threads;

/// What stands between two texts.
const SEPARATOR: &[u8] = b"\n= next text =\n";

/// What stands before the digits of a frame.
const FRAME: &[u8] = b"frame ";

/// The first of several texts, and the texts behind it.
fn split_once(texts: &[u8]) -> Option<(&[u8], &[u8])>
    ensures { IfSome result (λ parts. length parts.1.now < length texts.now) }
{
    match memmem::find(texts, SEPARATOR) {
        Some(end) => Some((&texts[..end], &texts[end + SEPARATOR.len()..])),
        None => None,
    }
}

/// The first line of a text, if it is text, and what stands behind it.
fn split_line(text: &[u8]) -> (&str, &[u8]) {
    let (line, rest) = match memchr(b'\n', text) {
        Some(end) => (&text[..end], &text[end + 1..]),
        None => (text, &text[text.len()..]),
    };
    (str::from_utf8(line).unwrap_or(""), rest)
}

/// The replies to a text, its error and its status, by one thread.
fn run_alone(alloc: Global, text: &[u8]) -> Result<Vec<u8>> {
    match text.strip_prefix(FRAME) {
        Some(digits) => {
            let digits = str::from_utf8(digits).context("digits are text")?;
            let mut output = Collected::new(alloc);
            let outcome = frame_text(alloc, digits, &mut output);
            ended(alloc, outcome, output.bytes())
        }
        None => run(&OneThread, alloc, &mut Bytes::new(text), &mut OneThread),
    }
}

/// Prints the replies to a text, its error and its status, which no collider changes.
fn print_run<T: Threads + Sync, W: Write>(
    rt: &T,
    alloc: Global,
    text: &[u8],
    writer: &mut W,
) -> Result<()> {
    let by_one = run_alone(alloc, text)?;
    if !text.starts_with(FRAME) {
        let mut reader = Bytes::new(text);
        let by_threads = run(&SeveralThreads { rt }, alloc, &mut reader, &mut OneThread)?;
        if by_one != by_threads {
            bail!("threads change what is written");
        }
    }
    writer.write_all(&by_one)?;
    Ok(())
}

/// Prints what a text gives cut off after every byte, for each length that changes it.
fn print_cuts<W: Write>(alloc: Global, text: &[u8], writer: &mut W) -> Result<()> {
    let mut last = Vec::new(alloc);
    for length in 0..=text.len() {
        let output = run_alone(alloc, &text[..length])?;
        // The output of a text is never empty, so that of length 0 is printed.
        if output != last {
            writeln!(writer, "cut {length}")?;
            writer.write_all(&output)?;
        }
        last = output;
    }
    Ok(())
}

/// Prints what a text gives with a crew that counts its calls, and fails as these words say, and
/// how many calls they were.
fn print_counted<W: Write>(
    alloc: Global,
    text: &[u8],
    words: &[&str],
    writer: &mut W,
) -> Result<()> {
    let mut crew = CountingCrew::new(words)?;
    let output = run(&OneThread, alloc, &mut Bytes::new(text), &mut crew)?;
    writer.write_all(&output)?;
    let calls = crew.calls;
    writeln!(writer, "crew {calls}")?;
    Ok(())
}

/// Prints what a text gives behind so many empty lines.
fn print_far<W: Write>(alloc: Global, text: &[u8], lines: &str, writer: &mut W) -> Result<()> {
    let count: usize = lines.parse().context("a number of lines")?;
    let mut far = vec![in alloc; b'\n'; count]?;
    far.extend_from_slice(text)?;
    let output = run_alone(alloc, &far)?;
    writer.write_all(&output)?;
    Ok(())
}

/// Prints what a text gives, in the way that its first line asks for.
fn print<T: Threads + Wait + Copy + Send + Sync + 'static, W: Write>(
    rt: &T,
    alloc: Global,
    text: &[u8],
    writer: &mut W,
) -> Result<()> {
    let (line, rest) = split_line(text);
    let words: Vec<&str> = line.split(' ').collect(alloc)?;
    match words.as_slice() {
        ["cuts"] => print_cuts(alloc, rest, writer),
        ["streams"] => print_streams(alloc, rest, writer),
        ["crew", fails @ ..] => print_counted(alloc, rest, fails, writer),
        ["lines", count] => print_far(alloc, rest, count, writer),
        ["words", words @ ..] => print_program(*rt, alloc, words, rest, writer),
        _ => print_run(rt, alloc, text, writer),
    }
}

fn main(rt: HostRuntime) -> Result<()> {
    let alloc = rt.alloc();
    let mut texts = Vec::new(alloc);
    rt.stdin().read_to_end(&mut texts)?;
    let mut rest = texts.as_slice();
    while let Some((text, others)) = split_once(rest) {
        print(&rt, alloc, text, &mut rt.stdout())?;
        rest = others;
    }
    print(&rt, alloc, rest, &mut rt.stdout())
}
