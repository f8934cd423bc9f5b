//! Prints results of operations on numbers, vectors, rotations and frames, and contact points of
//! pairs of bodies, to compare them with an independent program's.
//!
//! A line is an operation and its raw numbers, as `add A B`, `dot X Y U V`, `turn C S SPIN` or
//! `whole N`; or `frame HEX`, which prints the command that a frame encodes, or `encode HEX`,
//! which encodes that command again. The output is a line for each.
//!
//! Or two lines are a pair of bodies, each `circle R X Y C S` or `box HX HY X Y C S`, of raw
//! numbers; C and S are the cosine and sine of the body's rotation, as they are. The output is
//! `apart` or `overlap`, by the bounds, a line `point FEATURE X Y NX NY SEPARATION` for each
//! contact point, and `end`.
//!
//! The stored run has thousands of operations, random ones and some at the ends of ranges, and 470
//! pairs: random ones, and some of each kind of clipping, of each region of a box, and with
//! saturated numbers. Their values are those of an independent program.
#![tactic(auto)]

mod numbers;
mod pairs;

use crate::numbers::output_of;
use crate::pairs::pair_text;
use anyhow::{Result, bail};
use std::alloc::Global;
use std::io::{BufRead, BufReader, BufWriter, Write};

/// Whether a line is a body of a pair.
fn is_body(line: &str) -> bool {
    line.starts_with("circle ") || line.starts_with("box ")
}

/// Prints the output for a body, if it is the second of its pair. Returns the line of the first one
/// of a pair that has no second one yet.
fn print_body<W: Write>(
    alloc: Global,
    first: Option<String>,
    line: String,
    writer: &mut W,
) -> Result<Option<String>> {
    let Some(first) = first else {
        return Ok(Some(line));
    };
    let text = pair_text(alloc, first.as_str(), line.as_str())?;
    write!(writer, "{text}")?;
    Ok(None)
}

fn main(rt: HostRuntime) -> Result<()> {
    let alloc = rt.alloc();
    let mut writer = BufWriter::new(alloc, std::io::writer(&rt))?;
    let mut first = None;
    for line in BufReader::new(alloc, rt.reader())?.lines(alloc) {
        let line = line?;
        if is_body(line.as_str()) {
            first = print_body(alloc, first, line, &mut writer)?;
        } else {
            let text = output_of(alloc, line.as_str())?;
            writeln!(writer, "{text}")?;
        }
    }
    writer.flush()?;
    match first {
        None => Ok(()),
        Some(line) => bail!("a body without a second one: {line}"),
    }
}
