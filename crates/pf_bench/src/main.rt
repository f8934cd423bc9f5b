//! Repeats one task and prints its result. The cost of proved code is measured on it, beside the
//! same tasks in plain Rust.
//!
//! `pf_bench OPERATION COUNT` repeats an operation of `pf_num` or `pf_rot` in a chain and prints
//! the last number: `add`, `mul`, `div`, `mul-wide`, `div-wide`, `root`, `length` or `turn`. Each
//! step of the two wide ones takes the exact path in 128 bits. `pf_bench TASK COUNT HELD` repeats a
//! task on a map of HELD commands and prints the sum of its results: `put`, `get`, `greatest`,
//! `at-tick`, `merge-known`, `merge-greater`, `copy` or `decode`; or it computes the contact points
//! of two bodies, `circles`, `box-circle` or `boxes`, and prints the sum of their numbers; or the
//! `pairs` of a scene of HELD bodies, and prints their number. Without words it reads such calls
//! from standard input, a line each. The stored run has all of them, with results by the same tasks
//! in plain Rust.
#![tactic(auto)]

mod chain;
mod geometry;
mod maps;
mod operation;

use operation::Operation;
use std::alloc::{AllocError, Global};
use std::convert::AsStr;
use std::io::{BufRead, BufReader};
use std::process::ExitCode;
use std::{env, io};

const USAGE: &str = "\
usage: pf_bench add|mul|div|mul-wide|div-wide|root|length|turn COUNT
       pf_bench put|get|greatest|at-tick|merge-known|merge-greater|copy|decode COUNT HELD
       pf_bench circles|box-circle|boxes|pairs COUNT HELD
";

/// The last number of an operation's chain, if the word names one.
fn last_number(operation: &str, count: &str) -> Option<i128> {
    let operation = Operation::parse(operation)?;
    let last = chain::last(operation, count.parse().ok()?);
    Some(i128::from(last.raw()))
}

/// The result of a task on a map of so many commands or a scene of so many bodies, if the words
/// name one.
fn task_sum(
    alloc: Global,
    task: &str,
    count: &str,
    size: &str,
) -> Result<Option<i128>, AllocError> {
    let (count, size) = match (count.parse(), size.parse()) {
        (Ok(count), Ok(size)) if size > 0 => (count, size),
        _ => return Ok(None),
    };
    if let Some(task) = geometry::Task::parse(task) {
        return Ok(geometry::sum(alloc, task, count, size)?.map(i128::from));
    }
    match maps::Task::parse(task) {
        Some(task) => Ok(Some(i128::from(maps::sum(alloc, task, count, size)?))),
        None => Ok(None),
    }
}

/// The result of a call's words, if they name a task.
fn result_of<S: AsStr>(alloc: Global, words: &[S]) -> Result<Option<i128>, AllocError> {
    match words {
        [task, count] => Ok(last_number(task.as_str(), count.as_str())),
        [task, count, size] => task_sum(alloc, task.as_str(), count.as_str(), size.as_str()),
        _ => Ok(None),
    }
}

/// Prints the results of calls, a line each.
fn run_lines(rt: &HostRuntime) -> io::Result<()> {
    let alloc = rt.alloc();
    for line in BufReader::new(alloc, rt.reader())?.lines(alloc) {
        let line = line?;
        let words: Vec<&str> = line.split_whitespace().collect(alloc)?;
        match result_of(alloc, &words)? {
            Some(number) => println!(rt; "{number}")?,
            None => println!(rt; "no such task")?,
        }
    }
    Ok(())
}

fn main(rt: HostRuntime) -> io::Result<ExitCode> {
    let words: Vec<String> = env::args(&rt)?.skip(1).collect(rt.alloc())?;
    if words.is_empty() {
        run_lines(&rt)?;
        return Ok(ExitCode::SUCCESS);
    }
    let Some(number) = result_of(rt.alloc(), &words)? else {
        eprint!(rt; "{USAGE}")?;
        return Ok(ExitCode::from(2));
    };
    println!(rt; "{number}")?;
    Ok(ExitCode::SUCCESS)
}
