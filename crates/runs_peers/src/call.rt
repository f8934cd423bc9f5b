//! Calls, and the lines that encode them.

use crate::plan::{Plan, plan_of};
use anyhow::{Context, Result, bail};
use pf_commands::{Coordinate, Payload};
use pf_num::Fx;
use pf_step::CrewError;
use std::alloc::Global;

/// A call on a peer.
#[derive(Debug, Drop)]
pub enum Call {
    /// Makes the peer of a player, with a ring of so many places.
    New { player: u8, ring: usize },
    Advance { ticks: u32 },
    Issue { payload: Payload },
    Take { frame: Vec<u8> },
    /// Merges the commands of another peer.
    Merge { other: usize },
    /// Merges what another peer holds, with its horizon and its world there.
    MergeSealed { other: usize },
    Seal { tick: u32 },
    Settle,
    /// Settles with a crew, which fails in this solve, if one is given.
    SettleWith { failure: Option<(u64, CrewError)> },
    /// Makes a crew of threads.
    Crews { plan: Plan },
    /// Settles with the crew of threads.
    Threads,
    /// Ends a worker of the crew of threads.
    Dismiss { worker: usize },
    /// Ends the crew of threads.
    Close,
    World { tick: u32 },
    /// The world that the peer lends.
    Latest,
    /// Compares the worlds of another peer at each tick from a first to a last one.
    Same { other: usize, first: u32, last: u32 },
}

/// The number that a word encodes.
fn number(word: &str) -> Result<u32> {
    word.parse::<u32>().context("reading a number")
}

/// The number in units of 2^-24 that a word encodes.
fn raw(word: &str) -> Result<Fx> {
    let raw = word.parse::<i64>().context("reading a number")?;
    Fx::from_raw(raw).context("a number is out of range")
}

/// The coordinate in units of 2^-24 that a word encodes.
fn coordinate(word: &str) -> Result<Coordinate> {
    Coordinate::new(raw(word)?).context("a coordinate is out of range")
}

/// The number of a body that a word encodes.
fn body_number(word: &str) -> Result<u16> {
    word.parse::<u16>().context("reading a body's number")
}

/// The command that words encode.
fn payload_of(words: &[&str]) -> Result<Payload> {
    Ok(match words {
        ["push", body, x, y] => Payload::Push {
            body: body_number(body)?,
            x: raw(x)?,
            y: raw(y)?,
        },
        ["turn", body, x] => Payload::Turn {
            body: body_number(body)?,
            x: raw(x)?,
        },
        ["stop", body] => Payload::Stop {
            body: body_number(body)?,
        },
        ["place", body, x, y] => Payload::Place {
            body: body_number(body)?,
            x: coordinate(x)?,
            y: coordinate(y)?,
        },
        _ => bail!("no such command"),
    })
}

/// The error of this name.
fn crew_error(name: &str) -> Result<CrewError> {
    Ok(match name {
        "OutOfMemory" => CrewError::OutOfMemory,
        "NoThread" => CrewError::NoThread,
        "GateShut" => CrewError::GateShut,
        "CrewLost" => CrewError::CrewLost,
        _ => bail!("no such error of a crew"),
    })
}

/// In which call a crew fails, and with which error, if it is to fail.
fn failure_of(words: &[&str]) -> Result<Option<(u64, CrewError)>> {
    Ok(match words {
        [] => None,
        [nth, error] => Some((u64::from(number(nth)?), crew_error(error)?)),
        _ => bail!("no such failure"),
    })
}

/// The call with a crew that words encode, of which the second is the number of the peer.
fn call_of_a_crew(words: &[&str]) -> Result<Call> {
    Ok(match words {
        ["crew", _, failure @ ..] => Call::SettleWith {
            failure: failure_of(failure)?,
        },
        ["crews", _, life, workers, gate @ ..] => Call::Crews {
            plan: plan_of(life, workers, gate)?,
        },
        ["threads", _] => Call::Threads,
        ["dismiss", _, worker] => Call::Dismiss {
            worker: number(worker)? as usize,
        },
        ["close", _] => Call::Close,
        _ => bail!("no such call"),
    })
}

/// The call that words encode, of which the second is the number of the peer.
fn call_of(alloc: Global, words: &[&str]) -> Result<Call> {
    Ok(match words {
        ["new", _, player, ring] => Call::New {
            player: player.parse::<u8>().context("reading a player")?,
            ring: number(ring)? as usize,
        },
        ["advance", _, ticks] => Call::Advance {
            ticks: number(ticks)?,
        },
        ["issue", _, payload @ ..] => Call::Issue {
            payload: payload_of(payload)?,
        },
        ["take", _, digits] => Call::Take {
            frame: hex::decode(alloc, digits).context("reading digits")?,
        },
        ["merge", _, other] => Call::Merge {
            other: number(other)? as usize,
        },
        ["merge-sealed", _, other] => Call::MergeSealed {
            other: number(other)? as usize,
        },
        ["seal", _, tick] => Call::Seal {
            tick: number(tick)?,
        },
        ["settle", _] => Call::Settle,
        ["world", _, tick] => Call::World {
            tick: number(tick)?,
        },
        ["latest", _] => Call::Latest,
        ["same", _, other, first, last] => Call::Same {
            other: number(other)? as usize,
            first: number(first)?,
            last: number(last)?,
        },
        words => return call_of_a_crew(words),
    })
}

/// The number of the peer and the call that words encode.
pub fn parse(alloc: Global, words: &[&str]) -> Result<(usize, Call)> {
    let peer = words.get(1).context("no peer")?;
    Ok((number(peer)? as usize, call_of(alloc, words)?))
}
