//! Which gate a line asks for.

use anyhow::{Context, Result, bail};
use std::alloc::Global;
use std::sync::Arc;
use tests_gates::{Book, Rule, TrialGate};

/// A gate with a rule, and the book that it keeps.
#[derive(Debug, Drop)]
pub struct NotedGate<const IS_OPEN: bool> {
    pub gate: TrialGate<IS_OPEN>,
    pub book: Arc<Book, Global>,
}

impl<const IS_OPEN: bool> NotedGate<IS_OPEN> {
    /// A gate for so many peers.
    fn new(alloc: Global, rule: Rule, peers: usize) -> Result<NotedGate<IS_OPEN>> {
        let book = Arc::new(alloc, Book::new(alloc, peers)?)?;
        let gate = TrialGate::new(rule, Arc::try_clone(&book)?);
        Ok(NotedGate { gate, book })
    }
}

/// The gate of a session.
#[derive(Debug, Drop)]
pub enum SessionGate {
    /// Open for all, and nothing is noted.
    Open,
    /// A gate that its rule shuts.
    Ruled(NotedGate<false>),
    /// A gate that only notes when its rule would shut it.
    Noting(NotedGate<true>),
}

fn number(word: &str) -> Result<usize> {
    word.parse::<usize>().context("reading a number")
}

/// The rule that words encode, and for how many of these peers.
fn rule_of(words: &[&str], peers: usize) -> Result<(Rule, usize)> {
    Ok(match words {
        ["meeting" | "counting", count] => (Rule::Meeting, number(count)?),
        ["shut-from", peer, turn] => {
            let (worker, turn) = (number(peer)?, number(turn)?);
            (Rule::ShutFrom { worker, turn }, peers)
        }
        ["after", peer, turn, other] => {
            let (worker, turn, other) = (number(peer)?, number(turn)?, number(other)?);
            (
                Rule::After {
                    worker,
                    turn,
                    other,
                },
                peers,
            )
        }
        _ => bail!("no such gate"),
    })
}

/// The gate that words encode, for so many peers.
pub fn gate_of(alloc: Global, words: &[&str], peers: usize) -> Result<SessionGate> {
    if let ["open"] = words {
        return Ok(SessionGate::Open);
    }
    let (rule, peers) = rule_of(words, peers)?;
    match words {
        ["counting", ..] => Ok(SessionGate::Noting(NotedGate::new(alloc, rule, peers)?)),
        _ => Ok(SessionGate::Ruled(NotedGate::new(alloc, rule, peers)?)),
    }
}
