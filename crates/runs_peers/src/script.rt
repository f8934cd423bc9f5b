//! The scripts of a session.

use anyhow::{Context, Result, bail};
use pf_scripts::Turn;
use pf_shapes::PLAYERS;
use std::alloc::Global;

/// The scripts of the peers, by their numbers: at most [`PLAYERS`].
#[derive(Drop)]
pub struct Scripts {
    scripts: Vec<Vec<Turn>>,
}

/// The frames that digits encode.
fn frames_of(alloc: Global, words: &[&str]) -> Result<Vec<Vec<u8>>> {
    let mut frames = Vec::with_capacity(alloc, words.len())?;
    for word in words {
        frames.push(hex::decode(alloc, *word).context("reading digits")?)?;
    }
    Ok(frames)
}

impl Scripts {
    pub fn new(alloc: Global) -> Scripts {
        Scripts {
            scripts: Vec::new(alloc),
        }
    }

    pub fn as_slice(&self) -> &[Vec<Turn>] {
        self.scripts.as_slice()
    }

    /// Adds a turn to the script of a peer; peers before it that have none have empty scripts.
    pub fn add(&mut self, alloc: Global, peer: &str, ticks: &str, frames: &[&str]) -> Result<()> {
        let peer = peer.parse::<usize>().context("reading a peer")?;
        if peer >= usize::from(PLAYERS) {
            bail!("no such peer");
        }
        let turn = Turn {
            frames: frames_of(alloc, frames)?,
            ticks: ticks.parse::<u32>().context("reading ticks")?,
        };
        for _ in self.scripts.len()..peer + 1 {
            self.scripts.push(Vec::new(alloc))?;
        }
        match self.scripts.get_mut(peer) {
            Some(script) => Ok(script.push(turn)?),
            None => bail!("no such peer"),
        }
    }
}
