//! The peers of a text, with their crews of threads, and the calls on them.

use crate::call::Call;
use crate::print::state_text;
use crate::threads::{Handle, ThreadCrew};
use crate::{peers, threads};
use anyhow::{Context, Result, bail};
use pf_rollback::PeerCore;
use pf_shapes::Scene;
use std::alloc::Global;

/// The peers of a text, and their crews of threads.
#[derive(Drop)]
pub struct Table<'r, R> {
    rt: &'r R,
    alloc: Global,
    scene: Scene,
    peers: Vec<PeerCore>,
    crews: Vec<Option<ThreadCrew<'r, R>>>,
}

impl<'r, R: Handle> Table<'r, R> {
    pub fn new(rt: &'r R, alloc: Global, scene: Scene) -> Table<'r, R> {
        Table {
            rt,
            alloc,
            scene,
            peers: Vec::new(alloc),
            crews: Vec::new(alloc),
        }
    }

    /// The scene of the peers.
    pub fn scene(&self) -> &Scene {
        &self.scene
    }

    /// The line of a peer.
    pub fn state(&self, number: usize) -> Result<String> {
        let peer = self.peers.get(number).context("no such peer")?;
        Ok(state_text(self.alloc, number, peer)?)
    }

    /// The text of what a call returned.
    pub fn answer(&mut self, number: usize, call: &Call) -> Result<String> {
        let (rt, alloc) = (self.rt, self.alloc);
        if let Call::New { player, ring } = call {
            self.crews.push(None)?;
            return peers::new(alloc, &self.scene, &mut self.peers, number, *player, *ring);
        }
        if let Call::Merge { other } = call {
            return peers::merge(alloc, &mut self.peers, number, *other);
        }
        if let Call::MergeSealed { other } = call {
            return peers::merge_sealed(alloc, &mut self.peers, number, *other);
        }
        if let Call::Same { other, first, last } = call {
            let peer = self.peers.get(number).context("no such peer")?;
            let other = self.peers.get(*other).context("no other peer")?;
            return peers::same(alloc, peer, other, *first, *last);
        }
        let peer = self.peers.get_mut(number).context("no such peer")?;
        let crew = self.crews.get_mut(number).context("no such peer")?;
        answer(rt, alloc, peer, crew, call)
    }
}

/// The text of what a call on one peer returned.
fn answer<'r, R: Handle>(
    rt: &'r R,
    alloc: Global,
    peer: &mut PeerCore,
    crew: &mut Option<ThreadCrew<'r, R>>,
    call: &Call,
) -> Result<String> {
    match call {
        Call::New { .. } | Call::Merge { .. } | Call::MergeSealed { .. } | Call::Same { .. } =>
            bail!("a call on more than one peer"),
        Call::Advance { ticks } => peers::advance(alloc, peer, *ticks),
        Call::Issue { payload } => peers::issue(alloc, peer, *payload),
        Call::Take { frame } => peers::take(alloc, peer, frame),
        Call::Seal { tick } => peers::seal(alloc, peer, *tick),
        Call::Settle => peers::settle(alloc, peer),
        Call::SettleWith { failure } => peers::settle_with(rt, alloc, peer, *failure),
        Call::Crews { plan } => threads::make(rt, alloc, crew, *plan),
        Call::Threads => threads::settle(rt, alloc, peer, crew),
        Call::Dismiss { worker } => threads::dismiss(alloc, crew, *worker),
        Call::Close => threads::close(alloc, crew),
        Call::World { tick } => peers::world(alloc, peer, *tick),
        Call::Latest => peers::latest(alloc, peer),
    }
}
