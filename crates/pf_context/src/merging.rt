//! Commands that one peer of a context takes from another.

ghost use Rattle.pf_context.specs.Merging.{MergesBy};

use crate::context::Context;
use crate::error::ContextError;
use crate::key::Key;
use pf_rollback::{PeerCore, PeerError};

/// From which peers a peer takes commands.
#[derive(Clone, Copy, Debug, PartialEq, Eq)]
pub(crate) enum MergeRule {
    /// From one that has sealed the same tick, with the same world there.
    SameHorizon,
    /// From any.
    AnyHorizon,
}

/// Merges into a peer the commands that another one holds, by a rule.
fn merge(rule: MergeRule, core: &mut PeerCore, other: &PeerCore) -> Result<usize, PeerError>
    ensures { MergesBy rule other.now.peer core.old core.new result }
{
    match rule {
        MergeRule::SameHorizon => core.merge_sealed(&other.sealed()),
        MergeRule::AnyHorizon => core.merge(other.commands()),
    }
}

impl Context {
    ghost use Rattle.std.specs.Prelude.{◌≡◌, ◌≢◌, IsSome, Some};
    ghost use Rattle.pf_rollback.specs.Core.{PeerCore};
    ghost use Rattle.pf_context.specs.Context.{peer_at, with_peer};
    ghost use Rattle.pf_context.specs.Merging.{IsMerge, MergesBy, MergesPeer, MergesPeerAlone};

    /// Merges into a peer the commands that another peer of the context holds, and returns how many
    /// were new or greater. The peer refuses where the horizons differ, where the worlds there
    /// differ, and a command that its scene does not allow. Takes memory only where a command is
    /// new or greater. A peer that is merged into itself stays as it is.
    pub fn merge(&mut self, peer: Key, other: Key) -> Result<usize, ContextError>
        ensures { IsMerge MergesPeer peer other self.old self.new result }
    {
        self.merge_by(MergeRule::SameHorizon, peer, other)
    }

    /// Merges into a peer the commands that another peer of the context holds, whatever the other
    /// one has sealed, and returns how many were new or greater. The peer refuses a command that is
    /// before its horizon, and one that its scene does not allow. A peer that is merged into itself
    /// stays as it is.
    pub fn merge_alone(&mut self, peer: Key, other: Key) -> Result<usize, ContextError>
        ensures { IsMerge MergesPeerAlone peer other self.old self.new result }
    {
        self.merge_by(MergeRule::AnyHorizon, peer, other)
    }

    /// Merges into a peer the commands of another one, by a rule.
    fn merge_by(&mut self, rule: MergeRule, peer: Key, other: Key) -> Result<usize, ContextError>
        ensures { IsMerge (MergesBy rule) peer other self.old self.new result }
    {
        if self.peers.get(peer).is_none() || self.peers.get(other).is_none() {
            return Err(ContextError::BadKey);
        }
        if other == peer {
            return Ok(0);
        }
        Ok(self.merge_two(rule, peer, other)?)
    }

    /// Merges into a peer the commands that another one holds.
    fn merge_two(&mut self, rule: MergeRule, peer: Key, other: Key) -> Result<usize, PeerError>
        requires peer { IsSome (peer_at self.old peer) }
        requires other { IsSome (peer_at self.old other) }
        requires apart { other ≢ peer }
        ensures { (before others : PeerCore) → peer_at self.old peer ≡ Some before
            → peer_at self.old other ≡ Some others → (after : PeerCore)
            × MergesBy rule others.peer before after result
            × (self.new ≡ with_peer self.old peer after) }
    {
        let Some(mut core) = self.peers.take_out(peer) else {
            unreachable!()
        };
        let answer = match self.peers.get(other) {
            Some(others) => merge(rule, &mut core, others),
            None => unreachable!(),
        };
        self.peers.put_back(peer, core);
        answer
    }
}
