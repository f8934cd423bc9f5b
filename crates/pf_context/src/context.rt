//! The context.

ghost use Rattle.std.specs.Prelude.{◌≡◌};

use crate::error::ContextError;
use crate::key::Key;
use crate::table::Table;
use pf_rollback::PeerCore;
use pf_shapes::Scene;
use std::alloc::Global;
use std::marker::Model;

/// Scenes and peers, each under a key of its own.
///
/// Contracts see the slots of the scenes and those of the peers.
#[derive(Drop)]
pub struct Context {
    pub(crate) scenes: Table<Scene>,
    pub(crate) peers: Table<PeerCore>,
}

impl Model for Context {
    ghost use Rattle.std.specs.Coded.{codes};
    ghost use Rattle.pf_commands.specs.contracts.map.CommandMap.{the_row};
    ghost use Rattle.pf_context.specs.Context.{Context};

    ghost Value = { Context };

    ghost coded = { Prim.hlevel (codes, the_row.coded) };

    ghost view = { λ c. record { scenes = c.scenes; peers = c.peers } };
}

impl Context {
    ghost use Rattle.std.specs.Prelude.{IfErr, IfOk, None, Some};
    ghost use Rattle.pf_context.specs.Context.{empty_context, peer_at};

    /// A context of no scenes and no peers. Takes no memory.
    pub fn new(alloc: Global) -> Context
        ensures { result ≡ empty_context }
    {
        Context {
            scenes: Table::new(alloc),
            peers: Table::new(alloc),
        }
    }

    /// The peer that a key names.
    pub(crate) fn core(&self, peer: Key) -> Result<&PeerCore, ContextError>
        ensures some { IfOk result (λ core. peer_at self.now peer ≡ Some core.now) }
        ensures none { IfErr result (λ error.
            (error ≡ ContextError.BadKey) × (peer_at self.now peer ≡ None)) }
    {
        self.peers.get(peer).ok_or(ContextError::BadKey)
    }
}
