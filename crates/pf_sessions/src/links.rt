//! The peers of a session before it begins, and the links between them.

ghost use Rattle.std.specs.Prelude.{◌≡◌, ◌-◌, ◌<◌, ◌≤◌, IfOk, length};
ghost use Rattle.std.specs.List.{AllZip};
ghost use Rattle.pf_shapes.specs.declared.fixture.TheConstants.{PLAYERS};
ghost use Rattle.pf_sessions.specs.Links.{AreLinked, IsNewLink, table_rows};
ghost use Rattle.pf_sessions.specs.Playing.{AreNewPeers};

use crate::table::transpose;
use pf_links::{Link, LinkIn, LinkOut, MAX_CAPACITY};
use pf_rollback::{MAX_RING, PeerCore};
use pf_scripts::Peer;
use pf_shapes::Scene;
use std::alloc::{AllocError, Global};

/// How many frames the ring of each link has room for. More wait in the sender's backlog.
pub const LINK_CAPACITY: usize = MAX_CAPACITY;

/// How many settled worlds each peer keeps beside its keyframes.
pub const RING: usize = MAX_RING;

/// Links from so many peers to one: the senders' ends, and the receiver's.
fn links_to_one(alloc: Global, senders: usize) -> Result<(Vec<LinkOut>, Vec<LinkIn>), AllocError>
    ensures links { IfOk result (λ ends. AllZip IsNewLink ends.0.items ends.1.items) }
    ensures count { IfOk result (λ ends. length ends.0.items ≡ senders) }
{
    let mut outputs = Vec::with_capacity(alloc, senders)?;
    let mut inputs = Vec::with_capacity(alloc, senders)?;
    for _ in 0..senders {
        let (output, input) = Link::pair(alloc, LINK_CAPACITY)?;
        outputs.push(output)?;
        inputs.push(input)?;
    }
    Ok((outputs, inputs))
}

/// A link from each of so many peers to each other one: for each peer a row of the ends of its
/// links to the others, and a row of the ends of theirs to it.
fn links_among(
    alloc: Global,
    peers: usize,
) -> Result<(Vec<Vec<LinkOut>>, Vec<Vec<LinkIn>>), AllocError>
    ensures links { IfOk result (λ links.
        AreLinked IsNewLink (table_rows links.0.items) (table_rows links.1.items)) }
    ensures counts { IfOk result (λ links.
        (length links.0.items ≡ peers) × (length links.1.items ≡ peers)) }
{
    let mut senders = Vec::with_capacity(alloc, peers)?;
    let mut inputs = Vec::with_capacity(alloc, peers)?;
    for _ in 0..peers {
        let (to_one, of_one) = links_to_one(alloc, peers - 1)?;
        senders.push(to_one)?;
        inputs.push(of_one)?;
    }
    Ok((transpose(alloc, senders)?, inputs))
}

/// `count` new peers of the scene, each two of which are linked both ways. The player of each is
/// its number; its ends of links are in the order of the others. For a game that starts the threads
/// of its peers itself.
pub fn linked_peers(alloc: Global, scene: &Scene, count: usize) -> Result<Vec<Peer>, AllocError>
    requires { count ≤ PLAYERS }
    ensures peers { IfOk result (λ peers. AreNewPeers scene.now count peers.items) }
{
    let (mut outputs, mut inputs) = links_among(alloc, count)?;
    let mut peers = Vec::with_capacity(alloc, count)?;
    for player in 0..count {
        let core = PeerCore::new(alloc, scene.try_clone()?, player as u8, RING)?;
        peers.push(Peer::new(core, outputs.remove(0), inputs.remove(0)))?;
    }
    Ok(peers)
}
