//! Links, and a peer that polls one, on one thread. Peers that play scripts over links stand in the
//! stored run of `runs_peers`.

use pf_commands::FRAME_LEN;
use pf_peers::{Link, LinkIn, LinkOut, Peer};
use pf_rollback::{MAX_RING, PeerCore};
use pf_shapes::Scene;
use std::alloc::{AllocError, Global};
use std::test::Fail;

/// Hands in frames whose bytes are all the same.
fn hand_in(out: &mut LinkOut, bytes: &[u8]) -> Result<(), AllocError> {
    for byte in bytes {
        out.hand_in([*byte; FRAME_LEN])?;
    }
    Ok(())
}

/// Whether looks find these frames, and then none.
fn finds(into: &mut LinkIn, bytes: &[u8]) -> bool {
    for byte in bytes {
        if into.look() != Some([*byte; FRAME_LEN]) {
            return false;
        }
    }
    into.look().is_none()
}

/// Whether frames arrive in order, also where there are more than the link has room for.
fn arrive(out: &mut LinkOut, into: &mut LinkIn) -> Result<bool, AllocError> {
    hand_in(out, &[1, 2, 3])?;
    let first = finds(into, &[1, 2]);
    hand_in(out, &[4])?;
    Ok(first && finds(into, &[3, 4]))
}

#[test]
fn frames_arrive_in_order(rt: HostRuntime) -> Result<(), Fail> {
    let (mut out, mut into) = Link::pair(rt.alloc(), 2)?;
    let is_so = arrive(&mut out, &mut into)?;
    assert!(rt; is_so);
    Ok(())
}

/// A circle of player 0.
const SCENE: &[u8] = b"gravity 0 0\ncircle 0 16777216 0 16777216 0 0\nend\n";

/// A peer of player 1 at tick 0 with this link to it.
fn linked(alloc: Global, input: LinkIn) -> Result<Peer, Fail> {
    let scene = Scene::read(alloc, SCENE)?;
    let core = PeerCore::new(alloc, scene, 1, MAX_RING)?;
    let mut inputs = Vec::new(alloc);
    inputs.push(input)?;
    Ok(Peer::new(core, Vec::new(alloc), inputs))
}

/// Whether a frame that comes is refused, and counted. Nothing here can wait, as it takes no
/// runtime: so no mutex stands round a peer or a link.
fn is_refused(
    peer: &mut Peer,
    other: &mut LinkOut,
    frame: [u8; FRAME_LEN],
) -> Result<bool, AllocError> {
    other.hand_in(frame)?;
    let polled = peer.poll()?;
    Ok(polled.taken == 1 && polled.refused == 1 && peer.core().commands().is_empty())
}

#[test]
fn a_refused_frame_is_counted_with_no_mutex_per_peer(rt: HostRuntime) -> Result<(), Fail> {
    let (mut other, input) = Link::pair(rt.alloc(), 1)?;
    let mut peer = linked(rt.alloc(), input)?;
    let is_refused = is_refused(&mut peer, &mut other, [9; FRAME_LEN])?;
    assert!(rt; is_refused);
    Ok(())
}
