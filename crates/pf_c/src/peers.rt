//! Peers: made and freed.

ghost use Rattle.std.specs.Prelude.{◌≡◌, ⊤};
ghost use Rattle.pf_context.specs.Context.{peer_at, scene_at, without_peer};
ghost use Rattle.pf_context.specs.Calls.{AddsPeer, Frees, core_of};
ghost use Rattle.pf_c.specs.Calls.{Answers, Tells};

use crate::answers::{end_code, tell};
use crate::held::PfContext;
use pf_context::Key;
use std::alloc::Global;

/// Makes a peer of a scene, with a copy of it, and tells its key. Players count from 0 to 7; the
/// ring is how many of the last settled worlds the peer keeps, 1 to 64.
#[unsafe(no_mangle)]
pub extern "C" fn pf_peer_new(
    alloc: Global,
    context: &mut PfContext,
    scene: Key,
    player: u8,
    ring: u32,
    peer: &mut Key,
) -> u32
    ensures { Answers (λ before after answer.
        AddsPeer before after answer (core_of (scene_at before scene) player ring))
        (Tells (λ key. key) peer.old peer.new)
        context.old.handle.value context.new.handle.value result (peer.new ≡ peer.old) }
{
    tell(
        context.call(
            alloc,
            |inside| inside.new_peer(alloc, scene, player, ring as usize),
        ),
        peer,
    )
}

/// Frees a peer. From then on its key names nothing.
#[unsafe(no_mangle)]
pub extern "C" fn pf_peer_free(alloc: Global, context: &mut PfContext, peer: Key) -> u32
    ensures { Answers (λ before after answer.
        Frees (peer_at before peer) (without_peer before peer) before after answer)
        (λ answer. ⊤)
        context.old.handle.value context.new.handle.value result ⊤ }
{
    end_code(&context.call(alloc, |inside| inside.free_peer(peer)))
}
