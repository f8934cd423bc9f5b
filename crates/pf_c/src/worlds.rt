//! The worlds that peers show, in buffers of C.

ghost use Rattle.std.specs.Prelude.{◌≡◌, ◌≢◌, Err, Some};
ghost use Rattle.pf_rollback.specs.Core.{PeerCore};
ghost use Rattle.pf_rollback.specs.Peer.{IsEmptyBefore};
ghost use Rattle.pf_context.specs.declared.error.ContextError.TheVariants.{OutOfMemory};
ghost use Rattle.pf_context.specs.Context.{peer_at};
ghost use Rattle.pf_context.specs.Worlds.{ShowsBase, ShowsWorld};
ghost use Rattle.pf_c.specs.Calls.{Answers};
ghost use Rattle.pf_c.specs.Buffers.{needed_sizes};

use crate::answers::code_of;
use crate::codes::PF_CLOSED;
use crate::held::PfContext;
use pf_context::{ContextError, Key, PlainBody, PlainContact, Sizes};
use std::alloc::Global;

/// How many bodies and how many contacts a world has.
#[derive(Clone, Copy, Debug, PartialEq, Eq)]
#[repr(C)]
pub struct PfSizes {
    pub bodies: u64,
    pub contacts: u64,
}

/// Tells what a world needs, where that is known.
fn tell_sizes(sizes: &mut PfSizes, answer: &Result<Sizes, ContextError>)
    ensures { sizes.new ≡ needed_sizes sizes.old answer.now }
{
    if let Ok(needed) | Err(ContextError::SmallBuffers(needed)) = answer {
        *sizes = PfSizes {
            bodies: needed.bodies as u64,
            contacts: needed.contacts as u64,
        };
    }
}

/// Writes the world of a peer at a tick, from its horizon to the tick that it has reached, to the
/// fronts of two buffers, and tells how many bodies and contacts it has. Where a buffer is too
/// small for them, that is told all the same, and nothing is written.
#[unsafe(no_mangle)]
pub extern "C" fn pf_peer_world(
    alloc: Global,
    context: &mut PfContext,
    peer: Key,
    tick: u32,
    bodies: &mut [PlainBody],
    contacts: &mut [PlainContact],
    sizes: &mut PfSizes,
) -> u32
    ensures { Answers (λ before after answer. (after ≡ before)
        × ShowsWorld (peer_at before peer) tick
        (record { bodies = bodies.old; contacts = contacts.old })
        (record { bodies = bodies.new; contacts = contacts.new }) answer
        × ((core : PeerCore) → peer_at before peer ≡ Some core → IsEmptyBefore core.peer tick
        → answer ≢ Err OutOfMemory))
        (λ answer. sizes.new ≡ needed_sizes sizes.old answer)
        context.old.handle.value context.new.handle.value result
        ((bodies.new ≡ bodies.old) × (contacts.new ≡ contacts.old) × (sizes.new ≡ sizes.old)) }
{
    let Some(inside) = context.take_out(alloc) else {
        return PF_CLOSED;
    };
    let answer = inside.world(alloc, peer, tick, bodies, contacts);
    context.put_back(inside);
    tell_sizes(sizes, &answer);
    code_of(&answer)
}

/// Writes the world at the horizon of a peer, as [`pf_peer_world`] does, but simulates nothing and
/// takes no memory.
#[unsafe(no_mangle)]
pub extern "C" fn pf_peer_base(
    alloc: Global,
    context: &mut PfContext,
    peer: Key,
    bodies: &mut [PlainBody],
    contacts: &mut [PlainContact],
    sizes: &mut PfSizes,
) -> u32
    ensures { Answers (λ before after answer. (after ≡ before)
        × ShowsBase (peer_at before peer)
        (record { bodies = bodies.old; contacts = contacts.old })
        (record { bodies = bodies.new; contacts = contacts.new }) answer
        × (answer ≢ Err OutOfMemory))
        (λ answer. sizes.new ≡ needed_sizes sizes.old answer)
        context.old.handle.value context.new.handle.value result
        ((bodies.new ≡ bodies.old) × (contacts.new ≡ contacts.old) × (sizes.new ≡ sizes.old)) }
{
    let Some(inside) = context.take_out(alloc) else {
        return PF_CLOSED;
    };
    let answer = inside.base(peer, bodies, contacts);
    context.put_back(inside);
    tell_sizes(sizes, &answer);
    code_of(&answer)
}
