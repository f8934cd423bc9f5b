//! The frames of the commands that peers hold, in a buffer of C.

ghost use Rattle.std.specs.Prelude.{◌≡◌};
ghost use Rattle.pf_context.specs.Context.{peer_at};
ghost use Rattle.pf_context.specs.Frames.{ShowsFrames};
ghost use Rattle.pf_c.specs.Buffers.{needed_count};
ghost use Rattle.pf_c.specs.Calls.{Answers};

use crate::answers::code_of;
use crate::codes::PF_CLOSED;
use crate::held::PfContext;
use pf_commands::FRAME_LEN;
use pf_context::{ContextError, Key};
use std::alloc::Global;

/// Tells how many frames there are, where that is known.
fn tell_count(count: &mut u64, answer: &Result<usize, ContextError>)
    ensures { count.new ≡ needed_count count.old answer.now }
{
    if let Ok(needed) | Err(ContextError::SmallBuffer(needed)) = answer {
        *count = *needed as u64;
    }
}

/// Writes the frames of the commands that a peer holds, for this tick and later ones, in the order
/// of their ticks, players and numbers, to the front of a buffer, and tells how many they are.
/// Where the buffer is too small for them, that is told all the same, and nothing is written.
#[unsafe(no_mangle)]
pub extern "C" fn pf_peer_frames(
    alloc: Global,
    context: &mut PfContext,
    peer: Key,
    tick: u32,
    frames: &mut [[u8; FRAME_LEN]],
    count: &mut u64,
) -> u32
    ensures { Answers (λ before after answer. (after ≡ before)
        × ShowsFrames (peer_at before peer) tick frames.old frames.new answer)
        (λ answer. count.new ≡ needed_count count.old answer)
        context.old.handle.value context.new.handle.value result
        ((frames.new ≡ frames.old) × (count.new ≡ count.old)) }
{
    let Some(inside) = context.take_out(alloc) else {
        return PF_CLOSED;
    };
    let answer = inside.frames(peer, tick, frames);
    context.put_back(inside);
    tell_count(count, &answer);
    code_of(&answer)
}
