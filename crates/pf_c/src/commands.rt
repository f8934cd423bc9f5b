//! The commands of peers: issued, taken and merged.

ghost use Rattle.std.specs.Prelude.{◌≡◌, Ok};
ghost use Rattle.pf_commands.specs.Frame.{decode};
ghost use Rattle.pf_commands.specs.declared.payload.Payload.TheVariants.{Stop};
ghost use Rattle.pf_rollback.specs.Calls.{TakesFrame};
ghost use Rattle.pf_context.specs.Errors.{peer_error};
ghost use Rattle.pf_context.specs.Calls.{CallsPeer};
ghost use Rattle.pf_context.specs.Merging.{IsMerge, MergesPeer, MergesPeerAlone};
ghost use Rattle.pf_context.specs.Numbers.{place_payload, push_payload, turn_payload};
ghost use Rattle.pf_c.specs.Calls.{Answers, Tells};
ghost use Rattle.pf_c.specs.Codes.{put_code};
ghost use Rattle.pf_c.specs.Commands.{IssuesPayload, frame_of};

use crate::answers::tell_as;
use crate::codes::put_code;
use crate::held::PfContext;
use pf_commands::{FRAME_LEN, Payload};
use pf_context::{Context, ContextError, Key, RawV2, numbers};
use std::alloc::Global;

/// The bytes of a command, as peers send them.
#[derive(Clone, Copy, Debug, PartialEq, Eq)]
#[repr(C)]
pub struct PfFrame {
    pub bytes: [u8; FRAME_LEN],
}

/// The frame of these bytes.
fn frame_of(bytes: [u8; FRAME_LEN]) -> PfFrame
    ensures { result ≡ frame_of bytes }
{
    PfFrame { bytes }
}

/// Issues a command in a context, where there is one to issue.
fn issue_payload(
    context: &mut Context,
    peer: Key,
    payload: Result<Payload, ContextError>,
) -> Result<[u8; FRAME_LEN], ContextError>
    ensures { IssuesPayload peer payload context.old context.new result }
{
    match payload {
        Ok(payload) => context.issue(peer, payload),
        Err(error) => Err(error),
    }
}

/// Issues a command, and tells its frame. A number out of its range is the first error.
fn issue(
    alloc: Global,
    context: &mut PfContext,
    peer: Key,
    payload: Result<Payload, ContextError>,
    frame: &mut PfFrame,
) -> u32
    ensures { Answers (λ before after answer. IssuesPayload peer payload before after answer)
        (Tells frame_of frame.old frame.new)
        context.old.handle.value context.new.handle.value result (frame.new ≡ frame.old) }
{
    let answer = context.call(alloc, |inside| issue_payload(inside, peer, payload));
    tell_as(answer, frame, frame_of)
}

/// Issues a push of a body by a peer's player at the tick that it has reached: mass times lengths a
/// second.
#[unsafe(no_mangle)]
pub extern "C" fn pf_peer_push(
    alloc: Global,
    context: &mut PfContext,
    peer: Key,
    body: u16,
    impulse: RawV2,
    frame: &mut PfFrame,
) -> u32
    ensures { Answers
        (λ before after answer. IssuesPayload peer (push_payload body impulse) before after answer)
        (Tells frame_of frame.old frame.new)
        context.old.handle.value context.new.handle.value result (frame.new ≡ frame.old) }
{
    issue(alloc, context, peer, numbers::push(body, impulse), frame)
}

/// Issues a turn of a body: inertia times radians a second.
#[unsafe(no_mangle)]
pub extern "C" fn pf_peer_turn(
    alloc: Global,
    context: &mut PfContext,
    peer: Key,
    body: u16,
    impulse: i64,
    frame: &mut PfFrame,
) -> u32
    ensures { Answers
        (λ before after answer. IssuesPayload peer (turn_payload body impulse) before after answer)
        (Tells frame_of frame.old frame.new)
        context.old.handle.value context.new.handle.value result (frame.new ≡ frame.old) }
{
    issue(alloc, context, peer, numbers::turn(body, impulse), frame)
}

/// Issues a stop of a body: its velocity and its spin become 0.
#[unsafe(no_mangle)]
pub extern "C" fn pf_peer_stop(
    alloc: Global,
    context: &mut PfContext,
    peer: Key,
    body: u16,
    frame: &mut PfFrame,
) -> u32
    ensures { Answers
        (λ before after answer. IssuesPayload peer (Ok (Stop body)) before after answer)
        (Tells frame_of frame.old frame.new)
        context.old.handle.value context.new.handle.value result (frame.new ≡ frame.old) }
{
    issue(alloc, context, peer, Ok(Payload::Stop { body }), frame)
}

/// Issues a place of a body: it stands at this position, at rest.
#[unsafe(no_mangle)]
pub extern "C" fn pf_peer_place(
    alloc: Global,
    context: &mut PfContext,
    peer: Key,
    body: u16,
    position: RawV2,
    frame: &mut PfFrame,
) -> u32
    ensures { Answers
        (λ before after answer.
        IssuesPayload peer (place_payload body position) before after answer)
        (Tells frame_of frame.old frame.new)
        context.old.handle.value context.new.handle.value result (frame.new ≡ frame.old) }
{
    issue(alloc, context, peer, numbers::place(body, position), frame)
}

/// Takes the command that a frame encodes to a peer, of any player, late or not, and tells what it
/// did: 0 where it was new, 1 the same, 2 greater, 3 lesser.
#[unsafe(no_mangle)]
pub extern "C" fn pf_peer_take(
    alloc: Global,
    context: &mut PfContext,
    peer: Key,
    frame: &[u8],
    put: &mut u32,
) -> u32
    ensures { Answers (λ before after answer.
        CallsPeer peer_error before after peer answer (TakesFrame (decode frame.now)))
        (Tells put_code put.old put.new)
        context.old.handle.value context.new.handle.value result (put.new ≡ put.old) }
{
    let answer = context.call(alloc, |inside| inside.take(peer, frame));
    tell_as(answer, put, put_code)
}

/// Merges into a peer the commands that another peer of the context holds, and tells how many were
/// new or greater. It is refused unless both have sealed the same tick, with the same world there.
#[unsafe(no_mangle)]
pub extern "C" fn pf_peer_merge(
    alloc: Global,
    context: &mut PfContext,
    peer: Key,
    other: Key,
    count: &mut u64,
) -> u32
    ensures { Answers (IsMerge MergesPeer peer other) (Tells (λ news. news) count.old count.new)
        context.old.handle.value context.new.handle.value result (count.new ≡ count.old) }
{
    let answer = context.call(alloc, |inside| inside.merge(peer, other));
    tell_as(answer, count, |news| news as u64)
}

/// Merges into a peer the commands that another peer of the context holds, whatever the other one
/// has sealed, and tells how many were new or greater. It is refused where one of them is for a
/// tick before the horizon of the peer.
#[unsafe(no_mangle)]
pub extern "C" fn pf_peer_merge_alone(
    alloc: Global,
    context: &mut PfContext,
    peer: Key,
    other: Key,
    count: &mut u64,
) -> u32
    ensures { Answers (IsMerge MergesPeerAlone peer other)
        (Tells (λ news. news) count.old count.new)
        context.old.handle.value context.new.handle.value result (count.new ≡ count.old) }
{
    let answer = context.call(alloc, |inside| inside.merge_alone(peer, other));
    tell_as(answer, count, |news| news as u64)
}
