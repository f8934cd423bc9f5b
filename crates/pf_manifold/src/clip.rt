//! Clipping of the incident edge to the width of the reference face, as Box2D's
//! `b2ClipSegmentToLine`.

ghost use Rattle.std.specs.Prelude.{◌≡◌};
ghost use Rattle.pf_manifold.specs.Clip.{crossing, clip_to_line, clip_low, clip_high, clip};

use crate::incident::{ClipVertex, Mark, Segment};
use pf_num::Fx;

/// The point where the segment between these vertices crosses the line `side = limit`.
#[inline]
#[tactic(auto, unfolding(crate::specs::Clip::crossing))]
fn crossing(first: ClipVertex, second: ClipVertex, limit: Fx, mark: Mark) -> ClipVertex
    ensures { result ≡ crossing first second limit mark }
{
    let part = limit.sub(first.side).div(second.side.sub(first.side));
    let rise = second.front.sub(first.front);
    ClipVertex {
        front: first.front.add(rise.mul(part)),
        side: limit,
        mark,
    }
}

/// The segment clipped to a line: an end that is outside moves to the crossing, and nothing is left
/// of a segment with both ends outside. Inlined, so that no segment is copied through memory.
#[inline(always)]
#[tactic(auto, unfolding(crate::specs::Clip::clip_to_line))]
fn clip_to_line(
    first_out: bool,
    second_out: bool,
    s: Segment,
    limit: Fx,
    mark: Mark,
) -> Option<Segment>
    ensures { result ≡ clip_to_line first_out second_out s (crossing s.first s.second limit mark) }
{
    let (first, second) = (s.first, s.second);
    match (first_out, second_out) {
        (true, true) => None,
        (true, false) => {
            let first = crossing(first, second, limit, mark);
            Some(Segment { first, ..s })
        }
        (false, true) => {
            let second = crossing(first, second, limit, mark);
            Some(Segment { second, ..s })
        }
        (false, false) => Some(s),
    }
}

/// The part of the segment at `side >= limit`.
#[inline]
#[tactic(auto, unfolding(crate::specs::Clip::clip_low))]
fn clip_low(s: Segment, limit: Fx) -> Option<Segment>
    ensures { result ≡ clip_low s limit }
{
    let (first, second) = (s.first, s.second);
    clip_to_line(
        first.side < limit,
        second.side < limit,
        s,
        limit,
        Mark::CutLow,
    )
}

/// The part of the segment at `side <= limit`.
#[inline]
#[tactic(auto, unfolding(crate::specs::Clip::clip_high))]
fn clip_high(s: Segment, limit: Fx) -> Option<Segment>
    ensures { result ≡ clip_high s limit }
{
    let (first, second) = (s.first, s.second);
    clip_to_line(
        first.side > limit,
        second.side > limit,
        s,
        limit,
        Mark::CutHigh,
    )
}

/// The part of the segment within the width of a face, which is from `-side` to `side`.
#[inline]
#[tactic(auto, unfolding(crate::specs::Clip::clip))]
pub fn clip(s: Segment, side: Fx) -> Option<Segment>
    ensures { result ≡ clip s side }
{
    clip_high(clip_low(s, side.neg())?, side)
}
