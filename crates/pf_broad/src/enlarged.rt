//! Enlarged bounds, which still contain those of a body some ticks later, as the fat AABBs of
//! Box2D's `b2DynamicTree`.

ghost use Rattle.std.specs.Prelude.{◌≡◌, ◌≤◌, ◌≤ℤ◌, length, true, IfOk};
ghost use Rattle.pf_broad.specs.Partners.{AreBodies};
ghost use Rattle.pf_broad.specs.Enlarged.{contains, contains_range, left_bodies, AreContained, AreEnlarged, AreSameBut};

use pf_num::Fx;
use pf_rot::V2;
use pf_shapes::{BodyState, Bounds, MAX_BODIES};
use std::alloc::{AllocError, Global};

/// Whether enlarged bounds contain these. Static ones contain only those of a static body.
#[inline]
#[tactic(auto, unfolding(crate::specs::Enlarged::contains))]
fn contains(enlarged: &Bounds, bounds: &Bounds) -> bool
    ensures { result ≡ contains enlarged.now bounds.now }
{
    (!enlarged.is_static | bounds.is_static)
        & (contains_range(enlarged.low.x, enlarged.high.x, bounds.low.x, bounds.high.x)
            & contains_range(enlarged.low.y, enlarged.high.y, bounds.low.y, bounds.high.y))
}

/// Whether a closed range on one axis contains another.
#[inline]
fn contains_range(outer_low: Fx, outer_high: Fx, low: Fx, high: Fx) -> bool
    ensures { result ≡ contains_range outer_low outer_high low high }
{
    (outer_low <= low) & (high <= outer_high)
}

/// An eighth. Bounds are enlarged by this length on each side, and in the direction of the velocity
/// by the distance that the body travels in 8 ticks, an eighth of a second.
#[inline]
fn eighth() -> Fx {
    Fx::from_raw(1 << 21).unwrap()
}

/// A lower bound, enlarged for a body with this velocity.
#[inline]
fn enlarged_low(low: Fx, velocity: Fx) -> Fx
    ensures { result ≤ℤ low }
{
    let way = velocity.mul(eighth()).min(Fx::ZERO);
    low.add(way).sub(eighth()).min(low)
}

/// An upper bound, enlarged for a body with this velocity.
#[inline]
fn enlarged_high(high: Fx, velocity: Fx) -> Fx
    ensures { high ≤ℤ result }
{
    let way = velocity.mul(eighth()).max(Fx::ZERO);
    high.add(way).add(eighth()).max(high)
}

/// Enlarged bounds of a body with these bounds. By how much is said by no clause: only time
/// depends on it.
#[tactic(auto, unfolding(crate::specs::Enlarged::contains))]
fn enlarged_bounds(bounds: &Bounds, body: &BodyState) -> Bounds
    ensures { contains result bounds.now ≡ true }
{
    Bounds {
        low: V2 {
            x: enlarged_low(bounds.low.x, body.velocity.x),
            y: enlarged_low(bounds.low.y, body.velocity.y),
        },
        high: V2 {
            x: enlarged_high(bounds.high.x, body.velocity.x),
            y: enlarged_high(bounds.high.y, body.velocity.y),
        },
        is_static: bounds.is_static,
    }
}

/// Enlarged bounds of all bodies.
#[inline(never)]
pub(crate) fn all_enlarged_bounds(
    alloc: Global,
    bounds: &[Bounds],
    bodies: &[BodyState],
) -> Result<Vec<Bounds>, AllocError>
    requires { length bodies.now ≡ length bounds.now }
    ensures { IfOk result (λ enlarged. AreEnlarged enlarged.items bounds.now) }
{
    let mut enlarged = Vec::with_capacity(alloc, bounds.len())?;
    for i in 0..bounds.len() {
        enlarged.push(enlarged_bounds(&bounds[i], &bodies[i]))?;
    }
    Ok(enlarged)
}

/// The bodies that left their enlarged bounds, in ascending order. Only those of `dirty` are looked
/// at: the others must be within theirs.
#[inline(never)]
pub(crate) fn left_bodies(
    alloc: Global,
    enlarged: &[Bounds],
    bounds: &[Bounds],
    dirty: &[usize],
) -> Result<Vec<u16>, AllocError>
    requires few { length bounds.now ≤ MAX_BODIES }
    requires enlarged { length enlarged.now ≡ length bounds.now }
    requires dirty { AreBodies bounds.now dirty.now }
    requires others { AreContained dirty.now enlarged.now bounds.now }
    ensures { IfOk result (λ left. left.items ≡ left_bodies enlarged.now bounds.now) }
{
    let mut left = Vec::new(alloc);
    for number in dirty {
        if !contains(&enlarged[*number], &bounds[*number]) {
            left.push(*number as u16)?;
        }
    }
    left.sort_unstable();
    left.dedup();
    Ok(left)
}

/// Gives new enlarged bounds to the bodies that left theirs.
pub(crate) fn refit(enlarged: &mut [Bounds], left: &[u16], bounds: &[Bounds], bodies: &[BodyState])
    requires enlarged { length enlarged.old ≡ length bounds.now }
    requires bodies { length bodies.now ≡ length bounds.now }
    requires left { left.now ≡ left_bodies enlarged.old bounds.now }
    ensures enlarged { AreEnlarged enlarged.new bounds.now }
    ensures others { AreSameBut left.now enlarged.old enlarged.new }
{
    for number in left {
        let i = usize::from(*number);
        enlarged[i] = enlarged_bounds(&bounds[i], &bodies[i]);
    }
}
