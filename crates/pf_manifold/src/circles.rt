//! Two circles, as Box2D 2.x's `b2CollideCircles`.

ghost use Rattle.std.specs.Prelude.{◌≡◌};
ghost use Rattle.pf_manifold.specs.Circles.{normalize, circle_normal, rim_point, circle_contact, collide_circles};

use crate::contact_point::ContactPoint;
use pf_num::{Divisor, Fx};
use pf_rot::V2;

/// A vector divided by its length, by part.
#[inline]
#[tactic(auto, unfolding(crate::specs::Circles::normalize))]
pub fn normalize(v: V2, length: Fx) -> V2
    ensures { result ≡ normalize v length }
{
    let divisor = Divisor::new(length);
    V2 {
        x: divisor.divide(v.x),
        y: divisor.divide(v.y),
    }
}

/// The normal of circles whose centres differ by `d`: its direction, and upwards where the centres
/// coincide.
#[inline]
#[tactic(auto, unfolding(crate::specs::Circles::circle_normal))]
fn circle_normal(d: V2, length: Fx) -> V2
    ensures { result ≡ circle_normal d length }
{
    if length == Fx::ZERO {
        V2 {
            x: Fx::ZERO,
            y: Fx::ONE,
        }
    } else {
        normalize(d, length)
    }
}

/// The contact point on the rim of the first circle, along this normal.
#[inline]
#[tactic(auto, unfolding(crate::specs::Circles::rim_point))]
fn rim_point(position: V2, r: Fx, normal: V2, separation: Fx) -> ContactPoint
    ensures { result ≡ rim_point position r normal separation }
{
    ContactPoint {
        feature: 0,
        position: position.add(normal.scale(r)),
        normal,
        separation,
    }
}

/// The contact point of circles whose centres differ by `d`, if they touch.
#[inline]
#[tactic(auto, unfolding(crate::specs::Circles::circle_contact))]
fn circle_contact(position: V2, ra: Fx, rb: Fx, d: V2) -> Option<ContactPoint>
    ensures { result ≡ circle_contact position ra rb d }
{
    let length = d.length();
    let reach = ra.add(rb);
    if length > reach {
        return None;
    }
    let normal = circle_normal(d, length);
    Some(rim_point(position, ra, normal, length.sub(reach)))
}

/// The contact point of the circles at `a` and `b`, of radii `ra` and `rb`, if they touch.
#[tactic(auto, unfolding(crate::specs::Circles::collide_circles))]
pub fn collide_circles(a: V2, ra: Fx, b: V2, rb: Fx) -> Option<ContactPoint>
    ensures { result ≡ collide_circles a ra b rb }
{
    circle_contact(a, ra, rb, b.sub(a))
}
