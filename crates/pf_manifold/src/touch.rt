//! The contact points of a list of pairs of bodies, as Box2D 2.x's `b2ContactManager::Collide`.

ghost use Rattle.std.specs.Prelude.{◌≡◌, ◌<◌, ◌≤◌, ◌++◌, [], All, length, map, Some, IfOk, OnOk, IsOk};
ghost use Rattle.pf_shapes.specs.Pair.{IsAscending, IsPairOf};
ghost use Rattle.pf_shapes.specs.declared.scene.TheConstants.{MAX_BODIES};
ghost use Rattle.pf_manifold.specs.Key.{AreTouches};
ghost use Rattle.pf_manifold.specs.Manifold.{points_of};
ghost use Rattle.pf_manifold.specs.Touches.{IsTouchOf, Touch, placed_shape_at, touch_of, touches};

use crate::contact_point::ContactPoint;
use crate::manifold::Manifold;
use crate::narrow_phase::collide;
use crate::placed_shape::PlacedShape;
use pf_shapes::{BodyState, Fixture, Pair, Scene};
use std::alloc::{AllocError, Global};
use std::marker::Model;

/// A contact point of two bodies of a scene.
#[derive(Clone, Copy, Debug, PartialEq, Eq)]
pub struct Touch {
    /// The number of the first body, which is the lesser.
    pub a: u16,
    /// The number of the second body, which is the greater.
    pub b: u16,
    /// The contact point, with the normal from the first to the second.
    pub point: ContactPoint,
}

impl Model for Touch {
    ghost Value = { Touch };

    ghost view = { λ t. record { a = t.a; b = t.b; point = t.point } };

    ghost inverse = { λ t. record { a = t.a; b = t.b; point = t.point } };
}

/// The shape of the body of this number at its position and rotation.
fn placed_shape<'a>(fixtures: &'a [Fixture], bodies: &[BodyState], number: usize) -> PlacedShape<'a>
    requires bodies { length bodies.now ≡ length fixtures.now }
    requires number { number < length bodies.now }
    ensures { placed_shape_at fixtures.now bodies.now number ≡ Some result }
{
    let body = &bodies[number];
    PlacedShape {
        shape: fixtures[number].shape(),
        position: body.position,
        rotation: body.rotation,
    }
}

/// A contact point of a pair.
#[inline]
pub fn touch_of(pair: &Pair, point: ContactPoint) -> Touch
    requires { IsPairOf MAX_BODIES pair.now }
    ensures { result ≡ touch_of pair.now point }
{
    Touch {
        a: pair.a as u16,
        b: pair.b as u16,
        point,
    }
}

/// Adds the contact points of a pair. Where there is none it takes no memory. After an error some
/// of the points may have been added.
pub fn push_points(
    touches: &mut Vec<Touch>,
    pair: &Pair,
    points: &Manifold,
) -> Result<(), AllocError>
    requires { IsPairOf MAX_BODIES pair.now }
    ensures added { OnOk result (touches.new.items
        ≡ touches.old.items ++ map (touch_of pair.now) (points_of points.now)) }
    ensures no_memory { points_of points.now ≡ [] → IsOk result }
{
    match *points {
        Manifold::Apart => {}
        Manifold::One(point) => touches.push(touch_of(pair, point))?,
        Manifold::Two(first, second) => {
            touches.push(touch_of(pair, first))?;
            touches.push(touch_of(pair, second))?;
        }
    }
    Ok(())
}

/// The contact points of these pairs, pair by pair. Where no pair touches it takes no memory.
pub fn collide_pairs(
    alloc: Global,
    fixtures: &[Fixture],
    bodies: &[BodyState],
    pairs: &[Pair],
) -> Result<Vec<Touch>, AllocError>
    requires few { length fixtures.now ≤ MAX_BODIES }
    requires bodies { length bodies.now ≡ length fixtures.now }
    requires pairs { All (IsPairOf (length bodies.now)) pairs.now }
    ensures found { IfOk result
        (λ found. found.items ≡ touches fixtures.now bodies.now pairs.now) }
    ensures no_memory { touches fixtures.now bodies.now pairs.now ≡ [] → IsOk result }
{
    let mut touches = Vec::new(alloc);
    for pair in pairs {
        let a = placed_shape(fixtures, bodies, pair.a);
        let b = placed_shape(fixtures, bodies, pair.b);
        push_points(&mut touches, pair, &collide(&a, &b))?;
    }
    Ok(touches)
}

/// The contact points of these pairs of bodies, in the order of the pairs, and those of one pair in
/// ascending order of their features. So those of ascending pairs are in the order of their keys.
/// Where no pair touches it takes no memory, and can't fail.
pub fn collide_list(
    alloc: Global,
    scene: &Scene,
    bodies: &[BodyState],
    pairs: &[Pair],
) -> Result<Vec<Touch>, AllocError>
    requires bodies { length bodies.now ≡ length scene.now.fixtures }
    requires pairs { All (IsPairOf (length bodies.now)) pairs.now }
    ensures found { IfOk result
        (λ found. found.items ≡ touches scene.now.fixtures bodies.now pairs.now) }
    ensures order { IsAscending pairs.now → IfOk result (λ found. AreTouches found.items) }
    ensures bodies { IfOk result (λ found. All (IsTouchOf (length bodies.now)) found.items) }
    ensures no_memory { touches scene.now.fixtures bodies.now pairs.now ≡ [] → IsOk result }
{
    collide_pairs(alloc, scene.fixtures(), bodies, pairs)
}
