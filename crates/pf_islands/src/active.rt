//! What is simulated in a tick: which bodies and contacts, whether a contact wakes a body, and on
//! which side of a row each body stands for the solver.

ghost use Rattle.std.specs.Prelude.{◌≡◌, ◌<◌, [], All, length, IfOk, IsOk};
ghost use Rattle.std.specs.List.{list_all};
ghost use Rattle.pf_manifold.specs.Touches.{IsTouchOf};
ghost use Rattle.pf_cache.specs.Manifolds.{kept_touches};
ghost use Rattle.pf_islands.specs.Flags.{awake_numbers};
ghost use Rattle.pf_islands.specs.Rows.{active_points, side_of};
ghost use Rattle.pf_islands.specs.Settled.{touches_of, wakes_none};

use crate::awake::simulated_flags;
use pf_cache::Manifolds;
use pf_manifold::Touch;
use pf_rows::Side;
use pf_shapes::{BodyState, Scene};
use std::alloc::{AllocError, Global};

/// Where the body of a number stands for the solver.
#[inline]
pub(crate) fn side_of(scene: &Scene, number: usize) -> Side
    requires { number < length scene.now.fixtures }
    ensures { result ≡ side_of scene.now number }
{
    let fixture = &scene.fixtures()[number];
    if fixture.is_static() {
        Side::Static
    } else {
        Side::Dynamic(number)
    }
}

/// What is simulated in a tick.
#[derive(Drop)]
pub(crate) struct Active {
    /// The numbers of the awake bodies, in ascending order.
    pub numbers: Vec<usize>,
    /// The contact points that are simulated, each with its place among all.
    pub points: Vec<(usize, Touch)>,
}

/// Which bodies and contact points are simulated. `numbers` are those of the awake bodies, in
/// ascending order. Where all bodies sleep, no contact point is looked at. Takes no memory where
/// there are no bodies and no contact points.
pub(crate) fn active_of(
    alloc: Global,
    scene: &Scene,
    bodies: &[BodyState],
    manifolds: &Manifolds,
    numbers: Vec<usize>,
) -> Result<Active, AllocError>
    requires bodies { length bodies.now ≡ length scene.now.fixtures }
    requires touches { All (IsTouchOf (length bodies.now)) (kept_touches manifolds.now) }
    requires numbers { numbers.items ≡ awake_numbers bodies.now }
    ensures numbers { IfOk result (λ found. found.numbers.items ≡ awake_numbers bodies.now) }
    ensures points { IfOk result (λ found. found.points.items
        ≡ active_points scene.now bodies.now (kept_touches manifolds.now)) }
    ensures no_memory { bodies.now ≡ [] → kept_touches manifolds.now ≡ [] → IsOk result }
{
    if numbers.is_empty() {
        let points = Vec::new(alloc);
        return Ok(Active { numbers, points });
    }
    let simulated = simulated_flags(alloc, scene, bodies, &numbers)?;
    let points = manifolds.points_of(alloc, &simulated)?;
    Ok(Active { numbers, points })
}

/// Whether a contact that is simulated wakes none of its bodies: one of them is static, or both are
/// awake.
#[inline]
fn wakes_none(scene: &Scene, bodies: &[BodyState], touch: &Touch) -> bool
    requires bodies { length bodies.now ≡ length scene.now.fixtures }
    requires touch { IsTouchOf (length bodies.now) touch.now }
    ensures { result ≡ wakes_none scene.now bodies.now touch.now }
{
    let a = usize::from(touch.a);
    let b = usize::from(touch.b);
    let first = &bodies[a];
    let second = &bodies[b];
    let fixtures = scene.fixtures();
    if first.awake && second.awake {
        return true;
    }
    fixtures[a].is_static() || fixtures[b].is_static()
}

/// Whether each of these contacts, which are simulated, wakes none of its bodies.
pub(crate) fn all_wake_none(scene: &Scene, bodies: &[BodyState], points: &[(usize, Touch)]) -> bool
    requires bodies { length bodies.now ≡ length scene.now.fixtures }
    requires touches { All (λ m. IsTouchOf (length bodies.now) m.1) points.now }
    ensures { result ≡ list_all (wakes_none scene.now bodies.now) (touches_of points.now) }
{
    for point in points {
        if !wakes_none(scene, bodies, &point.1) {
            return false;
        }
    }
    true
}
