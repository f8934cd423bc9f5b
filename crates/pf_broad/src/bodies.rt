//! The bounds of a scene's bodies.

ghost use Rattle.std.specs.Prelude.{◌≡◌, ◌≤◌, length, All, IfOk};
ghost use Rattle.pf_shapes.specs.Bounds.{IsOrdered};
ghost use Rattle.pf_broad.specs.Pairs.{all_bounds};

use pf_shapes::{BodyState, Bounds, MAX_BODIES, Scene};
use std::alloc::{AllocError, Global};

/// The bounds of each body. Allocates the list.
#[inline(never)]
pub fn all_bounds(
    alloc: Global,
    scene: &Scene,
    bodies: &[BodyState],
) -> Result<Vec<Bounds>, AllocError>
    ensures value { IfOk result (λ all. all.items ≡ all_bounds scene.now.fixtures bodies.now) }
    ensures few { IfOk result (λ all. length all.items ≤ MAX_BODIES) }
    ensures ordered { IfOk result (λ all. All IsOrdered all.items) }
{
    let mut all = Vec::with_capacity(alloc, bodies.len())?;
    for (fixture, body) in scene.fixtures().iter().zip(bodies) {
        all.push(fixture.bounds(body))?;
    }
    Ok(all)
}
