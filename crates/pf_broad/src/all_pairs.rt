//! Pairs of bodies whose bounds overlap, as Box2D's `b2BroadPhase::UpdatePairs` finds them.

ghost use Rattle.std.specs.Prelude.{◌≡◌, ◌<◌, ◌≤◌, ◌++◌, length, map, All, IfOk, IsOk, OnOk};
ghost use Rattle.pf_shapes.specs.Bounds.{IsOrdered};
ghost use Rattle.pf_shapes.specs.Pair.{IsAscending, IsPairOf};
ghost use Rattle.pf_broad.specs.Pairs.{all_bounds, pair, pairs};
ghost use Rattle.pf_broad.specs.Grid.{IsGridOf};

use crate::bodies::all_bounds;
use crate::grid::Grid;
use crate::partners::find_partners;
use pf_shapes::{BodyState, Bounds, MAX_BODIES, Pair, Scene};
use std::alloc::{AllocError, Global};

/// The pairs of bodies, at most one of them static, whose bounds overlap in these states: in
/// ascending order, each once. It takes memory for the bounds of all bodies, for their grid and for
/// the pairs; for fewer than two bodies it takes none, and can't fail.
pub fn pairs(alloc: Global, scene: &Scene, bodies: &[BodyState]) -> Result<Vec<Pair>, AllocError>
    requires { length bodies.now ≡ length scene.now.fixtures }
    ensures pairs { IfOk result
        (λ found. found.items ≡ pairs (all_bounds scene.now.fixtures bodies.now)) }
    ensures ascending { IfOk result (λ found. IsAscending found.items) }
    ensures bodies { IfOk result (λ found. All (IsPairOf (length bodies.now)) found.items) }
    ensures no_memory { length bodies.now < 2 → IsOk result }
{
    if bodies.len() < 2 {
        return Ok(Vec::new(alloc));
    }
    let bounds = all_bounds(alloc, scene, bodies)?;
    let grid = Grid::of_bounds(alloc, &bounds)?;
    all_pairs(alloc, &grid, &bounds)
}

/// The pairs of bodies with these bounds, by their grid.
#[inline(never)]
pub(crate) fn all_pairs(
    alloc: Global,
    grid: &Grid,
    bounds: &[Bounds],
) -> Result<Vec<Pair>, AllocError>
    requires grid { IsGridOf bounds.now grid.now }
    requires few { length bounds.now ≤ MAX_BODIES }
    requires ordered { All IsOrdered bounds.now }
    ensures { IfOk result (λ found. found.items ≡ pairs bounds.now) }
{
    let mut found = Vec::new(alloc);
    let mut partners = Vec::new(alloc);
    for i in 0..bounds.len() {
        find_partners(&mut partners, grid, bounds, i)?;
        add_pairs(&mut found, i, &partners)?;
    }
    Ok(found)
}

/// Adds the pairs of one body with others.
#[inline]
pub(crate) fn add_pairs(found: &mut Vec<Pair>, i: usize, partners: &[u16]) -> Result<(), AllocError>
    ensures { OnOk result (found.new.items ≡ found.old.items ++ map (pair i) partners.now) }
{
    for j in partners {
        found.push(Pair {
            a: i,
            b: usize::from(*j),
        })?;
    }
    Ok(())
}
