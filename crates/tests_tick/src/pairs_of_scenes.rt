//! Pairs of bodies that may touch, their contact points, and the cells in which bodies lie, by
//! hand. The side of a cell is 67108864.

ghost use Rattle.std.specs.Prelude.{IfOk};
ghost use Rattle.pf_manifold.specs.Key.{AreTouches};

use crate::scenes::scene_of;
use pf_broad::{CELL_SIDE, Cell, Grid, MAX_CELLS, pairs};
use pf_manifold::{Touch, collide_list};
use pf_shapes::{Pair, Scene};
use std::alloc::Global;
use std::test::Fail;

/// A static box, a box that stands on it, and a circle that touches the bounds of both.
const TOUCHING: &[u8] = b"gravity 0 0
box - 0 0 17179869184 16777216 0 -16777216 16777216 0
box - 16777216 0 16777216 16777216 0 16777216 16777216 0
circle - 16777216 0 16777216 33554434 16777216
end
";

/// The same with the circle a unit farther right.
const APART: &[u8] = b"gravity 0 0
box - 0 0 17179869184 16777216 0 -16777216 16777216 0
box - 16777216 0 16777216 16777216 0 16777216 16777216 0
circle - 16777216 0 16777216 33554435 16777216
end
";

/// Six circles of radius 1 in a row, each as far from the next as their bounds reach.
const ROW: &[u8] = b"gravity 0 0
circle - 16777216 0 16777216 0 0
circle - 16777216 0 16777216 33554434 0
circle - 16777216 0 16777216 67108868 0
circle - 16777216 0 16777216 100663302 0
circle - 16777216 0 16777216 134217736 0
circle - 16777216 0 16777216 167772170 0
end
";

/// Three circles at one position, the first and the last of them static, and one whose bounds are
/// a unit apart from theirs.
const STACKED: &[u8] = b"gravity 0 0
circle - 0 0 16777216 0 0
circle - 16777216 0 16777216 0 0
circle - 0 0 16777216 0 0
circle - 16777216 0 16777216 33554435 0
end
";

/// Circles of radius 1 whose bounds touch on the borders of cells: the first two at the lower
/// border of column 1, the next two at that of column -1, and the last two at that of row -1.
const BORDERS: &[u8] = b"gravity 0 0
circle - 16777216 0 16777216 50331647 0
circle - 16777216 0 16777216 83886081 0
circle - 16777216 0 16777216 -83886081 0
circle - 16777216 0 16777216 -50331647 0
circle - 16777216 0 16777216 0 -83886081
circle - 16777216 0 16777216 0 -50331647
end
";

/// Two circles near 2^40 on both axes and two near -2^40, each with bounds that touch those of the
/// other, and a circle at the origin.
const FAR: &[u8] = b"gravity 0 0
circle - 16777216 0 16777216 1099511627776 1099511627776
circle - 16777216 0 16777216 -1099511627776 -1099511627776
circle - 16777216 0 16777216 1099545182210 1099511627776
circle - 16777216 0 16777216 -1099511627776 -1099545182210
circle - 16777216 0 16777216 0 0
end
";

/// A wide floor, a box whose bounds lie in 16 cells, a circle, and a box of 17 columns.
const WIDE: &[u8] = b"gravity 0 0
box - 0 0 17179869184 16777216 0 0 16777216 0
box - 16777216 0 117440512 117440512 134217728 134217728 16777216 0
circle - 16777216 0 16777216 33554432 33554432
box - 16777216 0 553648128 16777216 570425344 33554432 16777216 0
end
";

/// A scene, the pairs of its bodies at their starts, and the bodies and features of their contact
/// points.
type Case = (
    &'static [u8],
    &'static [(usize, usize)],
    &'static [(u16, u16, u32)],
);

const CASES: [Case; 7] = [
    // Box and circle stand on the floor. Of one another they touch only the bounds.
    (
        TOUCHING,
        &[(0, 1), (0, 2), (1, 2)],
        &[(0, 1, 28), (0, 1, 29), (0, 2, 133)],
    ),
    (
        APART,
        &[(0, 1), (0, 2)],
        &[(0, 1, 28), (0, 1, 29), (0, 2, 133)],
    ),
    (ROW, &[(0, 1), (1, 2), (2, 3), (3, 4), (4, 5)], &[]),
    (STACKED, &[(0, 1), (1, 2)], &[(0, 1, 0), (1, 2, 0)]),
    (BORDERS, &[(0, 1), (2, 3), (4, 5)], &[]),
    (FAR, &[(0, 2), (1, 3)], &[]),
    (
        WIDE,
        &[(0, 1), (0, 2), (0, 3), (1, 2), (1, 3), (2, 3)],
        &[
            (0, 1, 28),
            (0, 1, 29),
            (0, 2, 133),
            (0, 3, 28),
            (0, 3, 29),
            (1, 2, 142),
            (1, 3, 53),
            (1, 3, 55),
            (2, 3, 141),
        ],
    ),
];

/// The pairs of a scene's bodies at their starts, and their contact points.
pub(crate) fn found(alloc: Global, scene: &Scene) -> Result<(Vec<Pair>, Vec<Touch>), Fail>
    ensures { IfOk result (λ found. AreTouches found.1.items) }
{
    let starts = scene.starts();
    if scene.fixtures().len() != starts.len() {
        return Err(Fail::from("each body has a start"));
    }
    let pairs = pairs(alloc, scene, starts)?;
    let touches = collide_list(alloc, scene, starts, &pairs)?;
    Ok((pairs, touches))
}

/// The bodies of a contact point, and its feature.
fn key(touch: &Touch) -> (u16, u16, u32) {
    (touch.a, touch.b, touch.point.feature)
}

/// Whether the contact points are these.
fn are_at(touches: &[Touch], keys: &[(u16, u16, u32)]) -> bool {
    touches.iter().map(key).eq(keys.iter().copied())
}

/// Whether the pairs are these.
fn are_of(pairs: &[Pair], numbers: &[(usize, usize)]) -> bool {
    pairs
        .iter()
        .map(|pair| (pair.a, pair.b))
        .eq(numbers.iter().copied())
}

/// Whether a scene's bodies have these pairs and contact points.
fn has_found(alloc: Global, case: &Case) -> Result<bool, Fail> {
    let (text, numbers, keys) = *case;
    let scene = scene_of(alloc, text)?;
    let (pairs, touches) = found(alloc, &scene)?;
    Ok(are_of(&pairs, numbers) && are_at(&touches, keys))
}

#[test]
fn pairs_and_points_are_found(rt: HostRuntime) -> Result<(), Fail> {
    for case in CASES {
        let has_found = has_found(rt.alloc(), &case)?;
        assert!(rt; has_found, "{:?}", case.1);
    }
    Ok(())
}

/// Whether a cell has these bodies.
fn has(grid: &Grid, x: i64, y: i64, bodies: &[u16]) -> bool {
    grid.bodies_in(Cell { x, y }) == bodies
}

fn are_cells_of_wide(grid: &Grid) -> bool {
    grid.wide() == [0, 3].as_slice()
        && has(grid, 0, 0, &[1, 2])
        && has(grid, 3, 3, &[1])
        && has(grid, 4, 3, &[])
}

fn are_cells_of_borders(grid: &Grid) -> bool {
    has(grid, 1, -1, &[0, 1]) && has(grid, -1, 0, &[2, 3]) && has(grid, -1, -1, &[2, 3, 4, 5])
}

#[test]
fn wide_bodies_are_in_no_cell(rt: HostRuntime) -> Result<(), Fail> {
    let scene = scene_of(rt.alloc(), WIDE)?;
    let grid = Grid::of(rt.alloc(), &scene, scene.starts())?;
    assert!(rt; are_cells_of_wide(&grid));
    Ok(())
}

#[test]
fn bodies_on_borders_are_in_both_cells(rt: HostRuntime) -> Result<(), Fail> {
    let scene = scene_of(rt.alloc(), BORDERS)?;
    let grid = Grid::of(rt.alloc(), &scene, scene.starts())?;
    assert!(rt; are_cells_of_borders(&grid) && CELL_SIDE == 67_108_864 && MAX_CELLS == 16);
    Ok(())
}
