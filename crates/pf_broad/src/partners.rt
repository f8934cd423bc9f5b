//! The bodies that one body may touch, by the grid or by a test of each.

ghost use Rattle.std.specs.Prelude.{◌≡◌, ℕ, ◌<◌, ◌≤◌, ◌&&◌, ◌||◌, ◌++◌, length, filter, All, OnOk};
ghost use Rattle.pf_shapes.specs.Bounds.{IsOrdered, ranges_overlap};
ghost use Rattle.pf_broad.specs.Pairs.{is_pair, may_touch, partners_of};
ghost use Rattle.pf_broad.specs.Cell.{IsCellRange};
ghost use Rattle.pf_broad.specs.Grid.{IsGridOf};
ghost use Rattle.pf_broad.specs.Partners.{has_body, is_found, is_found_in_column, AreBodies};

use crate::cell::{Cell, CellRange};
use crate::grid::Grid;
use pf_num::Fx;
use pf_shapes::{Bounds, MAX_BODIES};
use std::alloc::AllocError;

/// Finds the bodies of greater numbers that a body may touch, in ascending order, each once. Some
/// are found in more than one cell; the bounds are tested first, so that few are left to sort.
pub(crate) fn find_partners(
    partners: &mut Vec<u16>,
    grid: &Grid,
    bounds: &[Bounds],
    i: usize,
) -> Result<(), AllocError>
    requires body { i < length bounds.now }
    requires grid { IsGridOf bounds.now grid.now }
    requires few { length bounds.now ≤ MAX_BODIES }
    requires ordered { All IsOrdered bounds.now }
    ensures { OnOk result (partners.new.items ≡ partners_of bounds.now i) }
{
    partners.clear();
    let range = CellRange::of(&bounds[i]);
    if range.is_wide() {
        return add_later(partners, bounds, i);
    }
    add_from_cells(partners, grid, bounds, i, range)?;
    add_overlapping(partners, bounds, i, grid.wide())?;
    partners.sort_unstable();
    partners.dedup();
    Ok(())
}

/// Adds the later bodies that a body may touch, by a test of each.
#[inline(never)]
pub(crate) fn add_later(
    partners: &mut Vec<u16>,
    bounds: &[Bounds],
    i: usize,
) -> Result<(), AllocError>
    requires body { i < length bounds.now }
    requires few { length bounds.now ≤ MAX_BODIES }
    ensures { OnOk result
        (partners.new.items ≡ partners.old.items ++ partners_of bounds.now i) }
{
    let body = &bounds[i];
    for j in i + 1..bounds.len() {
        if may_touch(body, &bounds[j]) {
            partners.push(j as u16)?;
        }
    }
    Ok(())
}

/// Adds the later bodies that a body may touch and that are listed in a cell of the range, some of
/// them more than once.
fn add_from_cells(
    partners: &mut Vec<u16>,
    grid: &Grid,
    bounds: &[Bounds],
    i: usize,
    range: CellRange,
) -> Result<(), AllocError>
    requires body { i < length bounds.now }
    requires grid { IsGridOf bounds.now grid.now }
    requires ordered { All IsOrdered bounds.now }
    requires range { IsCellRange range }
    ensures { OnOk result ((j : ℕ) → has_body partners.new.items j
        ≡ (has_body partners.old.items j
        || (is_pair bounds.now i j && is_found bounds.now range j))) }
{
    for x in range.left..range.right + 1 {
        add_from_column(partners, grid, bounds, i, x, range)?;
    }
    Ok(())
}

/// The same for the cells of the range that are in column `x`.
#[inline]
fn add_from_column(
    partners: &mut Vec<u16>,
    grid: &Grid,
    bounds: &[Bounds],
    i: usize,
    x: i64,
    range: CellRange,
) -> Result<(), AllocError>
    requires body { i < length bounds.now }
    requires grid { IsGridOf bounds.now grid.now }
    requires ordered { All IsOrdered bounds.now }
    requires range { IsCellRange range }
    ensures { OnOk result ((j : ℕ) → has_body partners.new.items j
        ≡ (has_body partners.old.items j
        || (is_pair bounds.now i j && is_found_in_column bounds.now x range j))) }
{
    for y in range.bottom..range.top + 1 {
        add_overlapping(partners, bounds, i, grid.bodies_in(Cell { x, y }))?;
    }
    Ok(())
}

/// Adds those of some bodies that are later and that a body may touch.
#[inline]
pub(crate) fn add_overlapping(
    partners: &mut Vec<u16>,
    bounds: &[Bounds],
    i: usize,
    others: &[u16],
) -> Result<(), AllocError>
    requires body { i < length bounds.now }
    requires others { AreBodies bounds.now others.now }
    ensures { OnOk result (partners.new.items
        ≡ partners.old.items ++ filter (is_pair bounds.now i) others.now) }
{
    let body = &bounds[i];
    for other in others {
        let j = usize::from(*other);
        if i < j && may_touch(body, &bounds[j]) {
            partners.push(*other)?;
        }
    }
    Ok(())
}

/// Whether two bodies with these bounds may touch: not both are static, and the bounds overlap. All
/// is compared, since a branch after each comparison takes longer.
#[inline]
#[tactic(auto, unfolding(crate::specs::Pairs::may_touch, pf_shapes::specs::Bounds::overlaps))]
pub fn may_touch(a: &Bounds, b: &Bounds) -> bool
    ensures { result ≡ may_touch a.now b.now }
{
    !(a.is_static & b.is_static)
        & (ranges_overlap(a.low.x, a.high.x, b.low.x, b.high.x)
            & ranges_overlap(a.low.y, a.high.y, b.low.y, b.high.y))
}

/// Whether two closed ranges on one axis have a point in common.
#[inline]
fn ranges_overlap(low: Fx, high: Fx, other_low: Fx, other_high: Fx) -> bool
    ensures { result ≡ ranges_overlap low high other_low other_high }
{
    (low <= other_high) & (other_low <= high)
}
