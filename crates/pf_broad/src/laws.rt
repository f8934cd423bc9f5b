//! Laws of the pairs of the broad phase. These functions compute nothing: their clauses are the
//! statements.

ghost use Rattle.std.specs.Prelude.{◌≡◌, ◌+◌, ◌^◌, ℤ, pos, ◌+ℤ◌, ◌*ℤ◌, ◌≤ℤ◌, ◌<ℤ◌, true, List};
ghost use Rattle.pf_shapes.specs.Bounds.{Bounds, IsOrdered, overlaps};
ghost use Rattle.pf_shapes.specs.Pair.{IsAscending};
ghost use Rattle.pf_broad.specs.Pairs.{pairs};
ghost use Rattle.pf_broad.specs.declared.cell.Cell.{Cell};
ghost use Rattle.pf_broad.specs.Cell.{cell_number, cells_of, has_cell};
ghost use Rattle.pf_broad.specs.Laws.{ArePairsExact};

use crate::cell::{CELL_SIDE, MAX_CELLS};

/// The pairs are exactly those of two bodies that may touch, in ascending order.
pub fn pairs_are_exact()
    ensures exact { (bounds : List Bounds) → ArePairsExact bounds }
    ensures ascending { (bounds : List Bounds) → IsAscending (pairs bounds) }
{}

/// Each coordinate is in its column or row: from its lower end on, and below that of the next. So
/// it is below the origin too.
pub fn cells_contain_their_coordinates()
    ensures from { (z : ℤ) → (cell_number z *ℤ CELL_SIDE) ≤ℤ z }
    ensures below { (z : ℤ) → z <ℤ ((cell_number z +ℤ pos 1) *ℤ CELL_SIDE) }
{}

/// Bounds that overlap lie in a common cell, also where they only touch on its border.
pub fn overlapping_bounds_share_a_cell()
    ensures { (a b : Bounds) → IsOrdered a → IsOrdered b → overlaps a b ≡ true
        → (cell : Cell) × (has_cell (cells_of a) cell ≡ true)
        × (has_cell (cells_of b) cell ≡ true) }
{}

/// The side of a cell, and the most cells of a body that is not wide.
pub fn named_limits()
    ensures side { CELL_SIDE ≡ pos (2 ^ 26) }
    ensures cells { MAX_CELLS ≡ pos 16 }
{}
