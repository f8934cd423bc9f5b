//! Square cells of the plane, and the cells in which bounds lie.

ghost use Rattle.std.specs.Prelude.{◌≡◌, ◌+◌, ◌≤◌, ◌^◌, ◌*ℤ◌, int_lt};
ghost use Rattle.std.specs.Int.RustNames.{unsigned_abs};
ghost use Rattle.pf_shapes.specs.Bounds.{IsOrdered};
ghost use Rattle.pf_broad.specs.Cell.{cell_count, cell_number, cells_of, is_wide, IsCellNumber, IsCellRange};

use pf_num::Fx;
use pf_shapes::Bounds;

/// The side of a cell: 4 lengths, in units of 2^-24.
pub const CELL_SIDE: i64 = 1 << 26;

/// The most cells in which a body is listed. A body that lies in more is wide.
pub const MAX_CELLS: i64 = 16;

/// A square cell of the plane, by its numbers: column `x` has the coordinates from `x * CELL_SIDE`
/// on that are below `(x + 1) * CELL_SIDE`, and so have rows.
#[derive(Clone, Copy, Debug, PartialEq, Eq, Hash)]
pub struct Cell {
    /// The column.
    pub x: i64,
    /// The row.
    pub y: i64,
}

/// The cells of some columns and rows, from the first to the last of each.
#[derive(Clone, Copy)]
pub(crate) struct CellRange {
    pub(crate) left: i64,
    pub(crate) right: i64,
    pub(crate) bottom: i64,
    pub(crate) top: i64,
}

/// The number of the column or the row in which a coordinate lies.
#[inline]
#[tactic(auto, unfolding(crate::specs::Cell::cell_number))]
fn cell_number(coordinate: Fx) -> i64
    ensures value { result ≡ cell_number coordinate }
    ensures range { IsCellNumber result }
{
    coordinate.raw().div_euclid(CELL_SIDE)
}

impl CellRange {
    /// The cells in which bounds lie.
    #[inline]
    pub(crate) fn of(bounds: &Bounds) -> CellRange
        requires { IsOrdered bounds.now }
        ensures value { result ≡ cells_of bounds.now }
        ensures range { IsCellRange result }
    {
        CellRange {
            left: cell_number(bounds.low.x),
            right: cell_number(bounds.high.x),
            bottom: cell_number(bounds.low.y),
            top: cell_number(bounds.high.y),
        }
    }

    /// Whether there are more than `MAX_CELLS` cells.
    #[inline]
    pub(crate) fn is_wide(self) -> bool
        requires { IsCellRange self }
        ensures { result ≡ int_lt MAX_CELLS (cell_count self) }
    {
        exceeds(self.right - self.left + 1, self.top - self.bottom + 1)
    }
}

/// Whether a rectangle of so many columns and rows has more than `MAX_CELLS` cells.
#[inline]
fn exceeds(columns: i64, rows: i64) -> bool
    requires columns { unsigned_abs columns ≤ 2 ^ 31 + 1 }
    requires rows { unsigned_abs rows ≤ 2 ^ 31 + 1 }
    ensures { result ≡ int_lt MAX_CELLS (columns *ℤ rows) }
{
    columns * rows > MAX_CELLS
}
