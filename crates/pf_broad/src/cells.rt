//! The bodies of cells, as a grid stores them.

ghost use Rattle.std.specs.Prelude.{◌≡◌, ◌&&◌, OnOk};
ghost use Rattle.std.specs.Ordering.{int_eq};
ghost use Rattle.pf_broad.specs.declared.cell.Cell.{Cell};
ghost use Rattle.pf_broad.specs.Cell.{has_cell, is_between, IsCellRange};
ghost use Rattle.pf_broad.specs.Stored.{cell_eq, stored_in, with_listed_body};

use crate::cell::{Cell, CellRange};
use crate::hasher::CellHasher;
use indexmap::IndexMap;
use smallvec::SmallVec;
use std::alloc::{AllocError, Global};

/// How many bodies a cell has without memory of its own.
const INLINE_BODIES: usize = 8;

/// The bodies of each cell that has some.
pub(crate) type Cells = IndexMap<Cell, SmallVec<u16, INLINE_BODIES>, CellHasher>;

/// Adds a body to a cell.
#[inline]
fn add_to_cell(alloc: Global, cells: &mut Cells, cell: Cell, body: u16) -> Result<(), AllocError>
    ensures { OnOk result ((c : Cell) → stored_in cells.new c
        ≡ with_listed_body (cell_eq cell c) body (stored_in cells.old c)) }
{
    if let Some(bodies) = cells.get_mut(&cell) {
        bodies.push(body)?;
        return Ok(());
    }
    let mut bodies = SmallVec::new(alloc);
    bodies.push(body)?;
    cells.insert(cell, bodies)?;
    Ok(())
}

/// Adds a body to the cells of a range that are in column `x`.
#[inline]
fn add_to_column(
    alloc: Global,
    cells: &mut Cells,
    x: i64,
    range: CellRange,
    body: u16,
) -> Result<(), AllocError>
    requires { IsCellRange range }
    ensures { OnOk result ((c : Cell) → stored_in cells.new c
        ≡ with_listed_body (int_eq x c.x && is_between range.bottom range.top c.y) body
        (stored_in cells.old c)) }
{
    for y in range.bottom..range.top + 1 {
        add_to_cell(alloc, cells, Cell { x, y }, body)?;
    }
    Ok(())
}

/// Adds a body to the cells of a range.
pub(crate) fn add_body(
    alloc: Global,
    cells: &mut Cells,
    range: CellRange,
    body: u16,
) -> Result<(), AllocError>
    requires { IsCellRange range }
    ensures { OnOk result ((c : Cell) → stored_in cells.new c
        ≡ with_listed_body (has_cell range c) body (stored_in cells.old c)) }
{
    for x in range.left..range.right + 1 {
        add_to_column(alloc, cells, x, range, body)?;
    }
    Ok(())
}
