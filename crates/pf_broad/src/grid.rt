//! The grid of the broad phase.

use crate::bodies::all_bounds;
use crate::cell::{Cell, CellRange};
use crate::cells::{Cells, add_body};
use crate::hasher::CellHasher;
use indexmap::IndexMap;
use pf_shapes::{BodyState, Bounds, MAX_BODIES, Scene};
use std::alloc::{AllocError, Global};
use std::marker::Model;

/// The bodies of a scene by the cells in which their bounds lie. A body that lies in more than
/// `MAX_CELLS` cells is listed in none of them, but with the other wide bodies.
///
/// Contracts see it as a finite map from cells to lists of bodies, and a list of wide bodies.
#[derive(Drop)]
pub struct Grid {
    cells: Cells,
    wide: Vec<u16>,
}

impl Model for Grid {
    ghost use Rattle.pf_broad.specs.Grid.{Grid, grid_code};

    ghost Value = { Grid };

    ghost coded = { grid_code };

    ghost use Rattle.pf_broad.specs.Stored.{stored_cells};

    ghost view = { λ g. record { cells = stored_cells g.cells; wide = g.wide.items } };
}

impl Grid {
    ghost use Rattle.std.specs.Prelude.{◌≡◌, ◌≤◌, [], length, All, IfOk, IsOk};
    ghost use Rattle.std.specs.FinMap.{get};
    ghost use Rattle.pf_shapes.specs.Bounds.{IsOrdered};
    ghost use Rattle.pf_broad.specs.declared.cell.Cell.{Cell};
    ghost use Rattle.pf_broad.specs.Pairs.{all_bounds};
    ghost use Rattle.pf_broad.specs.Grid.{IsGridOf, bodies_in, members, unless_empty, wide};

    /// The grid of these bodies of a scene. It takes memory for their bounds and for the grid; for
    /// no bodies it takes none, and can't fail.
    pub fn of(alloc: Global, scene: &Scene, bodies: &[BodyState]) -> Result<Grid, AllocError>
        ensures cells { IfOk result (λ grid. (cell : Cell) → get grid.cells cell
            ≡ unless_empty (members (all_bounds scene.now.fixtures bodies.now) cell)) }
        ensures wide { IfOk result
            (λ grid. grid.wide ≡ wide (all_bounds scene.now.fixtures bodies.now)) }
        ensures no_memory { bodies.now ≡ [] → IsOk result }
    {
        if bodies.is_empty() {
            return Ok(Grid::empty(alloc));
        }
        let bounds = all_bounds(alloc, scene, bodies)?;
        Grid::of_bounds(alloc, &bounds)
    }

    /// The grid of no bodies. It takes no memory.
    fn empty(alloc: Global) -> Grid
        ensures { IsGridOf [] result }
    {
        Grid {
            cells: IndexMap::with_hasher(alloc, CellHasher::START),
            wide: Vec::new(alloc),
        }
    }

    /// The grid of bodies with these bounds.
    #[inline(never)]
    pub(crate) fn of_bounds(alloc: Global, bounds: &[Bounds]) -> Result<Grid, AllocError>
        requires few { length bounds.now ≤ MAX_BODIES }
        requires ordered { All IsOrdered bounds.now }
        ensures { IfOk result (IsGridOf bounds.now) }
    {
        let start = CellHasher::START;
        let mut cells = IndexMap::with_capacity_and_hasher(alloc, bounds.len(), start)?;
        let mut wide = Vec::new(alloc);
        for i in 0..bounds.len() {
            let range = CellRange::of(&bounds[i]);
            if range.is_wide() {
                wide.push(i as u16)?;
            } else {
                add_body(alloc, &mut cells, range, i as u16)?;
            }
        }
        Ok(Grid { cells, wide })
    }

    /// The bodies that are listed in a cell, in ascending order.
    #[inline]
    pub fn bodies_in(&self, cell: Cell) -> &[u16]
        ensures { result.now ≡ bodies_in self.now cell }
    {
        match self.cells.get(&cell) {
            Some(bodies) => bodies.as_slice(),
            None => &[],
        }
    }

    /// The wide bodies, in ascending order.
    #[inline]
    pub fn wide(&self) -> &[u16]
        ensures { result.now ≡ self.now.wide }
    {
        self.wide.as_slice()
    }
}
