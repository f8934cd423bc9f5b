//! Memory for solving rows in lanes.

ghost use Rattle.std.specs.Prelude.{◌≡◌, [], None};

use crate::bundle::Bundle;
use crate::lane_row::LaneRow;
use crate::unknowns::Unknowns;
use pf_levels::{Levels, Overlap, RowPair};
use std::alloc::Global;
use std::fmt::{Debug, Error, Formatter, Write};

/// Memory that solving rows in lanes uses from tick to tick, as much as the greatest tick needed.
/// Nothing of what it holds is used again.
#[derive(Drop)]
pub struct Workspace {
    /// The sides of the bodies of all rows.
    pub pairs: Vec<RowPair>,
    /// The levels of the rows.
    pub levels: Levels,
    /// The levels across two rounds.
    pub overlap: Overlap,
    /// The rows, each as a lane holds it.
    pub rows: Vec<LaneRow>,
    /// The rows of each level side by side.
    pub bundles: Vec<Bundle>,
    /// The rows of each level across two rounds side by side.
    pub overlap_bundles: Vec<Bundle>,
    /// The velocities of all bodies, and the accumulated impulses of all rows, once they were
    /// needed.
    pub unknowns: Option<Unknowns>,
}

impl Debug for Workspace {
    fn fmt<W: Write>(&self, formatter: &mut Formatter<W>) -> Result<(), Error> {
        formatter.write_str("Workspace")
    }
}

impl Workspace {
    /// Without memory. Takes none.
    pub fn new(alloc: Global) -> Workspace
        ensures pairs { result.pairs.items ≡ [] }
        ensures levels { result.levels ≡ [] }
        ensures overlap { result.overlap ≡ [] }
        ensures rows { result.rows.items ≡ [] }
        ensures bundles { result.bundles.items ≡ [] }
        ensures overlap_bundles { result.overlap_bundles.items ≡ [] }
        ensures unknowns { result.unknowns ≡ None }
    {
        Workspace {
            pairs: Vec::new(alloc),
            levels: Levels::new(alloc),
            overlap: Overlap::new(alloc),
            rows: Vec::new(alloc),
            bundles: Vec::new(alloc),
            overlap_bundles: Vec::new(alloc),
            unknowns: None,
        }
    }
}
