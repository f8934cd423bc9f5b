//! Levels across two rounds.

ghost use Rattle.std.specs.Prelude.{◌≡◌, ◌≤◌, ◌<◌, [], List, OnOk, length};
ghost use Rattle.pf_levels.specs.Levels.{AreLevels, ArePairsOf};
ghost use Rattle.pf_levels.specs.Overlap.{AreLevelsInOrder, late_then_early};

use crate::level::Level;
use crate::levels::Levels;
use crate::listing::{add_places, list_levels, list_pairs};
use crate::pair::RowPair;
use std::alloc::{AllocError, Global};
use std::marker::Model;

/// Lists the rows of the late levels, and then those of the early ones.
fn list_rows(order: &mut Vec<usize>, levels: &[Level], early: usize) -> Result<(), AllocError>
    requires { early ≤ length levels.now }
    ensures { OnOk result (order.new.items ≡ late_then_early early levels.now) }
{
    order.clear();
    add_places(order, &levels[early..])?;
    add_places(order, &levels[..early])
}

/// Levels of the rows of two rounds: those of the late levels of one are listed first, then those
/// of the early levels of the next. Where late levels have few rows, early rows stand beside them
/// (software pipelining of the rounds).
///
/// Contracts see the levels as lists of places.
#[derive(Debug, Drop)]
pub struct Overlap {
    order: Vec<usize>,
    pairs: Vec<RowPair>,
    numbered: Levels,
    levels: Vec<Level>,
}

impl Model for Overlap {
    ghost use Rattle.std.specs.Prelude.{List, ℕ};

    ghost Value = { List (List ℕ) };

    ghost view = { λ o. o.levels.items };
}

impl Overlap {
    /// No levels. Takes no memory.
    pub fn new(alloc: Global) -> Overlap
        ensures { result ≡ [] }
    {
        Overlap {
            order: Vec::new(alloc),
            pairs: Vec::new(alloc),
            numbered: Levels::new(alloc),
            levels: Vec::new(alloc),
        }
    }

    /// Finds levels of the rows of two rounds. `levels` are those of one round, for rows with these
    /// pairs of so many bodies; the first `early` of them are the early ones. Out of memory the
    /// levels are of no use.
    #[tactic(auto, using(crate::proofs::InOrder::late_early_within, crate::proofs::InOrder::within_order))]
    pub fn update(
        &mut self,
        pairs: &[RowPair],
        bodies: usize,
        levels: &[Level],
        early: usize,
    ) -> Result<(), AllocError>
        requires pairs { ArePairsOf bodies pairs.now }
        requires levels { AreLevels pairs.now levels.now }
        requires early { early ≤ length levels.now }
        ensures { OnOk result (AreLevelsInOrder pairs.now
            (late_then_early early levels.now) self.new) }
    {
        list_rows(&mut self.order, levels, early)?;
        list_pairs(&mut self.pairs, pairs, &self.order)?;
        self.numbered.update(&self.pairs, bodies)?;
        list_levels(&mut self.levels, &self.order, self.numbered.levels())
    }

    /// The levels, one after the other.
    pub fn levels(&self) -> &[Level]
        ensures { result.now ≡ self.now }
    {
        self.levels.as_slice()
    }
}
