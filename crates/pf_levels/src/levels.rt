//! Levels of rows in the order of a list: each row goes to the first level that it may go to.

ghost use Rattle.std.specs.Prelude.{◌≡◌, ◌≤◌, ◌+◌, [], All, IfOk, List, OnErr, Some, length, slice_get};
ghost use Rattle.pf_rows.specs.Row.{IsSide};
ghost use Rattle.pf_levels.specs.Levels.{ArePairsOf, AreLevels, IsRowPairOf, RowPair};
ghost use Rattle.pf_levels.specs.Links.{AreLinks};
ghost use Rattle.pf_levels.specs.SoFar.{AreLevelsUpTo, next_level, with_next};

use crate::level::Level;
use crate::links::level_with_room;
use crate::pair::RowPair;
use pf_rows::Side;
use std::alloc::{AllocError, Global};
use std::marker::Model;

/// The first level that the next row of the body on a side may go to.
fn next_level(next: &[usize], side: Side) -> usize
    requires { IsSide (length next.now) side }
    ensures { result ≡ next_level next.now side }
{
    match side {
        Side::Static => 0,
        Side::Dynamic(place) => next[place],
    }
}

/// The next row of the body on a side goes to this level at least.
fn set_next(next: &mut [usize], side: Side, level: usize)
    requires { IsSide (length next.old) side }
    ensures { next.new ≡ with_next next.old side level }
{
    if let Side::Dynamic(place) = side {
        next[place] = level;
    }
}

/// Puts the row at a place, the next one, into the first level with room that both its bodies may
/// go to.
fn add_row(
    levels: &mut Vec<Level>,
    links: &mut Vec<usize>,
    next: &mut [usize],
    place: usize,
    pair: RowPair,
) -> Result<(), AllocError>
    requires pair { IsRowPairOf (length next.old) pair }
    requires within { All (λ n. n ≤ length levels.old.items) next.old }
    requires links { AreLinks (length levels.old.items) links.old.items }
    ensures length { length next.new ≡ length next.old }
    ensures links { IfOk result (λ done. AreLinks (length levels.new.items) links.new.items) }
    ensures levels { IfOk result (λ done. (pairs : List RowPair)
        → slice_get pairs place ≡ Some pair
        → AreLevelsUpTo pairs place next.old levels.old.items
        → AreLevelsUpTo pairs (place + 1) next.new levels.new.items) }
{
    let from = next_level(next, pair.first).max(next_level(next, pair.second));
    let number = level_with_room(levels, links, from)?;
    levels[number].push(place);
    set_next(next, pair.first, number + 1);
    set_next(next, pair.second, number + 1);
    Ok(())
}

/// Puts rows into levels.
fn add_rows(
    levels: &mut Vec<Level>,
    links: &mut Vec<usize>,
    next: &mut [usize],
    pairs: &[RowPair],
) -> Result<(), AllocError>
    requires pairs { ArePairsOf (length next.old) pairs.now }
    requires levels { levels.old.items ≡ [] }
    requires links { links.old.items ≡ [] }
    requires next { All (λ n. n ≤ 0) next.old }
    ensures { IfOk result (λ done. AreLevels pairs.now levels.new.items) }
{
    for place in 0..pairs.len() {
        add_row(levels, links, next, place, pairs[place])?;
    }
    Ok(())
}

/// The levels of the rows of a list, and what is lent to find them.
///
/// Contracts see the levels as lists of places.
#[derive(Debug, Drop)]
pub struct Levels {
    levels: Vec<Level>,
    links: Vec<usize>,
    next: Vec<usize>,
}

impl Model for Levels {
    ghost use Rattle.std.specs.Prelude.{List, ℕ};

    ghost Value = { List (List ℕ) };

    ghost view = { λ l. l.levels.items };
}

impl Levels {
    /// No levels. Takes no memory.
    pub fn new(alloc: Global) -> Levels
        ensures { result ≡ [] }
    {
        Levels {
            levels: Vec::new(alloc),
            links: Vec::new(alloc),
            next: Vec::new(alloc),
        }
    }

    /// The levels of the rows of these pairs of so many bodies. Out of memory there are none.
    pub fn update(&mut self, pairs: &[RowPair], bodies: usize) -> Result<(), AllocError>
        requires { ArePairsOf bodies pairs.now }
        ensures levels { IfOk result (λ done. AreLevels pairs.now self.new) }
        ensures none { OnErr result (self.new ≡ []) }
    {
        let found = self.find(pairs, bodies);
        if found.is_err() {
            self.levels.clear();
        }
        found
    }

    /// Finds the levels of the rows of these pairs. Out of memory they are of no use.
    fn find(&mut self, pairs: &[RowPair], bodies: usize) -> Result<(), AllocError>
        requires { ArePairsOf bodies pairs.now }
        ensures { IfOk result (λ done. AreLevels pairs.now self.new) }
    {
        self.levels.clear();
        self.links.clear();
        self.next.clear();
        self.next.resize(bodies, 0)?;
        add_rows(&mut self.levels, &mut self.links, &mut self.next, pairs)
    }

    /// The levels, one after the other.
    pub fn levels(&self) -> &[Level]
        ensures { result.now ≡ self.now }
    {
        self.levels.as_slice()
    }
}
