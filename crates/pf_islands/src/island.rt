//! Islands: bodies that contacts connect, with these contacts.

ghost use Rattle.std.specs.Prelude.{◌≡◌};

use pf_bundles::Workspace;
use pf_rows::{Entry, Row};
use pf_shapes::BodyState;
use smallvec::SmallVec;
use std::alloc::{AllocError, Global};
use std::marker::Model;

/// An island that needs room for `n` bodies or contacts, and has room for `MAX_SPARE * (n + 1)` of
/// them or more, gives all its memory back.
const MAX_SPARE: usize = 4;

/// Some bodies of a world that contacts connect, and the contacts that touch them, as Box2D 2.x's
/// `b2Island`. It has its own copies of all, so it can be solved apart from the others. Its rows
/// have its bodies by their places in the island. A body without contacts needs no memory beside
/// the island itself.
#[derive(Debug, Drop)]
pub struct Island {
    /// The numbers of its bodies in the world, in ascending order.
    pub numbers: SmallVec<usize, 1>,
    /// Their states.
    pub bodies: SmallVec<BodyState, 1>,
    /// The contacts that touch them, in the order of their keys.
    pub rows: Vec<Row>,
    /// Memory for solving them in lanes. It changes no result, and contracts do not see it.
    pub workspace: Workspace,
}

impl Model for Island {
    ghost use Rattle.pf_islands.specs.Split.{Island};

    ghost Value = { Island };

    ghost view = { λ i. record {
      numbers = i.numbers.items;
      bodies = i.bodies.items;
      rows = i.rows.items;
    } };
}

impl Island {
    ghost use Rattle.std.specs.Prelude.{◌≡◌, ◌++◌, ◌∷◌, [], IsOk, OnOk};
    ghost use Rattle.pf_rows.specs.Row.{new_row};
    ghost use Rattle.pf_islands.specs.Split.{no_island};

    /// Without bodies. Takes no memory.
    pub(crate) fn new(alloc: Global) -> Island
        ensures { result ≡ no_island }
    {
        Island {
            numbers: SmallVec::new(alloc),
            bodies: SmallVec::new(alloc),
            rows: Vec::new(alloc),
            workspace: Workspace::new(alloc),
        }
    }

    /// Whether it has far more memory than an island with so many bodies and contacts needs.
    fn has_too_much_memory(&self, bodies: usize, rows: usize) -> bool {
        self.bodies.capacity() / MAX_SPARE > bodies || self.rows.capacity() / MAX_SPARE > rows
    }

    /// Drops its bodies and contacts, and reserves memory for so many other contacts and the bodies
    /// that they may connect. Its memory stays, unless it is far too much. Takes no memory for one
    /// body without contacts.
    pub(crate) fn clear(&mut self, rows: usize) -> Result<(), AllocError>
        ensures value { OnOk result (self.new ≡ no_island) }
        ensures no_memory { rows ≡ 0 → IsOk result }
    {
        let bodies = rows.saturating_add(1);
        if self.has_too_much_memory(bodies, rows) {
            *self = Island::new(*self.rows.allocator());
        }
        self.numbers.clear();
        self.bodies.clear();
        self.rows.clear();
        if rows > 0 {
            self.numbers.reserve(bodies)?;
            self.bodies.reserve(bodies)?;
        }
        self.rows.reserve(rows)
    }

    /// Adds a body with this number. After an error a part of it may have been added.
    #[inline]
    pub(crate) fn add_body(&mut self, number: usize, body: &BodyState) -> Result<(), AllocError>
        ensures { OnOk result (self.new ≡ record self.old {
          numbers = self.old.numbers ++ number ∷ [];
          bodies = self.old.bodies ++ body.now ∷ [];
        }) }
    {
        self.numbers.push(number)?;
        self.bodies.push(*body)?;
        Ok(())
    }

    /// Adds the row of an entry.
    #[inline]
    pub(crate) fn add_row(&mut self, entry: Entry) -> Result<(), AllocError>
        ensures { OnOk result (self.new
            ≡ record self.old { rows = self.old.rows ++ new_row entry ∷ [] }) }
    {
        self.rows.push(Row::new(entry))?;
        Ok(())
    }
}
