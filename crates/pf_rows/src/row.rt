//! Rows: contacts as the solver takes them, as Box2D-Lite's `Arbiter` with its `Contact`.

ghost use Rattle.std.specs.Prelude.{◌≡◌};
ghost use Rattle.pf_rows.specs.Row.{new_row};

use crate::constraint::{Constraint, InverseMass, Prepared};
use crate::impulses::Impulses;
use pf_manifold::Touch;
use std::marker::Model;

/// One side of a contact: static, or a place in the list that is solved.
#[derive(Clone, Copy, Debug)]
pub enum Side {
    /// It is static, so it stands in no list, and impulses do not move it.
    Static,
    /// At this place in the list of bodies that are solved.
    Dynamic(usize),
}

/// A contact of a tick: its point, its accumulated impulses, its place among the contacts of the
/// tick, and where its bodies stand.
#[derive(Clone, Copy, Debug)]
pub struct Entry {
    /// The contact point.
    pub touch: Touch,
    /// What the contact has accumulated.
    pub impulses: Impulses,
    /// Its place among all contacts.
    pub place: usize,
    /// Where the first body stands.
    pub first: Side,
    /// Where the second body stands.
    pub second: Side,
}

impl Model for Entry {
    ghost use Rattle.pf_rows.specs.Row.{Entry};

    ghost Value = { Entry };

    ghost view = { λ e. record {
      touch = e.touch;
      impulses = e.impulses;
      place = e.place;
      first = e.first;
      second = e.second;
    } };

    ghost inverse = { λ e. record {
      touch = e.touch;
      impulses = e.impulses;
      place = e.place;
      first = e.first;
      second = e.second;
    } };
}

/// An entry, and what a pre-step made of it.
#[derive(Debug, Drop)]
pub struct Row {
    /// The entry.
    pub entry: Entry,
    /// What the rounds need of it beside its impulses.
    pub prepared: Prepared,
}

impl Model for Row {
    ghost use Rattle.pf_rows.specs.Row.{Row};

    ghost Value = { Row };

    ghost view = { λ r. record {
      entry = r.entry;
      first_mass = r.prepared.first_mass;
      second_mass = r.prepared.second_mass;
      constraint = r.prepared.constraint;
    } };
}

impl Row {
    /// An entry before its pre-step.
    pub fn new(entry: Entry) -> Row
        ensures { result ≡ new_row entry }
    {
        Row {
            entry,
            prepared: Prepared::new(InverseMass::NONE, InverseMass::NONE, Constraint::NONE),
        }
    }
}
