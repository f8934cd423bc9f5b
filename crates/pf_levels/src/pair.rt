//! The bodies of one row.

use pf_rows::Side;
use std::marker::Model;

/// The sides of the two bodies of a row.
#[derive(Clone, Copy, Debug)]
pub struct RowPair {
    /// Where the first body stands.
    pub first: Side,
    /// Where the second body stands.
    pub second: Side,
}

impl Model for RowPair {
    ghost use Rattle.pf_levels.specs.Levels.{RowPair};

    ghost Value = { RowPair };

    ghost view = { λ p. record { first = p.first; second = p.second } };

    ghost inverse = { λ p. record { first = p.first; second = p.second } };
}
