//! The accumulated impulses of a contact.

use crate::small::is_within;
use pf_num::Fx;
use std::marker::Model;

/// The accumulated impulses of a contact, Box2D-Lite's `Pn` and `Pt`: what it applies in a tick,
/// with which the next tick starts warm. In units of 2^-24.
#[derive(Clone, Copy, Debug, PartialEq, Eq)]
pub struct Impulses {
    /// Along the normal.
    pub normal: Fx,
    /// Along the tangent.
    pub tangent: Fx,
}

impl Model for Impulses {
    ghost use Rattle.pf_rows.specs.Impulses.{Impulses};

    ghost Value = { Impulses };

    ghost view = { λ p. record { normal = p.normal; tangent = p.tangent } };

    ghost inverse = { λ p. record { normal = p.normal; tangent = p.tangent } };
}

impl Impulses {
    ghost use Rattle.std.specs.Prelude.{◌↔◌, IsTrue};
    ghost use Rattle.pf_rows.specs.Small.{AreWithin};

    /// The impulses of a contact that is new.
    pub const NONE: Impulses = Impulses {
        normal: Fx::ZERO,
        tangent: Fx::ZERO,
    };

    /// Whether both are at most this in magnitude.
    #[inline]
    pub fn are_within(&self, limit: u64) -> bool
        ensures { IsTrue result ↔ AreWithin limit self.now }
    {
        is_within(self.normal, limit) && is_within(self.tangent, limit)
    }
}
