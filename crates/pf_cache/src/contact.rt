//! Contacts: what is kept of a contact point from tick to tick.

use pf_manifold::Key;
use pf_rows::Impulses;
use std::marker::Model;

/// A contact of a world, with which the next tick starts warm.
#[derive(Clone, Copy, Debug, PartialEq, Eq)]
pub struct Contact {
    /// Its key.
    pub key: Key,
    /// What it has accumulated.
    pub impulses: Impulses,
}

impl Model for Contact {
    ghost use Rattle.pf_cache.specs.Contact.{Contact};

    ghost Value = { Contact };

    ghost view = { λ c. record { key = c.key; impulses = c.impulses } };

    ghost inverse = { λ c. record { key = c.key; impulses = c.impulses } };
}

impl Contact {
    ghost use Rattle.std.specs.Prelude.{◌≡◌};
    ghost use Rattle.pf_manifold.specs.Key.{IsKey, rank};

    /// The rank of its key. Contacts are in the order of their ranks.
    #[inline]
    pub(crate) fn rank(&self) -> usize
        requires { IsKey self.now.key }
        ensures { result ≡ rank self.now.key }
    {
        self.key.rank()
    }
}
