//! The meter of the work that steps have done.

ghost use Rattle.std.specs.Prelude.{◌≡◌};
ghost use Rattle.pf_cache.specs.Meter.{saturating_sum};

use std::marker::Model;

/// How much work steps have done. Counts saturate at 2^64 - 1.
#[derive(Clone, Copy, Debug, PartialEq, Eq)]
pub struct Meter {
    /// How many ticks were simulated.
    pub ticks: u64,
    /// How many pairs of bodies could not reuse kept contact points.
    pub collides: u64,
}

impl Model for Meter {
    ghost use Rattle.pf_cache.specs.Meter.{Meter};

    ghost Value = { Meter };

    ghost view = { λ m. record { ticks = m.ticks; collides = m.collides } };

    ghost inverse = { λ m. record { ticks = m.ticks; collides = m.collides } };
}

impl Meter {
    /// The meter of no work.
    pub const NONE: Meter = Meter {
        ticks: 0,
        collides: 0,
    };

    /// Counts a tick.
    pub fn count_tick(&mut self)
        ensures { self.new ≡ record self.old { ticks = saturating_sum self.old.ticks 1 } }
    {
        self.ticks = self.ticks.saturating_add(1);
    }

    /// Counts so many pairs that could not reuse kept contact points.
    pub fn count_collides(&mut self, pairs: u64)
        ensures { self.new ≡ record self.old { collides = saturating_sum self.old.collides pairs } }
    {
        self.collides = self.collides.saturating_add(pairs);
    }
}
