//! Laws of rows. These functions compute nothing: their clauses are the statements.

ghost use Rattle.std.specs.Prelude.{◌≡◌, ◌^◌};
ghost use Rattle.pf_rows.specs.Impulses.{no_impulses};
ghost use Rattle.pf_rows.specs.Row.{no_mass};

use crate::constraint::InverseMass;
use crate::impulses::Impulses;
use crate::limits::{
    ACCUMULATED_LIMIT, ARM_LIMIT, CONSTRAINT_LIMIT, DIRECTION_LIMIT, INVERSE_INERTIA_LIMIT,
    INVERSE_MASS_LIMIT, NORMAL_LIMIT, SPEED_CHANGE_LIMIT, SPEED_LIMIT, SPIN_LIMIT, STEP_LIMIT,
    TURN_LIMIT,
};

/// The impulses of a new contact and the mass of a static body are zeros.
pub fn named_values() -> (Impulses, InverseMass)
    ensures { result ≡ (no_impulses, no_mass) }
{
    (Impulses::NONE, InverseMass::NONE)
}

/// The limits of the fast path, in raw units of 2^-24: of what a pre-step leaves, and of what a
/// warm start or a round begins with, applies and leaves.
pub fn named_limits()
    ensures direction { DIRECTION_LIMIT ≡ 2 ^ 25 }
    ensures arm { ARM_LIMIT ≡ 2 ^ 28 }
    ensures inverse_mass { INVERSE_MASS_LIMIT ≡ 2 ^ 30 }
    ensures inverse_inertia { INVERSE_INERTIA_LIMIT ≡ 2 ^ 35 }
    ensures turn { TURN_LIMIT ≡ 2 ^ 56 }
    ensures constraint { CONSTRAINT_LIMIT ≡ 2 ^ 31 }
    ensures speed { SPEED_LIMIT ≡ 2 ^ 29 }
    ensures spin { SPIN_LIMIT ≡ 2 ^ 31 }
    ensures speed_change { SPEED_CHANGE_LIMIT ≡ 2 ^ 31 }
    ensures step { STEP_LIMIT ≡ 2 ^ 26 }
    ensures accumulated { ACCUMULATED_LIMIT ≡ 2 ^ 40 }
    ensures normal { NORMAL_LIMIT ≡ 2 ^ 31 }
{}
