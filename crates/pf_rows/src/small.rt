//! Whether numbers and vectors are small, as the limits of the solver ask.

ghost use Rattle.std.specs.Prelude.{◌≤◌, ◌↔◌, IsTrue};
ghost use Rattle.std.specs.Int.RustNames.{unsigned_abs};
ghost use Rattle.pf_rows.specs.Small.{IsShort};

use pf_num::Fx;
use pf_rot::V2;

/// Whether a number is at most this in magnitude.
#[inline]
pub fn is_within(x: Fx, limit: u64) -> bool
    ensures { IsTrue result ↔ (unsigned_abs x ≤ limit) }
{
    x.raw().unsigned_abs() <= limit
}

/// Whether both parts of a vector are at most this in magnitude.
#[inline]
pub fn is_short(v: V2, limit: u64) -> bool
    ensures { IsTrue result ↔ IsShort limit v }
{
    is_within(v.x, limit) && is_within(v.y, limit)
}
