//! Laws of lengths, unit rotations and turns, and the values of the constants. These functions
//! compute nothing: their clauses are the statements.

ghost use Rattle.std.specs.Prelude.{◌≡◌, ℕ, ◌+◌, ◌*◌, ℤ, pos};
ghost use Rattle.std.specs.Int.RustNames.{unsigned_abs};
ghost use Rattle.pf_num.specs.Root.{IsRoot};
ghost use Rattle.pf_num.specs.Fx.{IsRaw, saturate, product, tick};
ghost use Rattle.pf_rot.specs.Vector.{V2, zero_vector, length_of};
ghost use Rattle.pf_rot.specs.Rotation.{Rot, upright, unit, turn};
ghost use Rattle.pf_rot.specs.Laws.{IsAtMostOne};

use crate::rotation::Rot;
use crate::vector::V2;

/// The length is the greatest number whose square is at most the exact sum of squares, saturated.
pub fn lengths_are_greatest()
    ensures { (v : V2) (r : ℕ)
        → IsRoot (unsigned_abs v.x * unsigned_abs v.x + unsigned_abs v.y * unsigned_abs v.y) r
        → length_of v ≡ saturate (pos r) }
{}

/// The direction (0, 0) gives the upright rotation, and a turn by an angle that rounds to 0 leaves
/// a rotation as it is, bit for bit.
pub fn nothing_turns_nothing()
    ensures direction { unit (pos 0) (pos 0) ≡ upright }
    ensures angle { (q : Rot) (spin : ℤ) → product tick spin ≡ pos 0 → turn q spin ≡ q }
{}

/// Cosine and sine of `unit` are at most 1 in magnitude, and `turn` keeps them so.
pub fn directions_are_at_most_one()
    ensures direction { (c s : ℤ) → IsRaw c → IsRaw s → IsAtMostOne (unit c s) }
    ensures turn { (q : Rot) (spin : ℤ) → IsAtMostOne q → IsAtMostOne (turn q spin) }
{}

/// The constants: the vector (0, 0) and the upright rotation.
pub fn named_values() -> (V2, Rot)
    ensures { result ≡ (zero_vector, upright) }
{
    (V2::ZERO, Rot::UPRIGHT)
}
