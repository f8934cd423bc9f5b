//! Lever arms of impulses, on the fast path.

ghost use Rattle.std.specs.Prelude.{◌≡◌, ◌≤◌, ◌^◌};
ghost use Rattle.std.specs.Int.RustNames.{unsigned_abs};
ghost use Rattle.pf_rot.specs.Vector.{dot};
ghost use Rattle.pf_rows.specs.Small.{IsShort};
ghost use Rattle.pf_solver.specs.Constraint.{squared_lever_arm, tangent_of};

use crate::constraint::tangent_of;
use crate::fast_path::products::{arm_by_direction, square_of_arm, square_of_part};
use pf_num::Fx;
use pf_rot::V2;
use pf_rows::limits::{ARM_LIMIT, DIRECTION_LIMIT};

/// The squared length of an arm.
#[inline(always)]
#[tactic(auto, unfolding(pf_rot::specs::Vector::dot))]
fn squared_length(arm: V2) -> Fx
    requires { IsShort ARM_LIMIT arm }
    ensures value { result ≡ dot arm arm }
    ensures size { unsigned_abs result ≤ 2 ^ 33 }
{
    square_of_arm(arm.x).unchecked_add(square_of_arm(arm.y))
}

/// The part of an arm along a direction.
#[inline(always)]
#[tactic(auto, unfolding(pf_rot::specs::Vector::dot))]
fn part_along(arm: V2, direction: V2) -> Fx
    requires arm { IsShort ARM_LIMIT arm }
    requires direction { IsShort DIRECTION_LIMIT direction }
    ensures value { result ≡ dot arm direction }
    ensures size { unsigned_abs result ≤ 2 ^ 30 }
{
    let x = arm_by_direction(arm.x, direction.x);
    x.unchecked_add(arm_by_direction(arm.y, direction.y))
}

/// How far from the centre an impulse along the normal acts, and one along the tangent, squared.
#[inline(always)]
#[tactic(auto, unfolding(crate::specs::Constraint::squared_lever_arm))]
pub(crate) fn squared_lever_arms(arm: V2, normal: V2) -> (Fx, Fx)
    requires arm { IsShort ARM_LIMIT arm }
    requires normal { IsShort DIRECTION_LIMIT normal }
    ensures normal { result.0 ≡ squared_lever_arm arm normal }
    ensures tangent { result.1 ≡ squared_lever_arm arm (tangent_of normal) }
{
    let squared = squared_length(arm);
    let along = part_along(arm, normal);
    let across = part_along(arm, tangent_of(normal));
    (
        Fx::ZERO.max(squared.unchecked_sub(square_of_part(along))),
        Fx::ZERO.max(squared.unchecked_sub(square_of_part(across))),
    )
}
