//! Laws of the solver. These functions compute nothing: their clauses are the statements.

ghost use Rattle.std.specs.Prelude.{◌≡◌, ℕ, ◌+◌, ◌*◌, ◌^◌, ◌<◌, ◌≤ℤ◌, pos, neg_ℤ, drop, fold, map, take, All, List, length};
ghost use Rattle.pf_shapes.specs.Body.{BodyState};
ghost use Rattle.pf_shapes.specs.Scene.{Scene};
ghost use Rattle.pf_manifold.specs.Key.{IsRising};
ghost use Rattle.pf_rows.specs.Row.{Constraint, Row};
ghost use Rattle.pf_solver.specs.Impulse.{ContactState, after_round, friction_limit};
ghost use Rattle.pf_solver.specs.Alone.{seen_from};
ghost use Rattle.pf_solver.specs.Beside.{IsBatch, side_by_side, velocities_of};
ghost use Rattle.pf_islands.specs.Island.{states_of, rows_among, IsOwnOrOther};
ghost use Rattle.pf_solver.specs.Laws.{places_written, solved_at};
ghost use Rattle.pf_levels.specs.Levels.{AreLevels, IsLevel, RowPair, pair_of};
ghost use Rattle.pf_levels.specs.Overlap.{AreLevelsInOrder, late_then_early};
ghost use Rattle.pf_solver.specs.Order.{AreLevelsOf, DoLateAndEarly, IsOrderOf, after_overlapping_passes, passes_in_levels, solved_at_once, solved_in};
ghost use Rattle.pf_solver.specs.Solve.{solved_batch};
ghost use Rattle.pf_solver.specs.Velocities.{Batch, Step, pass, passes};

use crate::bodies::{STILL_SPEED, STILL_SPIN, STILL_TICKS};
use crate::constraint::{BIAS_FACTOR, SLOP};
use crate::velocities::ROUNDS;

/// After a round the accumulated normal impulse is not below 0, and the accumulated tangent impulse
/// is within the limit of friction, where that is not below 0.
pub fn rounds_keep_the_limits()
    ensures normal { (c : Constraint) (m : ContactState)
        → pos 0 ≤ℤ (after_round c m).impulses.normal }
    ensures friction { (c : Constraint) (m : ContactState)
        → let limit = friction_limit c (after_round c m).impulses in
        pos 0 ≤ℤ limit → (neg_ℤ limit ≤ℤ (after_round c m).impulses.tangent)
        × ((after_round c m).impulses.tangent ≤ℤ limit) }
{}

/// So many rounds are one list of contacts, written as many times: each contact is solved by the
/// bodies and the accumulated impulses that the one before it in this list left.
pub fn rounds_are_one_list()
    ensures { (n : ℕ) (step : Step) (b : Batch)
        → passes n step b ≡ fold (solved_at step) b (places_written n (length b.rows)) }
{}

/// A pass may solve the rows in any order that keeps, for each dynamic body, the order of its rows:
/// the bodies, and all accumulated impulses, are the same, bit for bit.
pub fn other_orders_are_one_pass()
    ensures { (step : Step) (b : Batch) (order : List ℕ) → IsOrderOf b order
        → solved_in order step b ≡ pass step b.bodies b.rows }
{}

/// The rows of a level, of which no two have a dynamic body in common, may be solved at once: each
/// reads its bodies before any of them writes its own.
pub fn levels_are_solved_at_once()
    ensures { (step : Step) (b : Batch) (level : List ℕ) → IsLevel (map pair_of b.rows) level
        → solved_at_once level step b ≡ solved_in level step b }
{}

/// Passes level by level, each level at once, are passes along the list, bit for bit: where all
/// rows are in a level, no two of a level have a dynamic body in common, and of two rows of one
/// body the one that comes first in the list is in the level that comes first (level scheduling of
/// Gauss-Seidel; Box2D 3.x colours its contacts, and does not keep their order).
pub fn levels_are_solved_as_the_list()
    ensures { (n : ℕ) (step : Step) (b : Batch) (levels : List (List ℕ)) → AreLevelsOf b levels
        → passes_in_levels n levels step b ≡ passes n step b }
{}

/// The late levels of a pass and the early ones of the next may be solved together, as levels of
/// their rows in this order: where late levels have room, passes so take fewer levels (software
/// pipelining). Passes that overlap are passes along the list, bit for bit.
pub fn passes_may_overlap()
    ensures levels { (pairs : List RowPair) (levels across : List (List ℕ)) (early : ℕ)
        → AreLevels pairs levels
        → AreLevelsInOrder pairs (late_then_early early levels) across
        → DoLateAndEarly pairs (take early levels) (drop early levels) across }
    ensures passes { (n : ℕ) (step : Step) (b : Batch) (levels across : List (List ℕ)) (early : ℕ)
        → AreLevelsOf b levels
        → DoLateAndEarly (map pair_of b.rows) (take early levels) (drop early levels) across
        → passes (n + 1) step b
        ≡ after_overlapping_passes n (take early levels) across (drop early levels) step b }
{}

/// An island is solved alone as it is in the whole list, bit for bit: where no contact leads from
/// some bodies to another dynamic one, the contacts of other bodies have no part in what becomes of
/// these and of the contacts that touch them.
pub fn islands_are_solved_alone()
    ensures { (s : Scene) (numbers : List ℕ) (bodies : List BodyState) (rows : List Row)
        → IsRising 0 numbers → All (λ n. n < length bodies) numbers
        → All (IsOwnOrOther numbers) rows
        → solved_batch s (states_of numbers bodies) (rows_among numbers rows)
        ≡ seen_from numbers (solved_batch s bodies rows) }
{}

/// Islands that are solved as one list are, bit for bit, what they are alone. In the list the
/// bodies of one stand behind those of another, and so do the contacts; each contact names bodies
/// of its own island, by their places in the whole list. This holds of so many passes, and of the
/// whole velocity phase.
pub fn batches_are_solved_side_by_side()
    ensures passes { (n : ℕ) (step : Step) (batches : List Batch) → All IsBatch batches
        → passes n step (side_by_side batches) ≡ side_by_side (map (passes n step) batches) }
    ensures velocities { (batches : List Batch) → All IsBatch batches
        → velocities_of (side_by_side batches) ≡ side_by_side (map velocities_of batches) }
{}

/// A still body moves at most 1/64 of a length and turns by at most 1/32 of a radian a second; a
/// full timer is 32 ticks. A tick has ten rounds. Baumgarte's factor is 12.8 a second, and the slop
/// 0.01 of a length, in units of 2^-24.
pub fn named_limits()
    ensures speed { STILL_SPEED ≡ 2 ^ 18 }
    ensures spin { STILL_SPIN ≡ 2 ^ 19 }
    ensures ticks { STILL_TICKS ≡ 32 }
    ensures rounds { ROUNDS ≡ 10 }
    ensures bias { BIAS_FACTOR ≡ pos (3355443 * 64) }
    ensures slop { SLOP ≡ pos 167772 }
{}
