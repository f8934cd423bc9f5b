//! Laws of the unknowns of a batch, and the values of limits. These functions compute nothing: their
//! clauses are the statements.

ghost use Rattle.std.specs.Prelude.{◌≡◌, ◌^◌, ℕ, List};
ghost use Rattle.pf_rows.specs.Row.{Row};
ghost use Rattle.pf_solver.specs.Impulse.{ContactState};
ghost use Rattle.pf_solver.specs.Order.{AreLevelsOf, solved_at_once};
ghost use Rattle.pf_solver.specs.Velocities.{Batch, Step, passes};
ghost use Rattle.pf_bundles.specs.Unknowns.{Unknowns};
ghost use Rattle.pf_batches.specs.Unknowns.{AreUnknownsOf, AreResults, AreRowsAtPlaces, batch_with_unknowns, unknowns_after_all, unknowns_in_levels, seats_of};

use crate::batch::START_LIMIT;
use crate::bundle_step::GROWTH;

/// Velocities and accumulated impulses may be held in two lists of their own while rows are solved
/// level by level. Where each row of a level is read from the lists as they were before the level,
/// and all results are then stored, the batch with these unknowns is the batch with the level
/// solved at once. After so many passes it is the batch after as many passes along the list of
/// rows.
pub fn unknowns_are_solved_as_the_batch()
    ensures level { (step : Step) (b : Batch) (n : Unknowns) (level : List ℕ) (found : List Row)
        (states : List ContactState) → AreUnknownsOf b n → AreRowsAtPlaces b.rows level found
        → AreResults step n level found states
        → batch_with_unknowns (unknowns_after_all (seats_of level found) states n) b
        ≡ solved_at_once level step (batch_with_unknowns n b) }
    ensures passes { (k : ℕ) (step : Step) (b : Batch) (n : Unknowns) (levels : List (List ℕ))
        → AreUnknownsOf b n → AreLevelsOf b levels
        → batch_with_unknowns (unknowns_in_levels k levels step b.rows n) b
        ≡ passes k step (batch_with_unknowns n b) }
{}

/// How great numbers can be before the rounds, and how much greater a step in lanes can make them,
/// in raw units of 2^-24.
pub fn named_limits()
    ensures start { START_LIMIT ≡ 2 ^ 49 }
    ensures growth { GROWTH ≡ 2 ^ 30 }
{}
