//! Warm starting and the rounds, level by level.

ghost use Rattle.std.specs.Prelude.{◌≡◌, ◌≤◌, ◌-◌, ℕ, All, IfSome, IsTrue, List, drop, length, map, take};
ghost use Rattle.pf_bundles.specs.Unknowns.{Unknowns};
ghost use Rattle.pf_solver.specs.Beside.{velocities_of};
ghost use Rattle.pf_solver.specs.Impulse.{after_round};
ghost use Rattle.pf_solver.specs.Order.{AreLevelsOf, DoLateAndEarly, after_overlapping_passes, solved_by_levels};
ghost use Rattle.pf_solver.specs.Velocities.{Batch};
ghost use Rattle.pf_levels.specs.Levels.{pair_of};
ghost use Rattle.pf_batches.specs.Unknowns.{AreAllWithin, AreBundlesFor, AreUnknownsAfter, AreUnknownsOf, IsBundleOn, batch_with_unknowns, batch_unknowns};
ghost use Rattle.pf_bundles.specs.Seats.{AreAsMany};

use crate::bundle_step::{GROWTH, LaneStep, solve_bundle};
use pf_bundles::limits::NUMBER_LIMIT;
use pf_bundles::{Bundle, LaneRow, Unknowns};
use pf_solver::{ROUNDS, Round, WarmStart};

/// The step of each bundle, one after the other. Before it no number is above `limit`. Returns what
/// no number is above after it, or `None` where that is too great, as after 2^19 steps of bundles
/// in all, or where a number becomes too great.
#[inline(never)]
fn solve_bundles<L: LaneStep>(
    bundles: &[Bundle],
    rows: &[LaneRow],
    unknowns: &mut Unknowns,
    limit: u64,
) -> Option<u64>
    requires bundles { All (IsBundleOn rows.now unknowns.old) bundles.now }
    requires within { AreAllWithin limit unknowns.old }
    ensures value { IfSome result (λ more. (b after : Batch) (levels : List (List ℕ))
        → AreBundlesFor b levels rows.now bundles.now → AreUnknownsAfter b after unknowns.old
        → AreUnknownsAfter b (solved_by_levels levels L.step after) unknowns.new) }
    ensures within { IfSome result (λ more. AreAllWithin more unknowns.new) }
    ensures many { AreAsMany unknowns.old unknowns.new }
{
    let mut limit = limit;
    for bundle in bundles {
        if limit > NUMBER_LIMIT || !solve_bundle::<L>(bundle, rows, unknowns, limit) {
            return None;
        }
        limit += GROWTH;
    }
    Some(limit)
}

/// All rounds, after a warm start that left the unknowns at most `limit`: the early levels of the
/// first round, then nine times the levels across two rounds, and the late levels of the last
/// round. `false` where unknowns become too great.
fn rounds(
    early_bundles: &[Bundle],
    overlap_bundles: &[Bundle],
    late_bundles: &[Bundle],
    rows: &[LaneRow],
    unknowns: &mut Unknowns,
    limit: u64,
) -> bool
    requires first { All (IsBundleOn rows.now unknowns.old) early_bundles.now }
    requires across { All (IsBundleOn rows.now unknowns.old) overlap_bundles.now }
    requires last { All (IsBundleOn rows.now unknowns.old) late_bundles.now }
    requires within { AreAllWithin limit unknowns.old }
    ensures { IsTrue result → (b after : Batch) (first across last : List (List ℕ))
        → AreBundlesFor b first rows.now early_bundles.now
        → AreBundlesFor b across rows.now overlap_bundles.now
        → AreBundlesFor b last rows.now late_bundles.now
        → AreUnknownsAfter b after unknowns.old
        → AreUnknownsAfter b
        (after_overlapping_passes (ROUNDS - 1) first across last after_round after) unknowns.new }
{
    let mut limit = match solve_bundles::<Round>(early_bundles, rows, unknowns, limit) {
        Some(more) => more,
        None => return false,
    };
    for _round in 0..ROUNDS - 1 {
        match solve_bundles::<Round>(overlap_bundles, rows, unknowns, limit) {
            Some(more) => limit = more,
            None => return false,
        }
    }
    match solve_bundles::<Round>(late_bundles, rows, unknowns, limit) {
        Some(_) => true,
        None => false,
    }
}

/// Warm starting and all rounds, level by level; `false` where a number becomes too great for
/// doubles, and then the unknowns are of no use. The first `early_levels` of the levels are the
/// early ones; `overlap_bundles` are the bundles of the levels across two rounds.
#[inline(never)]
pub(crate) fn solve_unknowns(
    bundles: &[Bundle],
    early_levels: usize,
    overlap_bundles: &[Bundle],
    rows: &[LaneRow],
    unknowns: &mut Unknowns,
    limit: u64,
) -> bool
    requires bundles { All (IsBundleOn rows.now unknowns.old) bundles.now }
    requires early_levels { early_levels ≤ length bundles.now }
    requires overlap_bundles { All (IsBundleOn rows.now unknowns.old) overlap_bundles.now }
    requires within { AreAllWithin limit unknowns.old }
    ensures value { IsTrue result → (b : Batch) (levels across : List (List ℕ))
        → AreLevelsOf b levels
        → DoLateAndEarly (map pair_of b.rows) (take early_levels levels)
        (drop early_levels levels) across
        → AreBundlesFor b levels rows.now bundles.now
        → AreBundlesFor b across rows.now overlap_bundles.now
        → unknowns.old ≡ batch_unknowns b → batch_with_unknowns unknowns.new b ≡ velocities_of b }
    ensures fit { IsTrue result → (b : Batch) (levels across : List (List ℕ))
        → AreBundlesFor b levels rows.now bundles.now
        → AreBundlesFor b across rows.now overlap_bundles.now
        → unknowns.old ≡ batch_unknowns b → AreUnknownsOf b unknowns.new }
{
    match solve_bundles::<WarmStart>(bundles, rows, unknowns, limit) {
        Some(more) => rounds(
            &bundles[..early_levels],
            overlap_bundles,
            &bundles[early_levels..],
            rows,
            unknowns,
            more,
        ),
        None => false,
    }
}
