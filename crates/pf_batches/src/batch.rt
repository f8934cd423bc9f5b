//! Islands solved together: as one batch, level by level, four rows at a time.

ghost use Rattle.std.specs.Prelude.{◌≡◌, ◌<◌, ◌-◌, ◌^◌, ℕ, All, IfOk, IfSome, IsTrue, List, OnErr, OnOk, false, length, map};
ghost use Rattle.pf_islands.specs.Split.{IsIslandOf};
ghost use Rattle.pf_solver.specs.Alone.{island_after_rounds, island_after_tick, island_at_end, prepared_island};
ghost use Rattle.pf_levels.specs.Levels.{AreLevels, ArePairsOf, pair_of};
ghost use Rattle.pf_solver.specs.Order.{AreLevelsOf};
ghost use Rattle.pf_batches.specs.Islands.{AreBatches, IsLoaded, IsOverlapLoaded, batch_of};

use crate::islands::{load_pairs, load_rows, load_unknowns, store_unknowns};
use crate::passes::solve_unknowns;
use pf_bundles::{Bundle, LaneRow, Unknowns, Workspace, load_bundles};
use pf_islands::Island;
use pf_levels::{Level, Levels, Overlap, RowPair, WIDTH};
use pf_shapes::Scene;
use pf_solver::{finish_island, prepare_island, solve_rounds};
use std::alloc::{AllocError, Global};
use std::mem;

/// The greatest velocity along an axis, and the greatest accumulated impulse, before the rounds, in
/// raw units of 2^-24: 2^25 lengths a second.
pub const START_LIMIT: u64 = 1 << 49;

/// How many rows a level has to have on average, so that lanes pay.
const ROWS_A_LEVEL: usize = 2;

/// Rounds overlap only where each is shorter by more than one level for so many rows, since all
/// rows are loaded once more for it.
const ROWS_A_LEVEL_LESS: usize = 16;

/// Whether so many rows in so many levels fill lanes well enough.
fn lanes_pay(rows: usize, levels: usize) -> bool {
    rows > 0 && rows / ROWS_A_LEVEL >= levels
}

/// Finds the levels of the rows of islands, and returns how many bodies there are.
#[tactic(auto, using(crate::proofs::OfLevels::more_bodies))]
fn load_levels(
    islands: &[Island],
    pairs: &mut Vec<RowPair>,
    levels: &mut Levels,
) -> Result<usize, AllocError>
    requires { AreBatches islands.now }
    ensures pairs { OnOk result (pairs.new.items ≡ map pair_of (batch_of islands.now).rows) }
    ensures levels { OnOk result (AreLevelsOf (batch_of islands.now) levels.new) }
    ensures bodies { IfOk result (λ bodies. ArePairsOf bodies pairs.new.items) }
    ensures sides { OnOk result (ArePairsOf (2 ^ 64 - 1) pairs.new.items) }
{
    let bodies = load_pairs(islands, pairs)?;
    levels.update(pairs, bodies)?;
    Ok(bodies)
}

/// Loads the rows and the unknowns of islands, and makes the bundles of their levels; `false` where
/// doubles do not hold a number, or one is too great.
fn load_bundles_of(
    islands: &[Island],
    pairs: &[RowPair],
    levels: &Levels,
    rows: &mut Vec<LaneRow>,
    unknowns: &mut Unknowns,
    bundles: &mut Vec<Bundle>,
) -> Result<bool, AllocError>
    requires pairs { pairs.now ≡ map pair_of (batch_of islands.now).rows }
    requires sides { ArePairsOf (2 ^ 64 - 1) pairs.now }
    requires levels { AreLevelsOf (batch_of islands.now) levels.now }
    ensures { IfOk result (λ loaded. IsTrue loaded → IsLoaded (batch_of islands.now)
        levels.now rows.new.items unknowns.new bundles.new.items) }
{
    if !load_rows(islands, rows)? || !load_unknowns(islands, unknowns, START_LIMIT)? {
        return Ok(false);
    }
    load_bundles(bundles, levels.levels(), pairs, rows)?;
    Ok(true)
}

/// Whether so many levels across two rounds are so many fewer than those of one round that it pays
/// to load the rows once more.
fn overlap_pays(rows: usize, levels: usize, across: usize) -> bool {
    across < levels && levels - across > rows / ROWS_A_LEVEL_LESS
}

/// Finds the levels across two rounds, and makes their bundles. Returns how many levels are early
/// ones; `None` where the levels have so little room that it does not pay.
fn load_overlap(
    pairs: &[RowPair],
    bodies: usize,
    levels: &[Level],
    rows: &[LaneRow],
    overlap: &mut Overlap,
    bundles: &mut Vec<Bundle>,
) -> Result<Option<usize>, AllocError>
    requires bodies { ArePairsOf bodies pairs.now }
    requires sides { ArePairsOf (2 ^ 64 - 1) pairs.now }
    requires levels { AreLevels pairs.now levels.now }
    requires rows { length rows.now ≡ length pairs.now }
    ensures { IfOk result (λ found. IfSome found (λ early_levels. IsOverlapLoaded pairs.now rows.now
        early_levels levels.now overlap.new bundles.new.items)) }
{
    let count = levels.len();
    if !overlap_pays(pairs.len(), count, pairs.len() / WIDTH) {
        return Ok(None);
    }
    // Two fifths of the levels: `docs/SPEED.md` says why.
    let early_levels = count / 2 - count / 10;
    overlap.update(pairs, bodies, levels, early_levels)?;
    if !overlap_pays(pairs.len(), count, overlap.levels().len()) {
        return Ok(None);
    }
    load_bundles(bundles, overlap.levels(), pairs, rows)?;
    Ok(Some(early_levels))
}

/// The rounds of islands whose rows and unknowns are loaded; `false`, and the islands as they were,
/// where an unknown becomes too great.
fn solve_loaded(
    rows: &[LaneRow],
    bundles: &[Bundle],
    early_levels: usize,
    overlap_bundles: &[Bundle],
    unknowns: &mut Unknowns,
    islands: &mut [Island],
) -> bool
    requires batches { AreBatches islands.old }
    requires loaded { (levels across : List (List ℕ))
        × IsLoaded (batch_of islands.old) levels rows.now unknowns.old bundles.now
        × IsOverlapLoaded (map pair_of (batch_of islands.old).rows) rows.now early_levels levels
        across overlap_bundles.now }
    ensures solved { IsTrue result → islands.new ≡ map island_after_rounds islands.old }
    ensures left { result ≡ false → islands.new ≡ islands.old }
{
    let done = solve_unknowns(
        bundles,
        early_levels,
        overlap_bundles,
        rows,
        unknowns,
        START_LIMIT,
    );
    if done {
        store_unknowns(islands, unknowns);
    }
    done
}

/// The unknowns of a workspace, which has none at first.
fn unknowns_in(
    unknowns: &mut Option<Unknowns>,
    alloc: Global,
) -> Result<&mut Unknowns, AllocError> {
    if unknowns.is_none() {
        *unknowns = Some(Unknowns::new(alloc)?);
    }
    unknowns.as_mut().ok_or(AllocError)
}

/// The rounds of islands in lanes, by the memory of a workspace; `false`, and the islands as they
/// were, where lanes do not pay, or a number is too great for doubles.
fn solve_in_lanes(workspace: &mut Workspace, islands: &mut [Island]) -> Result<bool, AllocError>
    requires { AreBatches islands.old }
    ensures solved { IfOk result (λ done.
        IsTrue done → islands.new ≡ map island_after_rounds islands.old) }
    ensures left { IfOk result (λ done. done ≡ false → islands.new ≡ islands.old) }
    ensures err { OnErr result (islands.new ≡ islands.old) }
{
    let Workspace {
        pairs,
        levels,
        overlap,
        rows,
        bundles,
        overlap_bundles,
        unknowns,
    } = workspace;
    let unknowns = unknowns_in(unknowns, *pairs.allocator())?;
    let bodies = load_levels(islands, pairs, levels)?;
    if !lanes_pay(pairs.len(), levels.levels().len())
        || !load_bundles_of(islands, pairs, levels, rows, unknowns, bundles)?
    {
        return Ok(false);
    }
    match load_overlap(
        pairs,
        bodies,
        levels.levels(),
        rows,
        overlap,
        overlap_bundles,
    )? {
        Some(early_levels) => Ok(solve_loaded(
            rows,
            bundles,
            early_levels,
            overlap_bundles,
            unknowns,
            islands,
        )),
        None => Ok(solve_loaded(rows, bundles, 0, bundles, unknowns, islands)),
    }
}

/// Takes the workspace of an island, which has an empty one from then on.
fn take_workspace(island: &mut Island) -> Workspace
    ensures { island.new ≡ island.old }
{
    let none = Workspace::new(*island.rows.allocator());
    mem::replace(&mut island.workspace, none)
}

/// Gives an island a workspace.
fn put_workspace(island: &mut Island, workspace: Workspace)
    ensures { island.new ≡ island.old }
{
    island.workspace = workspace;
}

/// The least number of a body of an island.
fn least_number(island: &Island) -> usize {
    match island.numbers.first() {
        Some(number) => *number,
        None => 0,
    }
}

/// The place of the island whose workspace is used, of islands in the order of their bodies or in
/// the opposite one: that of the body of the least number. So there is one workspace for each list
/// of islands.
fn workspace_place(islands: &[Island]) -> usize
    requires { 0 < length islands.now }
    ensures { result < length islands.now }
{
    let last = islands.len() - 1;
    if least_number(&islands[last]) < least_number(&islands[0]) {
        last
    } else {
        0
    }
}

/// The rounds of islands together, in lanes, by the workspace of one of them; `false`, and the
/// islands as they were, where lanes do not pay, a number is too great for doubles, or there is no
/// memory.
fn solve_rounds_together(islands: &mut [Island]) -> bool
    requires { AreBatches islands.old }
    ensures solved { IsTrue result → islands.new ≡ map island_after_rounds islands.old }
    ensures left { result ≡ false → islands.new ≡ islands.old }
{
    if islands.is_empty() {
        return false;
    }
    let place = workspace_place(islands);
    let mut workspace = take_workspace(&mut islands[place]);
    let done = solve_in_lanes(&mut workspace, islands).unwrap_or(false);
    if place < islands.len() {
        put_workspace(&mut islands[place], workspace);
    }
    done
}

/// The rounds of islands, each alone.
fn solve_rounds_alone(islands: &mut [Island])
    requires { AreBatches islands.old }
    ensures { islands.new ≡ map island_after_rounds islands.old }
{
    for island in islands.iter_mut() {
        solve_rounds(island);
    }
}

/// The rounds of islands: together where that works, and else each alone.
fn solve_all_rounds(islands: &mut [Island])
    requires { AreBatches islands.old }
    ensures { islands.new ≡ map island_after_rounds islands.old }
{
    if !solve_rounds_together(islands) {
        solve_rounds_alone(islands);
    }
}

/// The phases of islands before their rounds.
fn prepare_all(scene: &Scene, islands: &mut [Island])
    requires { All (IsIslandOf scene.now) islands.old }
    ensures value { islands.new ≡ map (prepared_island scene.now) islands.old }
    ensures rows { AreBatches islands.new }
{
    for island in islands.iter_mut() {
        prepare_island(scene, island);
    }
}

/// The phases of islands after their rounds.
fn finish_all(islands: &mut [Island])
    ensures { islands.new ≡ map island_at_end islands.old }
{
    for island in islands.iter_mut() {
        finish_island(island);
    }
}

/// Takes islands through a tick of 1/64 s, each as if it were alone: their rounds together in
/// lanes, where that pays and there is memory for it, and else one island after the other.
pub fn solve_islands(scene: &Scene, islands: &mut [Island])
    requires { All (IsIslandOf scene.now) islands.old }
    ensures { islands.new ≡ map (island_after_tick scene.now) islands.old }
{
    prepare_all(scene, islands);
    solve_all_rounds(islands);
    finish_all(islands);
}
