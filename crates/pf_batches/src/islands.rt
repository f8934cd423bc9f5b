//! Several islands side by side as one batch: loaded into the lists of the solver, and stored back.

ghost use Rattle.std.specs.Prelude.{◌≡◌, ◌≤◌, ◌<◌, ◌+◌, ◌-◌, ◌^◌, ◌++◌, All, IfOk, IsTrue, List};
ghost use Rattle.std.specs.Prelude.{OnOk, drop, length, map};
ghost use Rattle.pf_rows.specs.Row.{IsSide, Row};
ghost use Rattle.pf_rows.specs.Small.{AreWithin, IsShort};
ghost use Rattle.pf_levels.specs.Levels.{ArePairsOf, pair_of};
ghost use Rattle.pf_bundles.specs.Unknowns.{Unknowns};
ghost use Rattle.pf_solver.specs.Alone.{batch_in};
ghost use Rattle.pf_solver.specs.Beside.{IsBatch, shifted_side};
ghost use Rattle.pf_batches.specs.Unknowns.{AreUnknownsOf, loaded_row, batch_unknowns, velocity_of};
ghost use Rattle.pf_batches.specs.Unknowns.{with_impulses, with_velocities};
ghost use Rattle.pf_batches.specs.Unknowns.{AreAllWithin};
ghost use Rattle.pf_batches.specs.Islands.{AreBatches, AreHeldBy, batch_of};
ghost use Rattle.pf_batches.specs.Islands.{island_with_first, islands_with_unknowns, pairs_behind};

use pf_bundles::{ExactImpulses, ExactVelocity, LaneRow, Unknowns};
use pf_islands::Island;
use pf_lanes::EXACT_LIMIT;
use pf_levels::RowPair;
use pf_rows::{Impulses, Row, Side};
use pf_shapes::BodyState;
use std::alloc::AllocError;

/// A side, by its place behind so many other bodies.
#[inline]
fn shifted_side(count: usize, side: Side) -> Side
    requires { IsSide (2 ^ 64 - count) side }
    ensures { result ≡ shifted_side count side }
{
    match side {
        Side::Static => Side::Static,
        Side::Dynamic(place) => Side::Dynamic(count + place),
    }
}

/// Adds the sides of the rows of an island that stands behind so many other bodies.
fn add_pairs(count: usize, island: &Island, pairs: &mut Vec<RowPair>) -> Result<(), AllocError>
    requires rows { IsBatch (batch_in island.now) }
    requires room { count + length island.now.bodies < 2 ^ 64 }
    ensures { OnOk result (pairs.new.items
        ≡ pairs.old.items ++ pairs_behind count island.now.rows) }
{
    for row in island.rows.as_slice() {
        pairs.push(RowPair {
            first: shifted_side(count, row.entry.first),
            second: shifted_side(count, row.entry.second),
        })?;
    }
    Ok(())
}

/// Loads the sides of the rows of islands side by side, and returns how many bodies there are.
pub(crate) fn load_pairs(islands: &[Island], pairs: &mut Vec<RowPair>) -> Result<usize, AllocError>
    requires { AreBatches islands.now }
    ensures count { IfOk result (λ count. count ≡ length (batch_of islands.now).bodies) }
    ensures pairs { OnOk result (pairs.new.items ≡ map pair_of (batch_of islands.now).rows) }
    ensures places { IfOk result (λ count. ArePairsOf count pairs.new.items) }
{
    pairs.clear();
    let mut count: usize = 0;
    for island in islands {
        let end = count.checked_add(island.bodies.len()).ok_or(AllocError)?;
        add_pairs(count, island, pairs)?;
        count = end;
    }
    Ok(count)
}

/// Adds rows, each as a lane holds it. Returns `false` where no lane holds one of them.
fn add_rows(rows: &[Row], lanes: &mut Vec<LaneRow>) -> Result<bool, AllocError>
    ensures { IfOk result (λ all. IsTrue all → (front : List Row)
        → AreHeldBy lanes.old.items front
        → AreHeldBy lanes.new.items (front ++ rows.now)) }
{
    for row in rows {
        match LaneRow::of(row) {
            Some(lane) => lanes.push(lane)?,
            None => return Ok(false),
        }
    }
    Ok(true)
}

/// Loads the rows of islands side by side, each as a lane holds it. Returns `false` where no lane
/// holds one of them.
pub(crate) fn load_rows(islands: &[Island], lanes: &mut Vec<LaneRow>) -> Result<bool, AllocError>
    ensures { IfOk result (λ all. IsTrue all
        → AreHeldBy lanes.new.items (batch_of islands.now).rows) }
{
    lanes.clear();
    for island in islands {
        if !add_rows(island.rows.as_slice(), lanes)? {
            return Ok(false);
        }
    }
    Ok(true)
}

/// Adds the velocities of bodies. Returns `false` where one is above `limit`, or doubles do not
/// hold a spin.
fn add_velocities(
    bodies: &[BodyState],
    limit: u64,
    unknowns: &mut Unknowns,
) -> Result<bool, AllocError>
    requires { limit ≤ EXACT_LIMIT }
    ensures value { IfOk result (λ all. IsTrue all
        → unknowns.new.velocities ≡ unknowns.old.velocities ++ map velocity_of bodies.now) }
    ensures size { IfOk result (λ all. IsTrue all
        → All (λ v. IsShort limit v.velocity) unknowns.old.velocities
        → All (λ v. IsShort limit v.velocity) unknowns.new.velocities) }
    ensures impulses { IfOk result (λ all. unknowns.new.impulses ≡ unknowns.old.impulses) }
{
    for body in bodies {
        match ExactVelocity::of(body.velocity, body.spin, limit) {
            Some(velocity) => unknowns.push_velocity(velocity)?,
            None => return Ok(false),
        }
    }
    Ok(true)
}

/// Adds the accumulated impulses of rows. Returns `false` where one is above `limit`.
fn add_impulses(rows: &[Row], limit: u64, unknowns: &mut Unknowns) -> Result<bool, AllocError>
    requires { limit ≤ EXACT_LIMIT }
    ensures value { IfOk result (λ all. IsTrue all
        → unknowns.new.impulses ≡ unknowns.old.impulses ++ map (λ r. r.entry.impulses) rows.now) }
    ensures size { IfOk result (λ all. IsTrue all
        → All (AreWithin limit) unknowns.old.impulses
        → All (AreWithin limit) unknowns.new.impulses) }
    ensures velocities { IfOk result (λ all. unknowns.new.velocities ≡ unknowns.old.velocities) }
{
    for row in rows {
        match ExactImpulses::of(&row.entry.impulses, limit) {
            Some(whole) => unknowns.push_impulses(whole)?,
            None => return Ok(false),
        }
    }
    Ok(true)
}

/// Loads the velocities and the accumulated impulses of islands side by side. Returns `false` where
/// one is above `limit`, or doubles do not hold a spin.
pub(crate) fn load_unknowns(
    islands: &[Island],
    unknowns: &mut Unknowns,
    limit: u64,
) -> Result<bool, AllocError>
    requires { limit ≤ EXACT_LIMIT }
    ensures value { IfOk result (λ all. IsTrue all
        → unknowns.new ≡ batch_unknowns (batch_of islands.now)) }
    ensures size { IfOk result (λ all. IsTrue all → AreAllWithin limit unknowns.new) }
{
    unknowns.clear();
    for island in islands {
        if !add_velocities(island.bodies.as_slice(), limit, unknowns)? {
            return Ok(false);
        }
        if !add_impulses(island.rows.as_slice(), limit, unknowns)? {
            return Ok(false);
        }
    }
    Ok(true)
}

/// Gives bodies these velocities.
fn store_velocities(bodies: &mut [BodyState], velocities: &[ExactVelocity])
    requires { length velocities.now ≡ length bodies.old }
    ensures { bodies.new ≡ with_velocities velocities.now bodies.old }
{
    for place in 0..bodies.len() {
        let whole = &velocities[place];
        let body = &mut bodies[place];
        body.velocity = whole.velocity();
        body.spin = whole.spin();
    }
}

/// Gives a row these accumulated impulses.
#[inline]
fn set_impulses(row: &mut Row, impulses: Impulses)
    ensures { row.new ≡ loaded_row impulses row.old }
{
    row.entry.impulses = impulses;
}

/// Gives rows these accumulated impulses.
fn store_impulses(rows: &mut [Row], impulses: &[ExactImpulses])
    requires { length impulses.now ≡ length rows.old }
    ensures { rows.new ≡ with_impulses impulses.now rows.old }
{
    for place in 0..rows.len() {
        set_impulses(&mut rows[place], impulses[place].impulses());
    }
}

/// Gives an island the unknowns that stand behind so many velocities and so many impulses.
fn store_behind(
    bodies: usize,
    velocities: &[ExactVelocity],
    rows: usize,
    impulses: &[ExactImpulses],
    island: &mut Island,
)
    requires velocities { bodies + length island.old.bodies ≤ length velocities.now }
    requires impulses { rows + length island.old.rows ≤ length impulses.now }
    ensures { island.new ≡ island_with_first (record {
      velocities = drop bodies velocities.now;
      impulses = drop rows impulses.now;
    }) island.old }
{
    let velocities = &velocities[bodies..];
    let impulses = &impulses[rows..];
    let states = island.bodies.as_mut_slice();
    let count = states.len();
    store_velocities(states, &velocities[..count]);
    let contacts = island.rows.as_mut_slice();
    let count = contacts.len();
    store_impulses(contacts, &impulses[..count]);
}

/// Gives islands side by side these velocities and accumulated impulses.
pub(crate) fn store_unknowns(islands: &mut [Island], unknowns: &Unknowns)
    requires { AreUnknownsOf (batch_of islands.old) unknowns.now }
    ensures { islands.new ≡ islands_with_unknowns unknowns.now islands.old }
{
    let velocities = unknowns.velocities();
    let impulses = unknowns.impulses();
    let (mut bodies, mut rows) = (0, 0);
    for island in islands.iter_mut() {
        store_behind(bodies, velocities, rows, impulses, island);
        bodies += island.bodies.len();
        rows += island.rows.len();
    }
}
