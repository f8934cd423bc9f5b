//! How the islands of a tick are made, and filled with bodies and contacts.

ghost use Rattle.std.specs.Prelude.{◌≡◌, ◌<◌, ◌≤◌, ◌+◌, ◌++◌, ◌∷◌, [], All};
ghost use Rattle.std.specs.Prelude.{IfOk, IsOk, OnOk, length, map, slice_index_or, slice_set, take};
ghost use Rattle.pf_shapes.specs.declared.scene.TheConstants.{MAX_BODIES};
ghost use Rattle.pf_rows.specs.Row.{IsSide, new_row};
ghost use Rattle.pf_manifold.specs.Touches.{IsTouchOf};
ghost use Rattle.pf_islands.specs.Group.{groups};
ghost use Rattle.pf_islands.specs.Island.{group_members};
ghost use Rattle.pf_islands.specs.Lone.{AreSomeAwake, only_awake};
ghost use Rattle.pf_islands.specs.Rows.{row_of};
ghost use Rattle.pf_islands.specs.Flags.{awake_numbers};
ghost use Rattle.pf_islands.specs.Settled.{AreSettledPoints, touches_of};
ghost use Rattle.pf_islands.specs.Splitting.{point_islands};
ghost use Rattle.pf_islands.specs.Split.{AreWoken, IsIslandOf, active_labels, island_of, no_island};
ghost use Rattle.pf_islands.specs.Dealing.{AreIslandPlaces, ArePlaces, HasIsland, group_of_row};
ghost use Rattle.pf_islands.specs.Dealing.{placed_row, placed_side, with_island_body, with_row};

use crate::active::side_of;
use crate::groups::group_of_sides;
use crate::island::Island;
use crate::sizes::zeros;
use pf_cache::Contact;
use pf_manifold::Touch;
use pf_rows::{Entry, Impulses, Side};
use pf_shapes::{BodyState, Scene};
use std::alloc::{AllocError, Global};

/// Clears the island at a place, with memory for so many contacts; or adds such an island, if
/// `place` is the length of the list.
fn clear_at(
    alloc: Global,
    islands: &mut Vec<Island>,
    place: usize,
    rows: usize,
) -> Result<(), AllocError>
    requires { place ≤ length islands.old.items }
    ensures cleared { OnOk result
        (take (place + 1) islands.new.items ≡ take place islands.old.items ++ no_island ∷ []) }
    ensures within { OnOk result (place < length islands.new.items) }
{
    if place == islands.len() {
        islands.push(Island::new(alloc))?;
    }
    let island = &mut islands[place];
    island.clear(rows)
}

/// An empty island for each group that becomes one, in the order of their labels, made in the
/// memory of the spare islands. `row_counts` holds at each label the number of its contacts; it is
/// returned with the place of its island there instead. `numbers` are those of the bodies of these
/// groups; in the clauses all other bodies count as asleep.
fn empty_islands(
    alloc: Global,
    spare: Vec<Island>,
    labels: &[usize],
    bodies: &[BodyState],
    numbers: &[usize],
    row_counts: Vec<u16>,
) -> Result<(Vec<Island>, Vec<u16>), AllocError>
    requires few { length labels.now ≤ MAX_BODIES }
    requires as_many_bodies { length (only_awake numbers.now bodies.now) ≡ length labels.now }
    requires numbers { numbers.now ≡ awake_numbers (only_awake numbers.now bodies.now) }
    requires row_counts { length row_counts.items ≡ length labels.now }
    ensures islands { IfOk result
        (λ made. made.0.items ≡ map (λ label. no_island)
        (active_labels labels.now (only_awake numbers.now bodies.now))) }
    ensures island_places { IfOk result
        (λ made. AreIslandPlaces labels.now (only_awake numbers.now bodies.now) made.1.items) }
    ensures as_many { IfOk result (λ made. length made.1.items ≡ length labels.now) }
    ensures no_memory { length labels.now ≡ 0 → IsOk result }
{
    let mut islands = spare;
    let mut island_places = row_counts;
    let mut count = 0;
    for number in numbers {
        let number = *number;
        if labels[number] == number {
            let row_count = usize::from(island_places[number]);
            clear_at(alloc, &mut islands, count, row_count)?;
            island_places[number] = count as u16;
            count += 1;
        }
    }
    islands.truncate(count);
    Ok((islands, island_places))
}

/// Adds a body to the island at a place, and returns its own place there.
#[inline]
fn add_body(
    islands: &mut [Island],
    island_place: usize,
    number: usize,
    body: &BodyState,
) -> Result<usize, AllocError>
    requires { island_place < length islands.old }
    ensures place { IfOk result
        (λ place. place ≡ length (slice_index_or islands.old island_place no_island).numbers) }
    ensures added { OnOk result (islands.new ≡ slice_set islands.old island_place
        (with_island_body number body.now (slice_index_or islands.old island_place no_island))) }
{
    let island = &mut islands[island_place];
    let place = island.numbers.len();
    island.add_body(number, body)?;
    Ok(place)
}

/// Adds the row of an entry to the island at a place.
#[inline]
fn add_row(islands: &mut [Island], island_place: usize, entry: Entry) -> Result<(), AllocError>
    requires { island_place < length islands.old }
    ensures { OnOk result (islands.new ≡ slice_set islands.old island_place
        (with_row (new_row entry) (slice_index_or islands.old island_place no_island))) }
{
    let island = &mut islands[island_place];
    island.add_row(entry)
}

/// Adds each body of these numbers to the island of its group, and notes its place there. In the
/// clauses all other bodies count as asleep.
fn deal_bodies(
    islands: &mut [Island],
    places: &mut [u16],
    island_places: &[u16],
    labels: &[usize],
    numbers: &[usize],
    bodies: &[BodyState],
) -> Result<(), AllocError>
    requires few { length labels.now ≤ MAX_BODIES }
    requires bodies { length bodies.now ≡ length labels.now }
    requires numbers { AreSomeAwake (length labels.now) numbers.now bodies.now }
    requires places { length places.old ≡ length labels.now }
    requires island_places { AreIslandPlaces labels.now (only_awake numbers.now bodies.now)
        island_places.now }
    requires as_many { length island_places.now ≡ length labels.now }
    requires labelled { All (λ label. label < length labels.now) labels.now }
    requires woken_bodies { AreWoken labels.now (only_awake numbers.now bodies.now) }
    requires empty { islands.old ≡ map (λ label. no_island)
        (active_labels labels.now (only_awake numbers.now bodies.now)) }
    ensures islands { OnOk result (islands.new
        ≡ map (λ label.
        island_of (only_awake numbers.now bodies.now) [] (group_members labels.now label))
        (active_labels labels.now (only_awake numbers.now bodies.now))) }
    ensures places { OnOk result
        (ArePlaces labels.now (only_awake numbers.now bodies.now) places.new) }
    ensures no_memory { (only_awake numbers.now bodies.now) ≡ [] → IsOk result }
{
    for number in numbers {
        let number = *number;
        let island_place = usize::from(island_places[labels[number]]);
        places[number] = add_body(islands, island_place, number, &bodies[number])? as u16;
    }
    Ok(())
}

/// The side of a body, by its place in its island.
#[inline]
fn placed_side(places: &[u16], side: Side) -> Side
    requires { IsSide (length places.now) side }
    ensures { result ≡ placed_side places.now side }
{
    match side {
        Side::Static => Side::Static,
        Side::Dynamic(number) => Side::Dynamic(usize::from(places[number])),
    }
}

/// Adds the row of a contact point and its contact to the island of their group. `place` is the
/// place of both among all contacts, and `places` has the place of each body in its island.
/// Impulses are copied by field, so that the compiler makes the row where it is stored.
#[inline]
#[tactic(auto, unfolding(crate::specs::Rows::row_of))]
fn deal_row(
    islands: &mut [Island],
    island_places: &[u16],
    places: &[u16],
    labels: &[usize],
    scene: &Scene,
    place: usize,
    touch: &Touch,
    contact: &Contact,
) -> Result<(), AllocError>
    requires touch { IsTouchOf (length scene.now.fixtures) touch.now }
    requires island_places { length island_places.now ≡ length labels.now }
    requires places { length places.now ≡ length labels.now }
    requires island { HasIsland labels.now island_places.now (length islands.old)
        (row_of scene.now place touch.now contact.now) }
    ensures { OnOk result (
        let row = row_of scene.now place touch.now contact.now in
        let island_place = slice_index_or island_places.now (group_of_row labels.now row) 0 in
        islands.new ≡ slice_set islands.old island_place
        (with_row (placed_row places.now row)
        (slice_index_or islands.old island_place no_island))) }
{
    let first = side_of(scene, usize::from(touch.a));
    let second = side_of(scene, usize::from(touch.b));
    let island_place = usize::from(island_places[group_of_sides(labels, first, second)]);
    let entry = Entry {
        touch: *touch,
        impulses: Impulses {
            normal: contact.impulses.normal,
            tangent: contact.impulses.tangent,
        },
        place,
        first: placed_side(places, first),
        second: placed_side(places, second),
    };
    add_row(islands, island_place, entry)
}

/// The islands of the groups of the bodies of these numbers, made in the memory of the spare
/// islands. In the clauses all other bodies count as asleep. `row_counts` holds at each label the
/// number of contacts of the group, and `points` are those of the contacts, each with its place.
pub(crate) fn deal(
    alloc: Global,
    spare: Vec<Island>,
    scene: &Scene,
    bodies: &[BodyState],
    points: &[(usize, Touch)],
    contacts: &[Contact],
    labels: &[usize],
    numbers: &[usize],
    row_counts: Vec<u16>,
) -> Result<Vec<Island>, AllocError>
    requires few { length labels.now ≤ MAX_BODIES }
    requires bodies { length bodies.now ≡ length scene.now.fixtures }
    requires settled { AreSettledPoints scene.now (only_awake numbers.now bodies.now)
        (length contacts.now) points.now }
    requires labelled { labels.now ≡ groups scene.now (touches_of points.now) }
    requires numbers { AreSomeAwake (length scene.now.fixtures) numbers.now bodies.now }
    requires row_counts { length row_counts.items ≡ length labels.now }
    ensures value { IfOk result (λ found. found.items
        ≡ point_islands scene.now (only_awake numbers.now bodies.now) points.now contacts.now) }
    ensures fit { IfOk result (λ found. All (IsIslandOf scene.now) found.items) }
    ensures no_memory { (only_awake numbers.now bodies.now) ≡ [] → points.now ≡ [] → IsOk result }
{
    let (mut made, island_places) = empty_islands(
        alloc, spare, labels, bodies, numbers, row_counts,
    )?;
    let mut body_places = zeros(alloc, labels.len())?;
    deal_bodies(
        &mut made,
        &mut body_places,
        &island_places,
        labels,
        numbers,
        bodies,
    )?;
    for point in points {
        let place = point.0;
        let touch = &point.1;
        let contact = &contacts[place];
        deal_row(
            &mut made,
            &island_places,
            &body_places,
            labels,
            scene,
            place,
            touch,
            contact,
        )?;
    }
    Ok(made)
}
