//! The islands of a tick.

ghost use Rattle.std.specs.Prelude.{◌≡◌, ◌<◌, [], not, All, IfOk, IsOk, filter, length};
ghost use Rattle.std.specs.Prelude.{slice_index_or};
ghost use Rattle.pf_manifold.specs.Touches.{IsTouchOf};
ghost use Rattle.pf_cache.specs.Manifolds.{kept_touches};
ghost use Rattle.pf_islands.specs.Group.{groups};
ghost use Rattle.pf_islands.specs.Lone.{is_dealt};
ghost use Rattle.pf_islands.specs.Flags.{ListsAwake, awake_numbers};
ghost use Rattle.pf_islands.specs.Settled.{AreSettledPoints};
ghost use Rattle.pf_islands.specs.Sleep.{woken_bodies};
ghost use Rattle.pf_islands.specs.Splitting.{AreParts, point_islands, woken_islands};

use crate::active::{Active, active_of, all_wake_none};
use crate::awake::{awake_numbers, awake_of_all};
use crate::dealing::deal;
use crate::forest::singles;
use crate::groups::Groups;
use crate::island::Island;
use crate::marks::marks_of;
use crate::sizes::row_counts;
use pf_cache::{Contact, Manifolds};
use pf_shapes::{BodyState, Scene};
use std::alloc::{AllocError, Global};

/// What becomes of awake bodies that no contact touches.
#[derive(Clone, Copy, Debug, PartialEq, Eq)]
pub enum LoneBodies {
    /// Each is an island of its own.
    AreIslands,
    /// They are listed, and are in no island.
    AreListed,
}

/// What a tick is split into.
#[derive(Debug, Drop)]
pub struct Parts {
    /// The islands, in the order of their least bodies.
    pub islands: Vec<Island>,
    /// The numbers of the awake bodies that are in none of them, in ascending order.
    pub lone_numbers: Vec<usize>,
}

/// Whether the bodies of a group with so many contacts go into an island.
#[inline]
fn is_dealt(lone: LoneBodies, count: u16) -> bool
    ensures { result ≡ is_dealt lone count }
{
    match lone {
        LoneBodies::AreIslands => true,
        LoneBodies::AreListed => count != 0,
    }
}

/// The numbers of awake bodies in two lists: of those that go into islands, and of the others.
/// `row_counts` holds at each label the number of contacts of the group.
fn parted_numbers(
    alloc: Global,
    labels: &[usize],
    numbers: &[usize],
    row_counts: &[u16],
    lone: LoneBodies,
) -> Result<(Vec<usize>, Vec<usize>), AllocError>
    requires row_counts { length row_counts.now ≡ length labels.now }
    requires labelled { All (λ label. label < length labels.now) labels.now }
    requires numbers { All (λ number. number < length labels.now) numbers.now }
    ensures dealt { IfOk result (λ parts. parts.0.items
        ≡ filter
        (λ n. is_dealt lone (slice_index_or row_counts.now (slice_index_or labels.now n 0) 0))
        numbers.now) }
    ensures lone_numbers { IfOk result (λ parts. parts.1.items
        ≡ filter
        (λ n. not (is_dealt lone (slice_index_or row_counts.now (slice_index_or labels.now n 0) 0)))
        numbers.now) }
    ensures no_memory { length numbers.now ≡ 0 → IsOk result }
{
    let mut dealt = Vec::with_capacity(alloc, numbers.len())?;
    let mut lone_numbers = Vec::with_capacity(alloc, numbers.len())?;
    for number in numbers {
        if is_dealt(lone, row_counts[labels[*number]]) {
            dealt.push_reserved(*number);
        } else {
            lone_numbers.push_reserved(*number);
        }
    }
    Ok((dealt, lone_numbers))
}

/// The islands of groups that are awake as wholes, made in the memory of the spare ones.
#[inline(never)]
fn split_settled(
    alloc: Global,
    spare: Vec<Island>,
    scene: &Scene,
    bodies: &[BodyState],
    contacts: &[Contact],
    active: &Active,
    lone: LoneBodies,
) -> Result<Parts, AllocError>
    requires bodies { length bodies.now ≡ length scene.now.fixtures }
    requires settled { AreSettledPoints scene.now bodies.now (length contacts.now)
        active.now.points.items }
    requires numbers { active.now.numbers.items ≡ awake_numbers bodies.now }
    ensures parts { IfOk result (AreParts scene.now (length bodies.now) lone
        (point_islands scene.now bodies.now active.now.points.items contacts.now)) }
    ensures no_memory { bodies.now ≡ [] → active.now.points.items ≡ [] → IsOk result }
{
    let points = active.points.as_slice();
    let numbers = active.numbers.as_slice();
    let groups = Groups::new(alloc, scene, points, numbers)?;
    let labels = groups.labels();
    let row_counts = row_counts(alloc, scene, labels, points)?;
    let (dealt, lone_numbers) = parted_numbers(alloc, labels, numbers, &row_counts, lone)?;
    let islands = deal(
        alloc, spare, scene, bodies, points, contacts, labels, &dealt, row_counts,
    )?;
    Ok(Parts {
        islands,
        lone_numbers,
    })
}

/// For the phase Activity, where a contact wakes a body: the bodies, all awake in each group that
/// has an awake one. Takes no memory where there are no bodies and no contact points.
#[inline(never)]
fn woken_bodies(
    alloc: Global,
    scene: &Scene,
    bodies: &[BodyState],
    manifolds: &Manifolds,
) -> Result<Vec<BodyState>, AllocError>
    requires bodies { length bodies.now ≡ length scene.now.fixtures }
    requires touches { All (IsTouchOf (length bodies.now)) (kept_touches manifolds.now) }
    ensures bodies { IfOk result (λ woken. woken.items
        ≡ woken_bodies (groups scene.now (kept_touches manifolds.now)) bodies.now) }
    ensures as_many { IfOk result (λ woken. length woken.items ≡ length bodies.now) }
    ensures none { bodies.now ≡ [] → IfOk result (λ woken. woken.items ≡ []) }
    ensures no_memory { bodies.now ≡ [] → kept_touches manifolds.now ≡ [] → IsOk result }
{
    let mut woken = Vec::with_capacity(alloc, bodies.len())?;
    woken.extend_from_slice(bodies)?;
    // All are set, so that `points_of` gives each contact point; then they are scratch for `wake`.
    let mut marks = marks_of(alloc, bodies.len(), true)?;
    let points = manifolds.points_of(alloc, &marks)?;
    let numbers = singles(alloc, bodies.len())?;
    let groups = Groups::new(alloc, scene, &points, &numbers)?;
    groups.wake(&mut marks, &mut woken);
    Ok(woken)
}

/// The phase Activity: the islands of a tick, as Box2D 2.x's `b2World::Solve` makes them. Each
/// group with an awake body gets an island, in the order of their least bodies. It has copies of
/// the bodies of the group, all of them awake, and the contacts that touch them. The bodies
/// themselves stay as they are. For groups without contacts `lone` says whether islands are made.
/// The groups are those of the contact points that `manifolds` holds, and the contacts are theirs.
/// The islands are made in the memory of the spare ones, whose bodies and contacts are gone. Takes
/// no memory where there are no bodies and no pairs in `manifolds`.
pub fn split(
    alloc: Global,
    spare: Vec<Island>,
    scene: &Scene,
    bodies: &[BodyState],
    manifolds: &Manifolds,
    contacts: &[Contact],
    lone: LoneBodies,
) -> Result<Parts, AllocError>
    requires bodies { length bodies.now ≡ length scene.now.fixtures }
    requires touches { All (IsTouchOf (length bodies.now)) (kept_touches manifolds.now) }
    requires contacts { length contacts.now ≡ length (kept_touches manifolds.now) }
    ensures parts { IfOk result (AreParts scene.now (length bodies.now) lone
        (woken_islands scene.now bodies.now (kept_touches manifolds.now) contacts.now)) }
    ensures no_memory { bodies.now ≡ [] → manifolds.now.pairs ≡ [] → IsOk result }
{
    let woken = woken_bodies(alloc, scene, bodies, manifolds)?;
    let bodies = woken.as_slice();
    let numbers = awake_of_all(alloc, bodies)?;
    let active = active_of(alloc, scene, bodies, manifolds, numbers)?;
    split_settled(alloc, spare, scene, bodies, contacts, &active, lone)
}

/// As [`split`], where it is known which bodies may be awake: `listed` has the number of each awake
/// body; its numbers may be in any order, and repeat. In most ticks no contact wakes a body: then
/// only simulated contacts are linked. Else all contacts are linked first, to find which bodies
/// wake. Takes no memory where there are no bodies and no contact points.
pub fn wake_and_split(
    alloc: Global,
    spare: Vec<Island>,
    scene: &Scene,
    bodies: &[BodyState],
    manifolds: &Manifolds,
    contacts: &[Contact],
    listed: &[usize],
    lone: LoneBodies,
) -> Result<Parts, AllocError>
    requires bodies { length bodies.now ≡ length scene.now.fixtures }
    requires touches { All (IsTouchOf (length bodies.now)) (kept_touches manifolds.now) }
    requires contacts { length contacts.now ≡ length (kept_touches manifolds.now) }
    requires listed { All (λ number. number < length bodies.now) listed.now }
    requires awake { ListsAwake listed.now bodies.now }
    ensures parts { IfOk result (AreParts scene.now (length bodies.now) lone
        (woken_islands scene.now bodies.now (kept_touches manifolds.now) contacts.now)) }
    ensures no_memory { bodies.now ≡ [] → kept_touches manifolds.now ≡ [] → IsOk result }
{
    let numbers = awake_numbers(alloc, bodies, listed)?;
    let active = active_of(alloc, scene, bodies, manifolds, numbers)?;
    if all_wake_none(scene, bodies, &active.points) {
        return split_settled(alloc, spare, scene, bodies, contacts, &active, lone);
    }
    split(alloc, spare, scene, bodies, manifolds, contacts, lone)
}
