//! Tasks of geometry that are measured: contact points of two bodies, and pairs of bodies whose
//! bounds overlap.

ghost use Rattle.std.specs.Prelude.{◌≤◌, ◌<◌};
ghost use Rattle.pf_rot.specs.Laws.{IsAtMostOne};
ghost use Rattle.pf_shapes.specs.Fixture.{HasSize};
ghost use Rattle.pf_shapes.specs.Scene.{IsPosition};

use crate::chain::units;
use pf_broad::pairs;
use pf_manifold::{ContactPoint, Manifold, PlacedShape, collide};
use pf_num::Fx;
use pf_rot::{Rot, V2};
use pf_shapes::{Fixture, MAX_BODIES, Scene, Shape};
use std::alloc::{AllocError, Global};

/// A task that is repeated.
#[derive(Clone, Copy, Debug, PartialEq, Eq)]
pub enum Task {
    /// The contact point of two circles is computed.
    Circles,
    /// The contact point of a box and a circle is computed.
    BoxCircle,
    /// The contact points of two boxes are computed.
    Boxes,
    /// The pairs of a field of bodies are found.
    Pairs,
}

impl Task {
    ghost use Rattle.std.specs.Prelude.{◌≡◌, IfSome};
    ghost use Rattle.pf_bench.specs.declared.geometry.Task.{Task};
    ghost use Rattle.pf_bench.specs.Tasks.{geometry_word};

    /// The task of this word.
    pub fn parse(word: &str) -> Option<Task>
        ensures known { (task : Task) → word.now ≡ geometry_word task → result ≡ Some task }
        ensures value { IfSome result (λ task. word.now ≡ geometry_word task) }
    {
        match word {
            "circles" => Some(Task::Circles),
            "box-circle" => Some(Task::BoxCircle),
            "boxes" => Some(Task::Boxes),
            "pairs" => Some(Task::Pairs),
            _ => None,
        }
    }
}

/// A circle of the radius 1.
fn small_circle() -> Shape
    ensures { HasSize result }
{
    Shape::Circle { r: Fx::ONE }
}

/// A box of the half extents 1 and 1/2.
fn small_box() -> Shape
    ensures { HasSize result }
{
    Shape::Box {
        hx: Fx::ONE,
        hy: units(1 << 23),
    }
}

/// The rotation of index i: upright, a quarter, (0.8, 0.6) or (0.6, -0.8).
#[inline]
fn rotation_at(i: u64) -> Rot
    ensures { IsAtMostOne result }
{
    let (c, s) = match i % 4 {
        0 => (Fx::ONE, Fx::ZERO),
        1 => (Fx::ZERO, Fx::ONE),
        2 => (units(13_421_773), units(10_066_330)),
        _ => (units(10_066_330), units(-13_421_773)),
    };
    Rot { c, s }
}

/// A coordinate of the position of index i, from -2 to 2.
#[inline]
fn scattered_coordinate(i: u64, factor: u64) -> Fx
    requires { factor < 65536 }
{
    let part = ((i & 0xffff) * factor) & 0xffff;
    units((part as i64 - 32_768) * 1024)
}

/// The sum of all numbers of a point.
#[inline]
fn point_sum(point: ContactPoint) -> i64 {
    i64::from(point.feature)
        .wrapping_add(point.position.x.raw())
        .wrapping_add(point.position.y.raw())
        .wrapping_add(point.normal.x.raw())
        .wrapping_add(point.normal.y.raw())
        .wrapping_add(point.separation.raw())
}

/// The sum of all numbers of a manifold's points.
#[inline]
fn manifold_sum(manifold: Manifold) -> i64 {
    match manifold {
        Manifold::Apart => 0,
        Manifold::One(point) => point_sum(point),
        Manifold::Two(first, second) => point_sum(first).wrapping_add(point_sum(second)),
    }
}

/// The sum over the contact points of `a` at the origin and `b` at so many positions around it.
fn points_sum(a: &Shape, b: &Shape, count: u64) -> i64 {
    let a = PlacedShape {
        shape: a,
        position: V2::ZERO,
        rotation: rotation_at(2),
    };
    let mut sum: i64 = 0;
    for i in 0..count {
        let position = V2 {
            x: scattered_coordinate(i, 40_503),
            y: scattered_coordinate(i, 7_919),
        };
        let b = PlacedShape {
            shape: b,
            position,
            rotation: rotation_at(i),
        };
        sum = sum.wrapping_add(manifold_sum(collide(&a, &b)));
    }
    sum
}

/// A fixture of this shape, of mass 1 or static.
fn fixture_of(shape: Shape, is_static: bool) -> Fixture
    requires { HasSize shape }
{
    let mass = if is_static { Fx::ZERO } else { Fx::ONE };
    Fixture::new(shape, mass, Fx::ZERO, None)
}

/// A position on a grid of 1.75 that is 32 wide.
fn grid_position(i: u64) -> V2
    requires { i < 1024 }
    ensures { IsPosition result }
{
    let step = (7 << 24) / 4;
    V2 {
        x: units((i % 32) as i64 * step),
        y: units((i / 32) as i64 * step),
    }
}

/// A scene of so many bodies, circles and boxes in turn, every eighth of them static.
fn field_of_bodies(alloc: Global, size: u64) -> Result<Scene, AllocError>
    requires { size ≤ 1024 }
{
    let mut scene = Scene::new(alloc, V2::ZERO);
    for i in 0..size {
        let shape = if i % 2 == 0 {
            small_circle()
        } else {
            small_box()
        };
        let body = fixture_of(shape, i % 8 == 0);
        scene.push(body, grid_position(i), rotation_at(i))?;
    }
    Ok(scene)
}

/// The number of pairs in a field of so many bodies, computed and summed so many times.
fn pair_counts(alloc: Global, count: u64, size: u64) -> Result<i64, AllocError>
    requires { size ≤ 1024 }
{
    let scene = field_of_bodies(alloc, size)?;
    let mut sum: i64 = 0;
    for _ in 0..count {
        let found = pairs(alloc, &scene, scene.starts())?;
        sum = sum.wrapping_add(found.len() as i64);
    }
    Ok(sum)
}

/// Repeats the task, and sums the results in 64 bits. It is `None` for more bodies than a scene can
/// have.
pub fn sum(alloc: Global, task: Task, count: u64, size: u64) -> Result<Option<i64>, AllocError> {
    Ok(match task {
        Task::Circles => Some(points_sum(&small_circle(), &small_circle(), count)),
        Task::BoxCircle => Some(points_sum(&small_box(), &small_circle(), count)),
        Task::Boxes => Some(points_sum(&small_box(), &small_box(), count)),
        Task::Pairs if size <= MAX_BODIES as u64 => Some(pair_counts(alloc, count, size)?),
        Task::Pairs => None,
    })
}
