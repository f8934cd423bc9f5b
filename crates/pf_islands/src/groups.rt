//! Groups of bodies that contacts connect.

ghost use Rattle.std.specs.Prelude.{◌≡◌, length};
ghost use Rattle.pf_rows.specs.Row.{IsSide};
ghost use Rattle.pf_manifold.specs.Touches.{IsTouchOf};
ghost use Rattle.pf_islands.specs.Dealing.{group_of_sides};
ghost use Rattle.pf_islands.specs.Lone.{group_of_touch};

use crate::active::side_of;
use crate::forest::{flatten, link_all, singles};
use crate::marks::{mark_active, wake_marked};
use pf_manifold::Touch;
use pf_rows::Side;
use pf_shapes::{BodyState, Scene};
use std::alloc::{AllocError, Global};
use std::marker::Model;

/// The label of the group of a contact: that of its first dynamic body.
#[inline]
pub(crate) fn group_of_sides(labels: &[usize], first: Side, second: Side) -> usize
    requires first { IsSide (length labels.now) first }
    requires second { IsSide (length labels.now) second }
    ensures { result ≡ group_of_sides labels.now first second }
{
    match (first, second) {
        (Side::Dynamic(number), _) | (Side::Static, Side::Dynamic(number)) => labels[number],
        (Side::Static, Side::Static) => 0,
    }
}

/// The label of the group of a contact point.
#[inline]
pub(crate) fn group_of_touch(scene: &Scene, labels: &[usize], touch: &Touch) -> usize
    requires labels { length labels.now ≡ length scene.now.fixtures }
    requires touch { IsTouchOf (length labels.now) touch.now }
    ensures { result ≡ group_of_touch scene.now labels.now touch.now }
{
    let first = side_of(scene, usize::from(touch.a));
    let second = side_of(scene, usize::from(touch.b));
    group_of_sides(labels, first, second)
}

/// The groups of a scene's bodies that contacts connect, never through a static body. Contracts see
/// the label of each body's group, which is the least body of the group.
#[derive(Drop)]
pub(crate) struct Groups {
    labels: Vec<usize>,
}

impl Model for Groups {
    ghost use Rattle.std.specs.Prelude.{List, ℕ};
    ghost use Rattle.pf_islands.specs.Group.{IsGroups};

    ghost Value = { List ℕ };

    ghost view = { λ g. g.labels.items };

    ghost invariant = { λ g. IsGroups g.labels.items };
}

impl Groups {
    ghost use Rattle.std.specs.Prelude.{◌≡◌, ◌<◌, ◌≤◌, List, [], length, All, IfOk, IsOk};
    ghost use Rattle.pf_shapes.specs.Scene.{Scene};
    ghost use Rattle.pf_shapes.specs.declared.scene.TheConstants.{MAX_BODIES};
    ghost use Rattle.pf_manifold.specs.Touches.{IsTouchOf, Touch};
    ghost use Rattle.pf_islands.specs.Group.{OthersAreAlone, groups};
    ghost use Rattle.pf_islands.specs.Settled.{touches_of};
    ghost use Rattle.pf_islands.specs.Sleep.{woken_bodies};
    ghost use Rattle.pf_islands.specs.Split.{AreWoken};

    /// The groups of the scene's bodies that these contact points connect. `numbers` are those of
    /// bodies that may be in a group with others. Takes no memory where there are no bodies.
    #[inline(never)]
    pub(crate) fn new(
        alloc: Global,
        scene: &Scene,
        points: &[(usize, Touch)],
        numbers: &[usize],
    ) -> Result<Groups, AllocError>
        requires touches { All (λ m. IsTouchOf (length scene.now.fixtures) m.1) points.now }
        requires numbers { OthersAreAlone scene.now (touches_of points.now) numbers.now }
        ensures value { IfOk result (λ found. found ≡ groups scene.now (touches_of points.now)) }
        ensures no_memory { scene.now.fixtures ≡ [] → IsOk result }
    {
        let mut labels = singles(alloc, scene.fixtures().len())?;
        link_all(&mut labels, scene, points);
        flatten(&mut labels, numbers);
        Ok(Groups { labels })
    }

    /// The label of each body's group.
    pub(crate) fn labels(&self) -> &[usize]
        ensures value { result.now ≡ self.now }
        ensures few { length self.now ≤ MAX_BODIES }
        ensures labelled { All (λ label. label < length self.now) self.now }
    {
        self.labels.as_slice()
    }

    /// For the phase Activity: wakes the bodies of each group that has an awake one. `marks` are
    /// scratch space: a mark for each group, at its label. Takes no memory.
    #[inline(never)]
    pub(crate) fn wake(&self, marks: &mut [bool], bodies: &mut [BodyState])
        requires marks { length marks.old ≡ length self.now }
        requires bodies { length bodies.old ≡ length self.now }
        ensures bodies { bodies.new ≡ woken_bodies self.now bodies.old }
        ensures woken_bodies { (scene : Scene) (touches : List Touch)
            → self.now ≡ groups scene touches → AreWoken self.now bodies.new }
    {
        mark_active(marks, &self.labels, bodies);
        wake_marked(marks, &self.labels, bodies);
    }
}
