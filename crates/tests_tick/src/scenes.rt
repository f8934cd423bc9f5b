//! Scenes that are read, built and copied, and bounds of their bodies.

use pf_num::Fx;
use pf_rot::{Rot, V2};
use pf_shapes::{BodyState, Bounds, Fixture, ReadError, Scene, SceneFault, SceneReader, Shape};
use pf_text::TakeError;
use std::alloc::{AllocError, Global};
use std::test::Fail;

/// A scene of two bodies, the second static and nobody's.
const SCENE: &[u8] =
    b"# two circles\n\ngravity 0 -167772160\ncircle 3 33554432 8388608 16777216 -5 7\n\
circle - 0 0 1048576 0 0\nend\n# no more\n";

/// A box that leans.
const LEANING: &[u8] = b"gravity 0 0\nbox 4 33554432 67108864 16777216 8388608 5 -7 3 4\nend\n";

/// The scene of a text.
pub(crate) fn scene_of(alloc: Global, text: &[u8]) -> Result<Scene, ReadError> {
    Scene::read(alloc, text)
}

/// The friction, the inverse mass and the inverse inertia of a body.
fn numbers(fixture: &Fixture) -> [i64; 3] {
    [
        fixture.friction().raw(),
        fixture.inverse_mass().raw(),
        fixture.inverse_inertia().raw(),
    ]
}

/// Position and rotation of a body.
fn placement(state: &BodyState) -> [i64; 4] {
    let BodyState {
        position,
        rotation,
        ..
    } = *state;
    [
        position.x.raw(),
        position.y.raw(),
        rotation.c.raw(),
        rotation.s.raw(),
    ]
}

/// Whether a body stands still.
fn is_at_rest(state: &BodyState) -> bool {
    state.velocity == V2::ZERO && state.spin == Fx::ZERO && state.timer == 0
}

/// Whether this is the ball of the scene. Mass 2 and radius 1: inverse mass 1/2, and inverse
/// inertia 1, since a disc has half of m r r.
fn is_ball(ball: &Fixture, start: &BodyState) -> bool {
    matches!(ball.shape(), Shape::Circle { .. })
        && ball.owner() == Some(3)
        && numbers(ball) == [8_388_608, 8_388_608, 16_777_216]
        && placement(start) == [-5, 7, 16_777_216, 0]
        && is_at_rest(start)
        && start.awake
}

/// Whether this is a static body of nobody.
fn is_nobodys(floor: &Fixture, start: &BodyState) -> bool {
    floor.is_static() && floor.owner().is_none() && !start.awake && numbers(floor) == [0; 3]
}

/// Whether this is the scene of a ball and a static body.
fn is_read(scene: &Scene) -> bool {
    let ([ball, floor], [start, resting]) = (scene.fixtures(), scene.starts()) else {
        return false;
    };
    scene.len() == 2
        && !scene.is_empty()
        && scene.gravity().y.raw() == -167_772_160
        && is_ball(ball, start)
        && is_nobodys(floor, resting)
}

#[test]
fn a_ball_and_a_static_body_are_read(rt: HostRuntime) -> Result<(), Fail> {
    let scene = scene_of(rt.alloc(), SCENE)?;
    assert!(rt; is_read(&scene));
    Ok(())
}

#[test]
fn a_scene_is_built(rt: HostRuntime) -> Result<(), Fail> {
    let shape = Shape::Box {
        hx: Fx::ONE,
        hy: Fx::ONE,
    };
    let fixture = Fixture::new(shape, Fx::ONE, Fx::ZERO, Some(7));
    // A box is harder to spin than a disc.
    assert!(rt; fixture.inverse_inertia().raw() == 25_165_823);
    let mut scene = Scene::new(rt.alloc(), V2::ZERO);
    scene.push(fixture, V2::ZERO, Rot::UPRIGHT)?;
    assert!(rt; scene.len() == 1);
    Ok(())
}

/// Whether a copy of a scene is the scene.
fn is_copied(scene: &Scene) -> Result<bool, AllocError> {
    let copy = scene.try_clone()?;
    Ok(&copy == scene)
}

/// Whether the scenes of two texts differ.
fn differ(alloc: Global, text: &[u8], other: &[u8]) -> Result<bool, ReadError> {
    let scene = scene_of(alloc, text)?;
    let other = scene_of(alloc, other)?;
    Ok(scene != other)
}

#[test]
fn copies_are_equal(rt: HostRuntime) -> Result<(), Fail> {
    let scene = scene_of(rt.alloc(), LEANING)?;
    let is_copied = is_copied(&scene)?;
    assert!(rt; is_copied);
    Ok(())
}

#[test]
fn scenes_of_other_bodies_differ(rt: HostRuntime) -> Result<(), Fail> {
    let differ = differ(rt.alloc(), LEANING, SCENE)?;
    assert!(rt; differ);
    Ok(())
}

#[test]
fn no_fields_are_a_bad_line(rt: HostRuntime) {
    let refused = SceneReader::new(0).take(rt.alloc(), &[]).err();
    assert!(rt; refused == Some(TakeError::Fault(SceneFault::BadLine)));
}

/// The ends of bounds: x and y of the low one, then of the high one.
fn ends(bounds: &Bounds) -> [i64; 4] {
    let Bounds { low, high, .. } = *bounds;
    [low.x.raw(), low.y.raw(), high.x.raw(), high.y.raw()]
}

/// Whether a circle of radius 1 has these bounds, by Python's integers.
fn are_of_circle(circle: &Fixture) -> bool {
    let around = circle.bounds(&BodyState::start(circle, V2::ZERO, Rot::UPRIGHT));
    let one = 16_777_217;
    ends(&around) == [-one, -one, one, one] && around.overlaps(&around)
}

/// Whether the box that leans has these bounds, by Python's integers.
fn are_of_leaning(scene: &Scene) -> bool {
    let ([fixture], [start]) = (scene.fixtures(), scene.starts()) else {
        return false;
    };
    ends(&fixture.bounds(start)) == [-16_777_212, -18_454_946, 16_777_222, 18_454_932]
}

#[test]
fn bounds_are_a_unit_wider(rt: HostRuntime) -> Result<(), Fail> {
    let circle = Fixture::new(Shape::Circle { r: Fx::ONE }, Fx::ONE, Fx::ZERO, None);
    let scene = scene_of(rt.alloc(), LEANING)?;
    assert!(rt; are_of_circle(&circle) && are_of_leaning(&scene));
    Ok(())
}
