//! Scenes.

use crate::body::BodyState;
use crate::fixture::Fixture;
use pf_rot::{Rot, V2};
use std::alloc::{AllocError, Global};
use std::marker::Model;

/// The most bodies of a scene.
pub const MAX_BODIES: usize = 1024;

/// The greatest part of gravity: 1,024 lengths a second squared, in units of 2^-24.
pub const MAX_GRAVITY: i64 = 1 << 34;

/// The greatest part of a start's position: 2^20 lengths, in units of 2^-24.
pub const MAX_POSITION: i64 = 1 << 44;

/// What a simulation starts from: gravity, and the bodies by their numbers, each with its fixture
/// and its start.
#[derive(Debug, Drop)]
pub struct Scene {
    gravity: V2,
    fixtures: Vec<Fixture>,
    starts: Vec<BodyState>,
}

impl Model for Scene {
    ghost use Rattle.pf_shapes.specs.Scene.{Scene, IsScene};

    ghost Value = { Scene };

    ghost view = { λ s.
        record { gravity = s.gravity; fixtures = s.fixtures.items; starts = s.starts.items } };

    ghost invariant = { λ s. IsScene
        (record { gravity = s.gravity; fixtures = s.fixtures.items; starts = s.starts.items }) };
}

impl Scene {
    ghost use Rattle.std.specs.Prelude.{◌≡◌, ◌<◌, ◌↔◌, [], length, IsTrue, OnOk, OnErr, IfOk, IsOk};
    ghost use Rattle.pf_shapes.specs.Scene.{IsScene, IsGravity, IsTransform, empty_scene, with_body};
    ghost use Rattle.pf_shapes.specs.Same.{same_scene};

    /// A scene without bodies. The parts of gravity are at most `MAX_GRAVITY` in magnitude.
    pub fn new(alloc: Global, gravity: V2) -> Scene
        requires { IsGravity gravity }
        ensures { result ≡ empty_scene gravity }
    {
        Scene {
            gravity,
            fixtures: Vec::new(alloc),
            starts: Vec::new(alloc),
        }
    }

    /// How many bodies the scene has.
    pub fn len(&self) -> usize
        ensures { result ≡ length self.now.fixtures }
    {
        self.fixtures.len()
    }

    /// Whether the scene has no body.
    pub fn is_empty(&self) -> bool
        ensures { IsTrue result ↔ (self.now.fixtures ≡ []) }
    {
        self.fixtures.is_empty()
    }

    /// The gravity, in lengths a second squared.
    pub fn gravity(&self) -> V2
        ensures { result ≡ self.now.gravity }
    {
        self.gravity
    }

    /// The fixture of each body, by its number.
    pub fn fixtures(&self) -> &[Fixture]
        ensures value { result.now ≡ self.now.fixtures }
        ensures scene { IsScene self.now }
    {
        self.fixtures.as_slice()
    }

    /// The start of each body, by its number.
    pub fn starts(&self) -> &[BodyState]
        ensures value { result.now ≡ self.now.starts }
        ensures scene { IsScene self.now }
    {
        self.starts.as_slice()
    }

    /// Adds a body with the next number, which starts at rest. The parts of its position are at
    /// most `MAX_POSITION` in magnitude, and those of its rotation at most 1. Out of memory, the
    /// scene stays as it was.
    #[tactic(auto, using(crate::proofs::Limits::starts_push))]
    pub fn push(&mut self, fixture: Fixture, position: V2, rotation: Rot) -> Result<(), AllocError>
        requires room { length self.old.fixtures < MAX_BODIES }
        requires transform { IsTransform (position, rotation) }
        ensures ok { OnOk result (self.new ≡ with_body self.old fixture position rotation) }
        ensures err { OnErr result (self.new ≡ self.old) }
    {
        let start = BodyState::start(&fixture, position, rotation);
        self.starts.reserve(1)?;
        self.fixtures.push(fixture)?;
        self.starts.push_reserved(start);
        Ok(())
    }

    /// Whether the scenes are equal, part by part.
    #[tactic(auto, unfolding(crate::specs::Same::same_scene))]
    fn is_same(&self, other: &Scene) -> bool
        ensures { result ≡ same_scene self.now other.now }
    {
        let same_bodies = self.fixtures.as_slice() == other.fixtures.as_slice()
            && self.starts.as_slice() == other.starts.as_slice();
        same_bodies && self.gravity == other.gravity
    }

    /// A copy, which takes time and memory for all bodies. A scene without bodies takes no memory,
    /// and its copy can't fail.
    pub fn try_clone(&self) -> Result<Scene, AllocError>
        ensures value { IfOk result (λ copy. copy ≡ self.now) }
        ensures no_memory { self.now.fixtures ≡ [] → IsOk result }
    {
        if self.is_empty() {
            return Ok(Scene::new(*self.fixtures.allocator(), self.gravity));
        }
        Ok(Scene {
            gravity: self.gravity,
            fixtures: self.fixtures.clone()?,
            starts: self.starts.clone()?,
        })
    }
}

impl PartialEq for Scene {
    ghost use Rattle.std.specs.Prelude.{◌≡◌, ◌↔◌, IsTrue};
    ghost use Rattle.std.specs.Cmp.{partial_equiv_from_equiv};
    ghost use Rattle.pf_shapes.specs.Same.{same_scene};
    ghost use Rattle.pf_shapes.specs.SameLaws.{scenes_equivalent};

    ghost eq = { same_scene };

    ghost laws = { partial_equiv_from_equiv scenes_equivalent };

    /// Whether the scenes are equal: gravity, and all bodies with their starts.
    fn eq(&self, other: &Scene) -> bool
        ensures value { result ≡ same_scene self.now other.now }
        ensures equal { IsTrue result ↔ (self.now ≡ other.now) }
    {
        self.is_same(other)
    }
}

impl Eq for Scene {
    ghost use Rattle.pf_shapes.specs.SameLaws.{scenes_equivalent};

    ghost laws = { scenes_equivalent };
}
