//! Scenes that are read, made body by body, and freed.

ghost use Rattle.std.specs.Prelude.{IfOk};
ghost use Rattle.pf_shapes.specs.Numbers.{checked_body};
ghost use Rattle.pf_shapes.specs.Scene.{IsTransform};
ghost use Rattle.pf_context.specs.Calls.{Pushes};

use crate::context::Context;
use crate::error::ContextError;
use crate::key::Key;
use crate::numbers::{self, Material, RawV2};
use pf_rot::{Rot, V2};
use pf_shapes::{Fixture, MAX_BODIES, Scene, SceneFault};
use std::alloc::Global;

/// Pushes a body onto a scene, and returns its number.
#[tactic(auto, unfolding(pf_shapes::specs::Numbers::checked_body))]
fn push(
    scene: &mut Scene,
    fixture: Result<Fixture, SceneFault>,
    start: Result<(V2, Rot), SceneFault>,
) -> Result<usize, ContextError>
    requires { IfOk start IsTransform }
    ensures { Pushes (checked_body fixture start) scene.old scene.new result }
{
    let fixture = fixture?;
    let (position, rotation) = start?;
    let number = scene.len();
    if number >= MAX_BODIES {
        return Err(ContextError::Scene(SceneFault::TooMany));
    }
    scene.push(fixture, position, rotation)?;
    Ok(number)
}

impl Context {
    ghost use Rattle.std.specs.Prelude.{◌≡◌, ◌↔◌, IsErrOf, None, length};
    ghost use Rattle.pf_shapes.specs.Numbers.{checked_body};
    ghost use Rattle.pf_context.specs.Context.{scene_at, without_scene};
    ghost use Rattle.pf_context.specs.Errors.{shown};
    ghost use Rattle.pf_context.specs.Calls.{AddsRead, AddsScene, CallsScene, Frees, Pushes};
    ghost use Rattle.pf_context.specs.Numbers.{box_of, circle_of, scene_of_gravity, upright_at, turned_at};

    /// Reads a scene from a text that holds nothing else.
    pub fn read_scene(&mut self, alloc: Global, text: &[u8]) -> Result<Key, ContextError>
        ensures { AddsRead text.now self.old self.new result }
    {
        let scene = Scene::read(alloc, text)?;
        self.add_scene(scene)
    }

    /// Makes a scene without bodies, of this gravity, in lengths a second squared.
    pub fn new_scene(&mut self, alloc: Global, gravity: RawV2) -> Result<Key, ContextError>
        ensures { AddsScene self.old self.new result (scene_of_gravity gravity) }
    {
        let scene = Scene::new(alloc, numbers::gravity(gravity)?);
        self.add_scene(scene)
    }

    /// Adds a scene.
    fn add_scene(&mut self, scene: Scene) -> Result<Key, ContextError>
        ensures { AddsScene self.old self.new result (Ok scene) }
    {
        match self.scenes.insert(scene) {
            Ok(key) => Ok(key),
            Err(rejection) => Err(ContextError::from(rejection.error)),
        }
    }

    /// Pushes a circle of this radius onto a scene, upright at this position, and returns its
    /// number. The first error is that of the key, of the owner, the mass, the friction, the radius
    /// and the position, and then of a body too many.
    pub fn push_circle(
        &mut self,
        scene: Key,
        material: Material,
        r: i64,
        place: RawV2,
    ) -> Result<usize, ContextError>
        ensures bad_key { IsErrOf result ContextError.BadKey ↔ (scene_at self.old scene ≡ None) }
        ensures call { CallsScene (λ error. error) self.old self.new scene result
            (Pushes (checked_body (circle_of material r) (upright_at place))) }
    {
        match self.scenes.get_mut(scene) {
            Some(scene) => push(scene, numbers::circle(material, r), numbers::upright(place)),
            None => Err(ContextError::BadKey),
        }
    }

    /// Pushes a box of these half extents onto a scene, at this position, turned into this
    /// direction, and returns its number. The errors come in the same order.
    pub fn push_box(
        &mut self,
        scene: Key,
        material: Material,
        half: RawV2,
        place: RawV2,
        direction: RawV2,
    ) -> Result<usize, ContextError>
        ensures bad_key { IsErrOf result ContextError.BadKey ↔ (scene_at self.old scene ≡ None) }
        ensures call { CallsScene (λ error. error) self.old self.new scene result
            (Pushes (checked_body (box_of material half) (turned_at place direction))) }
    {
        match self.scenes.get_mut(scene) {
            Some(scene) => push(
                scene,
                numbers::box_of(material, half),
                numbers::turned(place, direction),
            ),
            None => Err(ContextError::BadKey),
        }
    }

    /// How many bodies a scene has.
    pub fn body_count(&self, scene: Key) -> Result<usize, ContextError>
        ensures { result ≡ shown (λ s. length s.fixtures) (scene_at self.now scene) }
    {
        match self.scenes.get(scene) {
            Some(scene) => Ok(scene.len()),
            None => Err(ContextError::BadKey),
        }
    }

    /// Frees a scene. From then on its key names nothing. The peers that were made of it stay.
    /// Takes no memory.
    pub fn free_scene(&mut self, scene: Key) -> Result<(), ContextError>
        ensures bad_key { IsErrOf result ContextError.BadKey ↔ (scene_at self.old scene ≡ None) }
        ensures frees { Frees (scene_at self.old scene) (without_scene self.old scene)
            self.old self.new result }
    {
        match self.scenes.remove(scene) {
            Some(_) => Ok(()),
            None => Err(ContextError::BadKey),
        }
    }
}
