//! A scene read line by line.

ghost use Rattle.std.specs.Prelude.{◌≡◌, ◌<◌, ◌≤◌, length, map, IfOk};
ghost use Rattle.pf_shapes.specs.Scene.{IsTransform};
ghost use Rattle.pf_shapes.specs.SceneText.{Reads, scene_in_progress, field_count, with_read_body, with_body_line};

use crate::fault::SceneFault;
use crate::fixture::Fixture;
use crate::scene::{MAX_BODIES, Scene};
use crate::scene_text::{read_body, read_gravity};
use crate::words::{BodyWord, SceneWord, word};
use pf_rot::{Rot, V2};
use pf_text::TakeError;
use std::alloc::Global;
use std::marker::Model;

/// A scene that is read line by line: `gravity` first and once, then the bodies, then `end`.
#[derive(Debug, Drop)]
pub struct SceneReader {
    max_bodies: usize,
    scene: Option<Scene>,
}

impl Model for SceneReader {
    ghost use Rattle.std.specs.Prelude.{◌≤◌};
    ghost use Rattle.pf_shapes.specs.SceneReader.{SceneReader};

    ghost Value = { SceneReader };

    ghost view = { λ r. record { max_bodies = r.max_bodies; scene = r.scene } };

    ghost invariant = { λ r. r.max_bodies ≤ 1024 };
}

/// How far a scene was read.
#[derive(Debug, Drop)]
pub enum Progress {
    /// More is to come.
    More(SceneReader),
    /// The line was `end`.
    Ended(Scene),
}

impl SceneReader {
    ghost use Rattle.std.specs.Prelude.{◌≡◌, ◌≤◌, None, Err, map, true};
    ghost use Rattle.pf_text.specs.declared.driver.TakeError.TheVariants.{Memory};
    ghost use Rattle.pf_shapes.specs.SceneText.{Reads, gravity_line, body_line, end_line, is_body_line, line_of};

    /// A reader of a scene of at most so many bodies, before its first line.
    pub fn new(max_bodies: usize) -> SceneReader
        requires { max_bodies ≤ MAX_BODIES }
        ensures { result ≡ record { max_bodies = max_bodies; scene = None } }
    {
        SceneReader {
            max_bodies,
            scene: None,
        }
    }

    /// Takes the fields of the next line that is not skipped. Only the line of a body takes memory.
    #[tactic(auto, unfolding(crate::specs::SceneText::line_of))]
    pub fn take(self, alloc: Global, fields: &[&[u8]]) -> Result<Progress, TakeError<SceneFault>>
        ensures read { Reads result (line_of self (map (λ field. field.now) fields.now)) }
        ensures memory { result ≡ Err Memory
            → is_body_line (map (λ field. field.now) fields.now) ≡ true }
    {
        let [first, arguments @ ..] = fields else {
            return Err(TakeError::Fault(SceneFault::BadLine));
        };
        match word(first) {
            Some(SceneWord::Gravity) => {
                self.take_gravity(alloc, arguments)
                    .map_err(TakeError::Fault)
            }
            Some(SceneWord::Body(word)) => self.take_body(word, arguments),
            Some(SceneWord::End) => self.take_end(arguments).map_err(TakeError::Fault),
            None => Err(TakeError::Fault(SceneFault::BadLine)),
        }
    }

    /// `gravity GX GY`.
    #[tactic(auto, unfolding(crate::specs::SceneText::gravity_line))]
    fn take_gravity(self, alloc: Global, arguments: &[&[u8]]) -> Result<Progress, SceneFault>
        ensures { result ≡ gravity_line self.max_bodies self.scene
            (map (λ field. field.now) arguments.now) }
    {
        match (self.scene, arguments) {
            (None, [x, y]) => {
                let gravity = read_gravity(x, y)?;
                Ok(scene_in_progress(self.max_bodies, Scene::new(alloc, gravity)))
            }
            _ => Err(SceneFault::BadLine),
        }
    }

    /// The line of a body.
    fn take_body(
        self,
        word: BodyWord,
        arguments: &[&[u8]],
    ) -> Result<Progress, TakeError<SceneFault>>
        ensures { Reads result (body_line self.max_bodies self.scene word
            (map (λ field. field.now) arguments.now)) }
    {
        let max_bodies = self.max_bodies;
        match self.scene {
            Some(scene) => with_body_line(max_bodies, scene, word, arguments),
            None => Err(TakeError::Fault(SceneFault::BadLine)),
        }
    }

    /// `end`.
    #[tactic(auto, unfolding(crate::specs::SceneText::end_line))]
    fn take_end(self, arguments: &[&[u8]]) -> Result<Progress, SceneFault>
        ensures { result ≡ end_line self.scene (map (λ field. field.now) arguments.now) }
    {
        match (self.scene, arguments) {
            (Some(scene), []) => Ok(Progress::Ended(scene)),
            _ => Err(SceneFault::BadLine),
        }
    }
}

/// How many fields a body has behind its word.
fn field_count(word: BodyWord) -> usize
    ensures { result ≡ field_count word }
{
    match word {
        BodyWord::Circle => 6,
        BodyWord::Box => 9,
    }
}

/// The scene with the body of a line, where it may have one body more.
fn with_body_line(
    max_bodies: usize,
    scene: Scene,
    word: BodyWord,
    arguments: &[&[u8]],
) -> Result<Progress, TakeError<SceneFault>>
    requires { max_bodies ≤ MAX_BODIES }
    ensures { Reads result
        (with_body_line max_bodies scene word (map (λ field. field.now) arguments.now)) }
{
    if arguments.len() != field_count(word) {
        return Err(TakeError::Fault(SceneFault::BadLine));
    }
    if scene.len() >= max_bodies {
        return Err(TakeError::Fault(SceneFault::TooMany));
    }
    with_read_body(max_bodies, scene, read_body(word, arguments))
}

/// The scene with the body that was read, or the error of that body.
fn with_read_body(
    max_bodies: usize,
    scene: Scene,
    body: Result<(Fixture, (V2, Rot)), SceneFault>,
) -> Result<Progress, TakeError<SceneFault>>
    requires limit { max_bodies ≤ MAX_BODIES }
    requires room { length scene.fixtures < max_bodies }
    requires transform { IfOk body (λ body. IsTransform body.1) }
    ensures { Reads result (with_read_body max_bodies scene body) }
{
    let (fixture, (position, rotation)) = body.map_err(TakeError::Fault)?;
    let mut scene = scene;
    scene.push(fixture, position, rotation)?;
    Ok(scene_in_progress(max_bodies, scene))
}

/// The scene so far, of which more is to come.
fn scene_in_progress(max_bodies: usize, scene: Scene) -> Progress
    requires { max_bodies ≤ MAX_BODIES }
    ensures { result ≡ scene_in_progress max_bodies scene }
{
    Progress::More(SceneReader {
        max_bodies,
        scene: Some(scene),
    })
}
