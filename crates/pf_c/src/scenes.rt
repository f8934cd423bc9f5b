//! Scenes: read, made body by body, and freed.

ghost use Rattle.std.specs.Prelude.{◌≡◌, ⊤};
ghost use Rattle.pf_shapes.specs.Numbers.{checked_body};
ghost use Rattle.pf_context.specs.Context.{scene_at, without_scene};
ghost use Rattle.pf_context.specs.Calls.{AddsRead, AddsScene, CallsScene, Frees, Pushes};
ghost use Rattle.pf_context.specs.Numbers.{box_of, circle_of, scene_of_gravity, turned_at, upright_at};
ghost use Rattle.pf_c.specs.Calls.{Answers, Tells};
ghost use Rattle.pf_c.specs.Scenes.{invalid_line, material_of};

use crate::answers::{end_code, tell, tell_as};
use crate::held::PfContext;
use pf_context::{ContextError, Key, Material, RawV2};
use std::alloc::Global;

/// What a body is beside its shape. Numbers are raw, in units of 2^-24.
#[derive(Clone, Copy, Debug, PartialEq, Eq)]
#[repr(C)]
pub struct PfMaterial {
    /// The mass: 0 of a static body, or from 2^20 to 2^34.
    pub mass: i64,
    /// The coefficient of friction, from 0 to 2^26.
    pub friction: i64,
    /// The player who may move the body, below 8; [`PF_NOBODY`] where nobody may.
    pub owner: u8,
}

/// The owner of a body that no player may move.
pub const PF_NOBODY: u8 = 255;

/// The material of a body.
fn material(material: PfMaterial) -> Material
    ensures { result ≡ material_of material }
{
    let owner = if material.owner == PF_NOBODY {
        None
    } else {
        Some(material.owner)
    };
    Material {
        owner,
        mass: material.mass,
        friction: material.friction,
    }
}

/// Reads a scene from a text, and tells its key. Where a line is invalid, tells its number.
#[unsafe(no_mangle)]
pub extern "C" fn pf_scene_read(
    alloc: Global,
    context: &mut PfContext,
    text: &[u8],
    scene: &mut Key,
    line: &mut u64,
) -> u32
    ensures { Answers (λ before after answer. AddsRead text.now before after answer)
        (λ answer. Tells (λ key. key) scene.old scene.new answer
        × (line.new ≡ invalid_line line.old answer))
        context.old.handle.value context.new.handle.value result
        ((scene.new ≡ scene.old) × (line.new ≡ line.old)) }
{
    let answer = context.call(alloc, |inside| inside.read_scene(alloc, text));
    if let Some(Err(ContextError::Line(number, _))) = answer {
        *line = number;
    }
    tell(answer, scene)
}

/// Makes a scene without bodies, of this gravity, and tells its key.
#[unsafe(no_mangle)]
pub extern "C" fn pf_scene_new(
    alloc: Global,
    context: &mut PfContext,
    gravity: RawV2,
    scene: &mut Key,
) -> u32
    ensures { Answers
        (λ before after answer. AddsScene before after answer (scene_of_gravity gravity))
        (Tells (λ key. key) scene.old scene.new)
        context.old.handle.value context.new.handle.value result (scene.new ≡ scene.old) }
{
    tell(
        context.call(alloc, |inside| inside.new_scene(alloc, gravity)),
        scene,
    )
}

/// Pushes a circle of this radius onto a scene, upright at this position, and tells its number.
#[unsafe(no_mangle)]
pub extern "C" fn pf_scene_add_circle(
    alloc: Global,
    context: &mut PfContext,
    scene: Key,
    of: PfMaterial,
    radius: i64,
    position: RawV2,
    body: &mut u64,
) -> u32
    ensures { Answers (λ before after answer.
        CallsScene (λ error. error) before after scene answer (Pushes
        (checked_body (circle_of (material_of of) radius) (upright_at position))))
        (Tells (λ number. number) body.old body.new)
        context.old.handle.value context.new.handle.value result (body.new ≡ body.old) }
{
    let material = material(of);
    let answer = context.call(
        alloc,
        |inside| inside.push_circle(scene, material, radius, position),
    );
    tell_as(answer, body, |number| number as u64)
}

/// Pushes a box of these half extents onto a scene, at this position, turned into this direction,
/// and tells its number.
#[unsafe(no_mangle)]
pub extern "C" fn pf_scene_add_box(
    alloc: Global,
    context: &mut PfContext,
    scene: Key,
    of: PfMaterial,
    half: RawV2,
    position: RawV2,
    direction: RawV2,
    body: &mut u64,
) -> u32
    ensures { Answers (λ before after answer.
        CallsScene (λ error. error) before after scene answer (Pushes
        (checked_body (box_of (material_of of) half) (turned_at position direction))))
        (Tells (λ number. number) body.old body.new)
        context.old.handle.value context.new.handle.value result (body.new ≡ body.old) }
{
    let material = material(of);
    let answer = context.call(alloc, |inside| {
        inside.push_box(scene, material, half, position, direction)
    });
    tell_as(answer, body, |number| number as u64)
}

/// Frees a scene. The peers that were made of it stay.
#[unsafe(no_mangle)]
pub extern "C" fn pf_scene_free(alloc: Global, context: &mut PfContext, scene: Key) -> u32
    ensures { Answers (λ before after answer.
        Frees (scene_at before scene) (without_scene before scene) before after answer)
        (λ answer. ⊤)
        context.old.handle.value context.new.handle.value result ⊤ }
{
    end_code(&context.call(alloc, |inside| inside.free_scene(scene)))
}
