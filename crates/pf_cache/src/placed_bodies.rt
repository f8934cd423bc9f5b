//! The bodies of the last tick as they stood.

ghost use Rattle.std.specs.Prelude.{◌≡◌, All, IfOk, length, replicate, true};
ghost use Rattle.pf_shapes.specs.Bounds.{IsOrdered, fixture_bounds};
ghost use Rattle.pf_broad.specs.Pairs.{all_bounds};
ghost use Rattle.pf_broad.specs.Partners.{AreBodies};
ghost use Rattle.pf_cache.specs.Manifolds.{placed_shapes, same_placed_shape, shape_of_body};
ghost use Rattle.pf_cache.specs.PlacedBodies.{AreBoundsOf, HaveBounds, HaveStayed, PlacedBodies};
ghost use Rattle.pf_cache.specs.Slots.{unmoved_flags};

use crate::kept_shape::{KeptShape, placed_shapes, unmoved_flags};
use pf_broad::all_bounds;
use pf_shapes::{BodyState, Bounds, Fixture, Scene};
use std::alloc::{AllocError, Global};
use std::marker::Model;

/// The shapes of all bodies as they stood, and in a second list their bounds, as the broad phase
/// takes them. Contracts see both lists.
#[derive(Debug, Drop)]
pub struct PlacedBodies {
    shapes: Vec<KeptShape>,
    bounds: Vec<Bounds>,
}

impl Model for PlacedBodies {
    ghost use Rattle.pf_cache.specs.PlacedBodies.{HaveBounds, PlacedBodies};

    ghost Value = { PlacedBodies };

    ghost view = { λ p. record { shapes = p.shapes.items; bounds = p.bounds.items } };

    ghost invariant = { λ p. HaveBounds p.shapes.items p.bounds.items };
}

/// Brings the shape and the bounds of a body up to date. They stay if its shape, position and
/// rotation are the same, and it is still static or still dynamic. Returns whether it is unmoved.
#[inline]
fn refresh_body(
    shape: &mut KeptShape,
    bounds: &mut Bounds,
    fixture: &Fixture,
    body: &BodyState,
) -> bool
    requires { AreBoundsOf shape.old bounds.old }
    ensures unmoved { result ≡ same_placed_shape shape.old (shape_of_body fixture.now body.now) }
    ensures shape { shape.new ≡ shape_of_body fixture.now body.now }
    ensures bounds { bounds.new ≡ fixture_bounds fixture.now body.now }
    ensures ordered { IsOrdered bounds.new }
{
    let is_unmoved = shape.is_of(fixture, body);
    if is_unmoved && bounds.is_static == fixture.is_static() {
        return true;
    }
    *shape = KeptShape::of(fixture, body);
    *bounds = fixture.bounds(body);
    is_unmoved
}

/// Brings the shapes and the bounds of these bodies up to date, all others stand as they stood.
/// Clears the flag of each that moved.
#[inline(never)]
fn refresh_bodies(
    shapes: &mut [KeptShape],
    bounds: &mut [Bounds],
    unmoved: &mut [bool],
    fixtures: &[Fixture],
    bodies: &[BodyState],
    dirty: &[usize],
)
    requires fixtures { length fixtures.now ≡ length shapes.old }
    requires bodies { length bodies.now ≡ length shapes.old }
    requires bounds { HaveBounds shapes.old bounds.old }
    requires flags { unmoved.old ≡ replicate (length shapes.old) true }
    requires dirty { AreBodies bounds.old dirty.now }
    requires others { let placed : PlacedBodies =
        record { shapes = shapes.old; bounds = bounds.old } in
        HaveStayed dirty.now placed fixtures.now bodies.now }
    ensures shapes { shapes.new ≡ placed_shapes fixtures.now bodies.now }
    ensures bounds { bounds.new ≡ all_bounds fixtures.now bodies.now }
    ensures ordered { All IsOrdered bounds.new }
    ensures unmoved { unmoved.new
        ≡ unmoved_flags shapes.old (placed_shapes fixtures.now bodies.now) }
{
    for number in dirty {
        let number = *number;
        let is_unmoved = refresh_body(
            &mut shapes[number],
            &mut bounds[number],
            &fixtures[number],
            &bodies[number],
        );
        unmoved[number] = unmoved[number] & is_unmoved;
    }
}

/// So many flags, all of them set.
fn set_flags(alloc: Global, len: usize) -> Result<Vec<bool>, AllocError>
    ensures { IfOk result (λ flags. flags.items ≡ replicate len true) }
{
    let mut flags = Vec::with_capacity(alloc, len)?;
    flags.resize(len, true)?;
    Ok(flags)
}

impl PlacedBodies {
    ghost use Rattle.std.specs.Prelude.{◌≡◌, ◌<◌, ◌≤◌, All, IfOk, length};
    ghost use Rattle.pf_shapes.specs.Bounds.{IsOrdered};
    ghost use Rattle.pf_shapes.specs.declared.scene.TheConstants.{MAX_BODIES};
    ghost use Rattle.pf_cache.specs.Manifolds.{placed_shapes};
    ghost use Rattle.pf_cache.specs.PlacedBodies.{HaveStayed, none_placed, placed_bodies};
    ghost use Rattle.pf_cache.specs.Slots.{unmoved_flags};

    /// Of no bodies. Takes no memory.
    pub fn new(alloc: Global) -> PlacedBodies
        ensures { result ≡ none_placed }
    {
        PlacedBodies {
            shapes: Vec::new(alloc),
            bounds: Vec::new(alloc),
        }
    }

    /// The shapes of the bodies.
    #[inline]
    pub fn shapes(&self) -> &[KeptShape]
        ensures value { result.now ≡ self.now.shapes }
        ensures bounds { length self.now.bounds ≡ length self.now.shapes }
    {
        self.shapes.as_slice()
    }

    /// The bounds of the bodies.
    #[inline]
    pub fn bounds(&self) -> &[Bounds]
        ensures value { result.now ≡ self.now.bounds }
        ensures ordered { All IsOrdered result.now }
    {
        self.bounds.as_slice()
    }

    /// All bodies of a scene as they stand.
    fn of(alloc: Global, scene: &Scene, bodies: &[BodyState]) -> Result<PlacedBodies, AllocError>
        requires { length bodies.now ≡ length scene.now.fixtures }
        ensures { IfOk result
            (λ placed. placed ≡ placed_bodies scene.now.fixtures bodies.now) }
    {
        let shapes = placed_shapes(alloc, scene.fixtures(), bodies)?;
        let bounds = all_bounds(alloc, scene, bodies)?;
        Ok(PlacedBodies { shapes, bounds })
    }

    /// All bodies of a scene as they stand, in the lists of the old ones if these are as many; and
    /// for each whether it is unmoved. Where they are as many, only bodies of `dirty` are compared:
    /// all others stand as they stood.
    pub fn update(
        self,
        alloc: Global,
        scene: &Scene,
        bodies: &[BodyState],
        dirty: &[usize],
    ) -> Result<(PlacedBodies, Vec<bool>), AllocError>
        requires bodies { length bodies.now ≡ length scene.now.fixtures }
        requires dirty { All (λ number. number < length bodies.now) dirty.now }
        requires others { HaveStayed dirty.now self scene.now.fixtures bodies.now }
        ensures placed { IfOk result
            (λ found. found.0 ≡ placed_bodies scene.now.fixtures bodies.now) }
        ensures unmoved { IfOk result (λ found. found.1.items
            ≡ unmoved_flags self.shapes (placed_shapes scene.now.fixtures bodies.now)) }
        ensures few { length bodies.now ≤ MAX_BODIES }
    {
        let fixtures = scene.fixtures();
        if self.shapes.len() != bodies.len() {
            let placed = PlacedBodies::of(alloc, scene, bodies)?;
            let unmoved = unmoved_flags(alloc, &self.shapes, placed.shapes())?;
            return Ok((placed, unmoved));
        }
        let mut unmoved = set_flags(alloc, bodies.len())?;
        let mut shapes = self.shapes;
        let mut bounds = self.bounds;
        refresh_bodies(
            &mut shapes,
            &mut bounds,
            &mut unmoved,
            fixtures,
            bodies,
            dirty,
        );
        Ok((PlacedBodies { shapes, bounds }, unmoved))
    }
}
