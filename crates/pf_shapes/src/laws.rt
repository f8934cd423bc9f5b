//! Laws of scenes' lines, inertias, bounds and overlaps. These functions compute nothing: their
//! clauses are the statements.

ghost use Rattle.std.specs.Prelude.{◌≡◌, ℕ, ◌<◌, ℤ, pos, ◌^◌, ◌≤ℤ◌, ◌<ℤ◌, ◌↔◌, Bool, true, List, Ok, Some, None, length};
ghost use Rattle.pf_text.specs.Numbers.{whole_of};
ghost use Rattle.pf_num.specs.Fx.{IsRaw};
ghost use Rattle.pf_rot.specs.Vector.{V2, add};
ghost use Rattle.pf_rot.specs.Rotation.{Rot, rotate};
ghost use Rattle.pf_rot.specs.Laws.{IsAtMostOne};
ghost use Rattle.pf_shapes.specs.declared.fixture.Shape.{Shape};
ghost use Rattle.pf_shapes.specs.declared.fault.SceneFault.{SceneFault};
ghost use Rattle.pf_shapes.specs.Numbers.{checked_number};
ghost use Rattle.pf_shapes.specs.Fixture.{Fixture, IsFixture, IsSize, HasSize, IsDynamicMass, inertia, inverse_mass, inverse_inertia};
ghost use Rattle.pf_shapes.specs.Body.{BodyState};
ghost use Rattle.pf_shapes.specs.Bounds.{Bounds, IsOrdered, overlaps, shape_bounds, fixture_bounds};
ghost use Rattle.pf_shapes.specs.Laws.{Covers, IsInBox, IsInCircle, IsInBounds, IsInner, exact_position, bounds_to_fine_units};
ghost use Rattle.pf_shapes.specs.SceneEncoding.{body_fields, gravity_fields, start_rotation, IsDirection};
ghost use Rattle.pf_shapes.specs.Scene.{Scene, IsGravity, IsPosition, empty_scene, with_body};
ghost use Rattle.pf_shapes.specs.SceneText.{line_of, field_number, scene_in_progress};

use crate::fixture::{MAX_FRICTION, MAX_MASS, MAX_SIZE, MIN_MASS, MIN_SIZE, PLAYERS, Shape};
use crate::numbers::MAX_DIRECTION;
use crate::scene::{MAX_BODIES, MAX_GRAVITY, MAX_POSITION};

/// The fields of gravity, and those of a body for which the scene has room, parse as that, where
/// their numbers are in range.
pub fn scene_lines_are_read()
    ensures gravity { (limit : ℕ) (g : V2) → IsGravity g
        → line_of (record { max_bodies = limit; scene = None }) (gravity_fields g)
        ≡ Ok (scene_in_progress limit (empty_scene g)) }
    ensures body { (limit : ℕ) (s : Scene) (f : Fixture) (position : V2) (to : Rot)
        → length s.fixtures < limit
        → IsFixture f → IsPosition position → IsDirection to
        → line_of (record { max_bodies = limit; scene = Some s }) (body_fields f position to)
        ≡ Ok (scene_in_progress limit (with_body s f position (start_rotation f.shape to))) }
{}

/// That a field's number is cut at 2^56 changes no check: all that is cut is out of range.
pub fn long_numbers_are_out_of_range()
    ensures { (outside : SceneFault) (low high : ℤ) (field : List ℕ) → IsRaw low → IsRaw high
        → checked_number outside low high (field_number field)
        ≡ checked_number outside low high (whole_of field) }
{}

/// The inertia of a dynamic body of an allowed size is above 0, and no body of a lesser mass and
/// the same shape has a greater one. Its inverse mass is above 0; its inverse inertia rounds to 0
/// exactly where the inertia is 2^25 or more.
pub fn inertias_are_positive()
    ensures positive { (shape : Shape) (mass : ℤ) → HasSize shape → IsDynamicMass mass
        → pos 0 <ℤ inertia shape mass }
    ensures monotone { (shape : Shape) (mass greater : ℤ) → HasSize shape → mass ≤ℤ greater
        → inertia shape mass ≤ℤ inertia shape greater }
    ensures inverse_mass { (f : Fixture) → IsDynamicMass f.mass → pos 0 <ℤ inverse_mass f }
    ensures inverse_inertia { (f : Fixture) → HasSize f.shape → IsDynamicMass f.mass
        → ((inverse_inertia f ≡ pos 0) ↔ (pos (2 ^ 49) ≤ℤ inertia f.shape f.mass)) }
{}

/// Overlapping is symmetric.
#[tactic(auto, unfolding(crate::specs::Bounds::overlaps))]
pub fn overlapping_is_symmetric()
    ensures { (a b : Bounds) → overlaps a b ≡ overlaps b a }
{}

/// Bounds with a common position overlap. Bounds that overlap have a common position, where no
/// lower bound is above the upper bound.
pub fn bounds_that_share_a_position_overlap()
    ensures shared { (a b : Bounds) (p : V2) → IsInBounds a p → IsInBounds b p
        → overlaps a b ≡ true }
    ensures found { (a b : Bounds) → IsOrdered a → IsOrdered b → overlaps a b ≡ true
        → (p : V2) × IsInBounds a p × IsInBounds b p }
{}

/// The bounds of a box contain each position of the box: as the program transforms it, and in exact
/// numbers too, for allowed sizes, rotations whose cosine and sine are at most 1, and positions up
/// to 2^54. The exact numbers are in units of 2^-48.
pub fn boxes_stay_in_their_bounds()
    ensures computed { (hx hy : ℤ) (position : V2) (rotation : Rot) (is_static : Bool) (p : V2)
        → IsInBox (record { x = hx; y = hy }) p
        → IsInBounds (shape_bounds (Shape.Box hx hy) position rotation is_static)
        (add position (rotate rotation p)) }
    ensures exact { (hx hy : ℤ) (position : V2) (rotation : Rot) (is_static : Bool) (p : V2)
        → IsSize hx → IsSize hy → IsAtMostOne rotation → IsInner position
        → IsInBox (record { x = hx; y = hy }) p
        → IsInBounds
        (bounds_to_fine_units (shape_bounds (Shape.Box hx hy) position rotation is_static))
        (exact_position position rotation p) }
{}

/// The bounds of a circle contain each position of the circle, in exact numbers.
pub fn circles_stay_in_their_bounds()
    ensures { (r : ℤ) (position : V2) (rotation : Rot) (is_static : Bool) (p : V2)
        → pos 0 ≤ℤ r → IsRaw r → IsRaw p.x → IsRaw p.y → IsInCircle r position p
        → IsInBounds (shape_bounds (Shape.Circle r) position rotation is_static) p }
{}

/// Two bodies that cover one position, a box as the program transforms its positions, have bounds
/// that overlap. So bodies whose bounds don't overlap share no position.
pub fn bodies_that_share_a_position_overlap()
    ensures { (f g : Fixture) (a b : BodyState) (p : V2) → Covers f.shape a p → Covers g.shape b p
        → overlaps (fixture_bounds f a) (fixture_bounds g b) ≡ true }
{}

/// The limits of a scene, in raw units.
pub fn named_limits()
    ensures sizes { (MIN_SIZE ≡ pos (2 ^ 20)) × (MAX_SIZE ≡ pos (2 ^ 34)) }
    ensures masses { (MIN_MASS ≡ pos (2 ^ 20)) × (MAX_MASS ≡ pos (2 ^ 34)) }
    ensures friction { MAX_FRICTION ≡ pos (2 ^ 26) }
    ensures gravity { MAX_GRAVITY ≡ pos (2 ^ 34) }
    ensures position { MAX_POSITION ≡ pos (2 ^ 44) }
    ensures direction { MAX_DIRECTION ≡ pos (2 ^ 24) }
    ensures counts { (MAX_BODIES ≡ 1024) × (PLAYERS ≡ 8) }
{}
