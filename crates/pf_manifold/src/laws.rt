//! Laws of contact points. These functions compute nothing: their clauses are the statements.

ghost use Rattle.std.specs.Prelude.{◌≡◌, ◌≢◌, ◌+◌, ◌<◌, ◌≤◌, ◌⊎◌, ◌↔◌, ℤ, pos, ◌+ℤ◌, ◌*ℤ◌, ◌≤ℤ◌, ◌<ℤ◌, true, false, [], length, All, IsSome};
ghost use Rattle.std.specs.Int.RustNames.{unsigned_abs};
ghost use Rattle.pf_num.specs.Fx.{one, IsRaw};
ghost use Rattle.pf_rot.specs.Vector.{V2, neg};
ghost use Rattle.pf_rot.specs.Rotation.{Rot, upright, unrotate};
ghost use Rattle.pf_shapes.specs.declared.fixture.Shape.TheVariants.{Circle, Box};
ghost use Rattle.pf_shapes.specs.Fixture.{IsSize, HasSize};
ghost use Rattle.pf_shapes.specs.Laws.{IsInBox, distance_squared, square};
ghost use Rattle.pf_manifold.specs.declared.face.Face.{Face};
ghost use Rattle.pf_manifold.specs.PlacedShape.{PlacedShape, OrientedBox};
ghost use Rattle.pf_manifold.specs.declared.incident.Mark.{Mark};
ghost use Rattle.pf_manifold.specs.declared.separation.Axis.{Axis};
ghost use Rattle.pf_manifold.specs.Face.{face_number, front_part, outward_normal};
ghost use Rattle.pf_manifold.specs.Separation.{relative_tolerance, absolute_tolerance, threshold};
ghost use Rattle.pf_manifold.specs.Reference.{Reference};
ghost use Rattle.pf_manifold.specs.Circles.{collide_circles};
ghost use Rattle.pf_manifold.specs.BoxCircle.{closest_point, face_distance, closest_face};
ghost use Rattle.pf_manifold.specs.Incident.{ClipVertex, Segment, inward_normal, incident_edge};
ghost use Rattle.pf_manifold.specs.Clip.{crossing, clip_low, clip_high, clip};
ghost use Rattle.pf_manifold.specs.Boxes.{collide_boxes};
ghost use Rattle.pf_manifold.specs.Collide.{collide};
ghost use Rattle.pf_manifold.specs.Key.{IsKey, Key, rank};
ghost use Rattle.pf_manifold.specs.Laws.{HaveAscendingFeatures, HaveDifferentFeatures, IsBefore, IsMirrored, IsTouching};
ghost use Rattle.pf_manifold.specs.GeometryLaws.{IsClosest, HasEndsWithin, HasEndsBelow, HasEndsAbove, boxes_have_gap, UprightBoxesOverlap, boxes_separation, extent_along, boxes_best_axis, IsBetween, IsClipped, IsInnerVertex, IsNearLine, IsRegionFeature};

use crate::incident::Mark;
use crate::separation::Axis;

/// Two bodies have at most two contact points, in ascending order of features, which are different
/// and in their ranges: 0 of circles, 128 to 143 but 132 of a box and a circle, 0 to 127 of boxes.
pub fn features_ascend()
    ensures few { (a b : PlacedShape) → length (collide a b) ≤ 2 }
    ensures ascending { (a b : PlacedShape) → HaveAscendingFeatures (collide a b) }
    ensures different { (a b : PlacedShape) → HaveDifferentFeatures (collide a b) }
    ensures circles { (a b : PlacedShape) (ra rb : ℤ) → a.shape ≡ Circle ra → b.shape ≡ Circle rb
        → All (λ p. p.feature ≡ 0) (collide a b) }
    ensures box_and_circle { (a b : PlacedShape) (hx hy r : ℤ)
        → a.shape ≡ Box hx hy → b.shape ≡ Circle r
        → All (λ p. IsRegionFeature p.feature) (collide a b)
        × All (λ p. IsRegionFeature p.feature) (collide b a) }
    ensures boxes { (a b : PlacedShape) (hx hy kx ky : ℤ)
        → a.shape ≡ Box hx hy → b.shape ≡ Box kx ky
        → All (λ p. p.feature < 128) (collide a b) }
{}

/// Two circles with different centres, and a box and a circle, have in the other order the same
/// separation and the opposite normal.
pub fn circles_mirror()
    ensures circles { (a b : PlacedShape) (ra rb : ℤ)
        → a.shape ≡ Circle ra → b.shape ≡ Circle rb → a.position ≢ b.position
        → IsMirrored (collide a b) (collide b a) }
    ensures box_and_circle { (a b : PlacedShape) (hx hy r : ℤ)
        → a.shape ≡ Box hx hy → b.shape ≡ Circle r
        → IsMirrored (collide a b) (collide b a) }
{}

/// Bodies of allowed sizes have no contact point with a separation above 0.
pub fn points_touch()
    ensures { (a b : PlacedShape) → HasSize a.shape → HasSize b.shape
        → All IsTouching (collide a b) }
{}

/// The closest point of a box is in the box, and no position in the box is closer, by exact
/// distances; a position in the box is its own closest point. No face is closer than the closest
/// face, and of equally close ones it is the first.
pub fn closest_points_are_closest()
    ensures point { (half d : V2) → pos 0 ≤ℤ half.x → pos 0 ≤ℤ half.y
        → IsClosest half d (closest_point half d) }
    ensures itself { (half d : V2) → IsInBox half d → closest_point half d ≡ d }
    ensures face { (half d : V2) (face : Face)
        → face_distance half d (closest_face half d) ≤ℤ face_distance half d face }
    ensures earliest { (half d : V2) (face : Face)
        → face_distance half d face ≡ face_distance half d (closest_face half d)
        → face_number (closest_face half d) ≤ face_number face }
{}

/// A clipped edge is within the width of the face, an edge within it stays as it is, and nothing is
/// left exactly where both ends are below the width, or both above it.
pub fn clipped_edges_lie_within()
    ensures within { (s t : Segment) (side : ℤ) → pos 0 ≤ℤ side → clip s side ≡ Some t
        → HasEndsWithin side t }
    ensures whole { (s : Segment) (side : ℤ) → HasEndsWithin side s → clip s side ≡ Some s }
    ensures nothing { (s : Segment) (side : ℤ) → pos 0 ≤ℤ side
        → ((clip s side ≡ None) ↔ (HasEndsBelow side s ⊎ HasEndsAbove side s)) }
{}

/// Clipping a segment at a limit adds no vertex but a crossing, where the limit is between the
/// sides of both ends. The crossing is on the line through both ends: its side coordinate is the
/// limit, and its front coordinate is between those of the ends, and that of the line up to
/// rounding, once to a raw unit and once as a fraction of 2^-24. Where the limit is the side of an
/// end, it is that end.
pub fn crossings_lie_on_the_line()
    ensures low { (s t : Segment) (limit : ℤ) → clip_low s limit ≡ Some t
        → IsClipped s t limit Mark.CutLow }
    ensures high { (s t : Segment) (limit : ℤ) → clip_high s limit ≡ Some t
        → IsClipped s t limit Mark.CutHigh }
    ensures side { (first second : ClipVertex) (limit : ℤ) (mark : Mark)
        → (crossing first second limit mark).side ≡ limit }
    ensures between { (first second : ClipVertex) (limit : ℤ) (mark : Mark)
        → IsRaw first.front → IsRaw second.front → IsBetween first.side second.side limit
        → IsBetween first.front second.front (crossing first second limit mark).front }
    ensures line { (first second : ClipVertex) (limit : ℤ) (mark : Mark)
        → IsInnerVertex first → IsInnerVertex second → IsBetween first.side second.side limit
        → IsNearLine first second limit (crossing first second limit mark).front }
    ensures first { (first second : ClipVertex) (mark : Mark) → IsRaw first.front
        → (crossing first second first.side mark).front ≡ first.front }
    ensures second { (first second : ClipVertex) (mark : Mark)
        → IsInnerVertex first → IsInnerVertex second → first.side ≢ second.side
        → (crossing first second second.side mark).front ≡ second.front }
{}

/// The best axis of two boxes of allowed sizes without a separating axis is one of greatest
/// separation, up to Box2D-Lite's tolerances: along each axis the separation is at most 0.95 of the
/// best one and 0.01 of the half extent, as the program computes it, and in exact numbers up to one
/// raw unit. Another axis than the first one, the x axis of `a`, is the best one only where its
/// separation exceeds that threshold over the first one's.
pub fn best_axes_are_greatest()
    ensures computed { (a b : OrientedBox) (axis : Axis)
        → HasSize (Box a.half.x a.half.y) → HasSize (Box b.half.x b.half.y)
        → boxes_have_gap a b ≡ false
        → boxes_separation a b axis
        ≤ℤ threshold (boxes_separation a b (boxes_best_axis a b)) (extent_along a b axis) }
    ensures exact { (a b : OrientedBox) (axis : Axis)
        → HasSize (Box a.half.x a.half.y) → HasSize (Box b.half.x b.half.y)
        → boxes_have_gap a b ≡ false
        → (one *ℤ boxes_separation a b axis)
        ≤ℤ ((relative_tolerance *ℤ boxes_separation a b (boxes_best_axis a b))
        +ℤ (absolute_tolerance *ℤ extent_along a b axis) +ℤ one) }
    ensures first { (a b : OrientedBox)
        → HasSize (Box a.half.x a.half.y) → HasSize (Box b.half.x b.half.y)
        → boxes_have_gap a b ≡ false → boxes_best_axis a b ≢ Axis.AX
        → threshold (boxes_separation a b Axis.AX) (extent_along a b (boxes_best_axis a b))
        <ℤ boxes_separation a b (boxes_best_axis a b) }
{}

/// The incident edge is the one whose outward normal is most against the reference normal: no face
/// of the incident box has a greater part of the reference face's inward normal along its own
/// outward normal. That inward normal is the negative of the reference face's outward normal, as
/// the program turns it into the incident box's axes.
pub fn incident_edges_face_the_reference()
    ensures most { (r : Reference) (face : Face)
        → front_part face (inward_normal r.face r.relative)
        ≤ℤ front_part (incident_edge r) (inward_normal r.face r.relative) }
    ensures inward { (face : Face) (q : Rot) → IsRaw q.c → IsRaw q.s
        → inward_normal face q ≡ unrotate q (neg (outward_normal face)) }
{}

/// Two circles of allowed radii have a contact point exactly where their exact distance, rounded
/// down, is at most the sum of the radii: where its square is below the square of that sum and one
/// more unit.
pub fn circles_touch_where_they_reach()
    ensures { (a b : V2) (ra rb : ℤ) → IsSize ra → IsSize rb
        → (IsSome (collide_circles a ra b rb)
        ↔ (distance_squared a b < square (unsigned_abs ra + unsigned_abs rb + 1))) }
{}

/// Whether two boxes have a separating axis doesn't depend on their order, and where they have one
/// they have no contact point in either order.
pub fn gaps_are_mirrored()
    ensures gap { (a b : OrientedBox) → boxes_have_gap b a ≡ boxes_have_gap a b }
    ensures apart { (a b : OrientedBox) → boxes_have_gap a b ≡ true
        → (collide_boxes a b ≡ []) × (collide_boxes b a ≡ []) }
{}

/// Two upright boxes of allowed sizes have no separating axis exactly where on both axes the exact
/// distance of their centres is at most the sum of their half extents.
pub fn upright_boxes_meet_where_they_overlap()
    ensures { (a b : OrientedBox) → a.rotation ≡ upright → b.rotation ≡ upright
        → HasSize (Box a.half.x a.half.y) → HasSize (Box b.half.x b.half.y)
        → ((boxes_have_gap a b ≡ false) ↔ UprightBoxesOverlap a b) }
{}

/// Ranks order keys by the first body, then the second, then the feature; no two keys have the same
/// rank.
pub fn keys_are_in_order()
    ensures { (k l : Key) → IsKey k → IsKey l → (rank k < rank l) ↔ IsBefore k l }
{}
