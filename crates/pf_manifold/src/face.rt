//! The faces of a box, as the edges of Box2D-Lite's Collide.cpp.

ghost use Rattle.std.specs.Prelude.{◌≡◌, ◌<◌};
ghost use Rattle.pf_manifold.specs.Face.{face_number, front_extent, side_part, front_part, from_parts, outward_normal};

use pf_num::Fx;
use pf_rot::V2;

/// A face of a box, counterclockwise from the one on the right.
#[derive(Clone, Copy, Debug, PartialEq, Eq)]
pub enum Face {
    Right,
    Top,
    Left,
    Bottom,
}

impl Face {
    ghost use Rattle.std.specs.Prelude.{◌≡◌, ◌<◌};
    ghost use Rattle.pf_manifold.specs.Face.{face_number, front_extent, side_part, front_part, from_parts, outward_normal};

    /// 0 to 3.
    #[inline]
    pub fn number(self) -> u32
        ensures value { result ≡ face_number self }
        ensures bound { result < 4 }
    {
        match self {
            Face::Right => 0,
            Face::Top => 1,
            Face::Left => 2,
            Face::Bottom => 3,
        }
    }

    /// The distance of the face from the centre of a box of these half extents.
    #[inline]
    pub fn front_extent(self, half: V2) -> Fx
        ensures { result ≡ front_extent self half }
    {
        match self {
            Face::Right | Face::Left => half.x,
            Face::Top | Face::Bottom => half.y,
        }
    }

    /// The coordinate of a vector along the face.
    #[inline]
    pub fn side_part(self, v: V2) -> Fx
        ensures { result ≡ side_part self v }
    {
        match self {
            Face::Right | Face::Left => v.y,
            Face::Top | Face::Bottom => v.x,
        }
    }

    /// The coordinate of a vector along the outward normal.
    #[inline]
    pub fn front_part(self, v: V2) -> Fx
        ensures { result ≡ front_part self v }
    {
        match self {
            Face::Right => v.x,
            Face::Top => v.y,
            Face::Left => v.x.neg(),
            Face::Bottom => v.y.neg(),
        }
    }

    /// The vector with these coordinates along the outward normal and along the face.
    #[inline]
    pub fn from_parts(self, front: Fx, side: Fx) -> V2
        ensures { result ≡ from_parts self front side }
    {
        match self {
            Face::Right => V2 { x: front, y: side },
            Face::Top => V2 { x: side, y: front },
            Face::Left => V2 {
                x: front.neg(),
                y: side,
            },
            Face::Bottom => V2 {
                x: side,
                y: front.neg(),
            },
        }
    }

    /// The outward normal in the box's own axes.
    #[inline]
    pub fn outward_normal(self) -> V2
        ensures { result ≡ outward_normal self }
    {
        let (x, y) = (Fx::ONE, Fx::ZERO);
        match self {
            Face::Right => V2 { x, y },
            Face::Top => V2 { x: y, y: x },
            Face::Left => V2 { x: x.neg(), y },
            Face::Bottom => V2 { x: y, y: x.neg() },
        }
    }
}
