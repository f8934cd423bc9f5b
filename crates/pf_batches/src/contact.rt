//! Contacts side by side: what the solver reads and writes of the rows of a level.

ghost use Rattle.std.specs.Prelude.{◌≡◌, ◌∷◌, []};
ghost use Rattle.pf_lanes.specs.Lanes.{First, Fourth, Second, Third};
ghost use Rattle.pf_batches.specs.Contact.{impulses_in_lane, velocity_in_lane};

use pf_bundles::{ExactImpulses, ExactVector, ExactVelocity, SeatState, VectorLanes};
use pf_lanes::{Lanes, ShiftedLanes};
use std::marker::Model;

/// The velocities and the angular velocities of bodies side by side.
#[derive(Clone, Copy)]
pub struct MotionLanes {
    /// The velocities.
    pub velocity: VectorLanes,
    /// The angular velocities.
    pub spin: Lanes,
}

impl Model for MotionLanes {
    ghost use Rattle.pf_batches.specs.Contact.{MotionLanes};

    ghost Value = { MotionLanes };

    ghost view = { λ m. record { velocity = m.velocity; spin = m.spin } };

    ghost inverse = { λ m. record { velocity = m.velocity; spin = m.spin } };
}

/// What impulses change of bodies side by side: rounded products, which the sums are made of.
#[derive(Clone, Copy)]
pub(crate) struct MotionChange {
    /// The changes of the velocities along the x axis.
    pub x: ShiftedLanes,
    /// Along the y axis.
    pub y: ShiftedLanes,
    /// The changes of the angular velocities.
    pub spin: ShiftedLanes,
}

impl Model for MotionChange {
    ghost use Rattle.pf_batches.specs.Contact.{MotionLanes};

    ghost Value = { MotionLanes };

    ghost view = { λ c. record { velocity = record { x = c.x; y = c.y }; spin = c.spin } };

    ghost inverse = { λ v. record { x = v.velocity.x; y = v.velocity.y; spin = v.spin } };
}

/// The bodies of contacts side by side, and their accumulated impulses.
#[derive(Clone, Copy)]
pub struct ContactLanes {
    /// The first bodies.
    pub first: MotionLanes,
    /// The second bodies.
    pub second: MotionLanes,
    /// The accumulated impulses along the normals.
    pub normal: Lanes,
    /// The accumulated impulses along the tangents.
    pub tangent: Lanes,
}

impl Model for ContactLanes {
    ghost use Rattle.pf_batches.specs.Contact.{ContactLanes};

    ghost Value = { ContactLanes };

    ghost view = { λ s. record {
      first = s.first;
      second = s.second;
      normal = s.normal;
      tangent = s.tangent;
    } };

    ghost inverse = { λ s. record {
      first = s.first;
      second = s.second;
      normal = s.normal;
      tangent = s.tangent;
    } };
}

impl ContactLanes {
    ghost use Rattle.std.specs.Prelude.{◌≡◌};

    /// The same contacts with these accumulated impulses along the normals.
    #[inline(always)]
    pub fn with_normal(self, normal: Lanes) -> ContactLanes
        ensures { result ≡ record self { normal = normal } }
    {
        ContactLanes { normal, ..self }
    }

    /// The same contacts with these accumulated impulses along the tangents.
    #[inline(always)]
    pub fn with_tangent(self, tangent: Lanes) -> ContactLanes
        ensures { result ≡ record self { tangent = tangent } }
    {
        ContactLanes { tangent, ..self }
    }
}

/// The motions of four bodies, one in each lane.
#[inline(always)]
pub(crate) fn motions(
    first: &ExactVelocity,
    second: &ExactVelocity,
    third: &ExactVelocity,
    fourth: &ExactVelocity,
) -> MotionLanes
    ensures first { velocity_in_lane First result ≡ first.now }
    ensures second { velocity_in_lane Second result ≡ second.now }
    ensures third { velocity_in_lane Third result ≡ third.now }
    ensures fourth { velocity_in_lane Fourth result ≡ fourth.now }
{
    let (a, b, c, d) = (
        &first.velocity,
        &second.velocity,
        &third.velocity,
        &fourth.velocity,
    );
    MotionLanes {
        velocity: VectorLanes {
            x: Lanes::gather([a.x, b.x, c.x, d.x]),
            y: Lanes::gather([a.y, b.y, c.y, d.y]),
        },
        spin: Lanes::gather([first.spin, second.spin, third.spin, fourth.spin]),
    }
}

/// The accumulated impulses of four rows, one in each lane: along the normals, and the tangents.
#[inline(always)]
pub(crate) fn accumulated(
    first: &ExactImpulses,
    second: &ExactImpulses,
    third: &ExactImpulses,
    fourth: &ExactImpulses,
) -> (Lanes, Lanes)
    ensures first { impulses_in_lane First result.0 result.1 ≡ first.now }
    ensures second { impulses_in_lane Second result.0 result.1 ≡ second.now }
    ensures third { impulses_in_lane Third result.0 result.1 ≡ third.now }
    ensures fourth { impulses_in_lane Fourth result.0 result.1 ≡ fourth.now }
{
    (
        Lanes::gather([first.normal, second.normal, third.normal, fourth.normal]),
        Lanes::gather([first.tangent, second.tangent, third.tangent, fourth.tangent]),
    )
}

/// The velocities of four bodies.
#[inline(always)]
fn velocities(motions: &MotionLanes) -> [ExactVelocity; 4]
    ensures { result ≡ velocity_in_lane First motions.now ∷ velocity_in_lane Second motions.now
        ∷ velocity_in_lane Third motions.now ∷ velocity_in_lane Fourth motions.now ∷ [] }
{
    let velocity = motions.velocity;
    let [ax, bx, cx, dx] = velocity.x.parts();
    let [ay, by, cy, dy] = velocity.y.parts();
    let [a, b, c, d] = motions.spin.parts();
    [
        ExactVelocity {
            velocity: ExactVector { x: ax, y: ay },
            spin: a,
        },
        ExactVelocity {
            velocity: ExactVector { x: bx, y: by },
            spin: b,
        },
        ExactVelocity {
            velocity: ExactVector { x: cx, y: cy },
            spin: c,
        },
        ExactVelocity {
            velocity: ExactVector { x: dx, y: dy },
            spin: d,
        },
    ]
}

impl ContactLanes {
    ghost use Rattle.std.specs.Prelude.{◌≡◌, ◌∷◌, []};
    ghost use Rattle.pf_lanes.specs.Lanes.{First, Fourth, Lane, Second, Third};
    ghost use Rattle.pf_batches.specs.Contact.{seat_state_in, seat_state_of};

    /// Four contacts, one in each lane.
    #[inline(always)]
    pub(crate) fn of(
        first: &SeatState,
        second: &SeatState,
        third: &SeatState,
        fourth: &SeatState,
    ) -> ContactLanes
        ensures { (k : Lane) → seat_state_in k result
            ≡ seat_state_of k first.now second.now third.now fourth.now }
    {
        let (normal, tangent) = accumulated(
            &first.impulses,
            &second.impulses,
            &third.impulses,
            &fourth.impulses,
        );
        ContactLanes {
            first: motions(&first.first, &second.first, &third.first, &fourth.first),
            second: motions(&first.second, &second.second, &third.second, &fourth.second),
            normal,
            tangent,
        }
    }

    /// The contact of each lane.
    #[inline(always)]
    pub(crate) fn states(&self) -> [SeatState; 4]
        ensures { result ≡ seat_state_in First self.now ∷ seat_state_in Second self.now
            ∷ seat_state_in Third self.now ∷ seat_state_in Fourth self.now ∷ [] }
    {
        let [a, b, c, d] = velocities(&self.first);
        let [e, f, g, h] = velocities(&self.second);
        let [an, bn, cn, dn] = self.normal.parts();
        let [at, bt, ct, dt] = self.tangent.parts();
        [
            SeatState {
                first: a,
                second: e,
                impulses: ExactImpulses {
                    normal: an,
                    tangent: at,
                },
            },
            SeatState {
                first: b,
                second: f,
                impulses: ExactImpulses {
                    normal: bn,
                    tangent: bt,
                },
            },
            SeatState {
                first: c,
                second: g,
                impulses: ExactImpulses {
                    normal: cn,
                    tangent: ct,
                },
            },
            SeatState {
                first: d,
                second: h,
                impulses: ExactImpulses {
                    normal: dn,
                    tangent: dt,
                },
            },
        ]
    }
}
