//! Limits of rows in lanes, by hand. Rows, bundles and numbers in lanes stand below the ticks of
//! `batches`.

ghost use Rattle.std.specs.Prelude.{◌≡◌};

use pf_bundles::{Bundle, LaneRow, laws};
use pf_lanes::Lanes;
use pf_levels::RowPair;
use pf_manifold::{ContactPoint, Touch};
use pf_num::Fx;
use pf_rot::V2;
use pf_rows::{Constraint, Entry, Impulses, InverseMass, Prepared, Row, Side};

/// That of a mass of 1 and an inertia of 64.
fn inverse_mass() -> InverseMass {
    InverseMass {
        inverse_mass: Fx::ONE,
        inverse_inertia: Fx::TICK,
    }
}

/// A row of a static body and a dynamic one, with arms of this length and this bias.
fn row(arm: Fx, bias: Fx) -> Row {
    let normal = V2 {
        x: Fx::ONE,
        y: Fx::ZERO,
    };
    let arm = V2 {
        x: Fx::ZERO,
        y: arm,
    };
    let constraint = Constraint {
        normal,
        tangent: normal,
        first_arm: arm,
        second_arm: arm,
        bias,
        ..Constraint::NONE
    };
    Row {
        entry: entry(normal),
        prepared: Prepared::new(inverse_mass(), inverse_mass(), constraint),
    }
}

/// An entry of a static body and a dynamic one.
fn entry(normal: V2) -> Entry {
    let point = ContactPoint {
        feature: 0,
        position: V2::ZERO,
        normal,
        separation: Fx::ZERO,
    };
    Entry {
        touch: Touch { a: 0, b: 1, point },
        impulses: Impulses {
            normal: Fx::ZERO,
            tangent: Fx::ZERO,
        },
        place: 0,
        first: Side::Static,
        second: Side::Dynamic(0),
    }
}

/// A row of a static body and this one.
fn ground(second: usize) -> RowPair
    ensures { result ≡ record { first = Side.Static; second = Side.Dynamic second } }
{
    RowPair {
        first: Side::Static,
        second: Side::Dynamic(second),
    }
}

/// The raw numbers in lanes.
fn raw(lanes: Lanes) -> [i64; 4] {
    let [first, second, third, fourth] = lanes.parts();
    [first.raw(), second.raw(), third.raw(), fourth.raw()]
}

/// The limits of spins and of impulses of a lane.
fn limits_of(lane: LaneRow) -> (i64, i64) {
    let bundle = Bundle::of(&[0], &[ground(0)], &[lane]);
    let prepared = bundle.prepared();
    (raw(prepared.spin_limit())[0], raw(prepared.push_limit())[0])
}

/// The limits of a row with an arm of this length, in units of 2^-24, if there are any.
fn limits(length: i64) -> Option<(i64, i64)> {
    let lane = LaneRow::of(&row(Fx::from_raw(length)?, Fx::ONE))?;
    Some(limits_of(lane))
}

#[test]
fn limits_fall_with_long_arms(rt: HostRuntime) {
    for (length, expected) in [
        (1 << 21, Some((1 << 30, 1 << 28))),
        (1 << 22, Some((1 << 29, 1 << 28))),
        (1 << 23, Some((1 << 28, 1 << 28))),
        (1 << 24, Some((1 << 27, 1 << 28))),
        (1 << 25, Some((1 << 25, 1 << 25))),
        (1 << 27, Some((1 << 23, 1 << 25))),
        ((1 << 29) - 1, Some((1 << 23, 1 << 23))),
        (1 << 29, None),
    ] {
        assert!(rt; limits(length) == expected, "at {length}");
    }
}

#[test]
fn laws_are_called(_rt: HostRuntime) {
    laws::named_limits();
    laws::limits_of_spins();
}
