//! Texts in which one number is above one limit of the lanes, and all others are within theirs: so
//! each check fails alone, in one lane beside three that hold.

ghost use Rattle.std.specs.Prelude.{◌≤◌};

use crate::batches::compare;
use crate::batches::numbers::{NUMBERS, SCALARS};
use crate::batches::rows::{ARMS, GENERAL_PATHS, PUSHES, ROWS};
use crate::batches::steps::{FRICTION_STEPS, NORMAL_STEPS, WARM_STARTS};
use pf_commands::Payload;
use pf_num::Fx;
use std::alloc::{AllocError, Global};
use std::test::Fail;

/// A floor from -100 to 100 lengths. Its top is at 0.
const FLOOR: &[u8] = b"gravity 0 -167772160\n\
box - 0 8388608 1677721600 16777216 0 -16777216 1 0\n";

/// Three circles on the floor, whose numbers are within all limits.
const CIRCLES: [&[u8]; 3] = [
    b"circle - 16777216 8388608 4194304 0 4110418\n",
    b"circle - 16777216 8388608 4194304 16777216 4110418\n",
    b"circle - 16777216 8388608 4194304 33554432 4110418\n",
];

/// A body beside the three circles, and what is done to it in the first tick.
#[derive(Clone, Copy)]
pub(crate) struct Case {
    /// What is above a limit.
    pub(crate) check: &'static str,
    /// The body's line, and that of a second body, if there is one.
    pub(crate) bodies: &'static [u8],
    /// The impulse that it is given.
    pub(crate) push: [i64; 2],
    /// The angular impulse that it is given.
    pub(crate) turn: i64,
    /// How many ticks are done.
    pub(crate) ticks: u32,
    /// Whether the velocities after the last tick are those of the lanes.
    pub(crate) in_lanes: bool,
}

/// One tick of a body to which nothing is done, solved in lanes.
pub(crate) const IN_LANES: Case = Case {
    check: "",
    bodies: b"",
    push: [0, 0],
    turn: 0,
    ticks: 1,
    in_lanes: true,
};

/// The same, with each island solved alone.
pub(crate) const ALONE: Case = Case {
    in_lanes: false,
    ..IN_LANES
};

/// Adds lines to a text.
fn add_lines(text: &mut Vec<u8>, lines: &[&[u8]]) -> Result<(), AllocError> {
    for line in lines {
        text.extend_from_slice(line)?;
    }
    Ok(())
}

/// The text of a scene, with so many of the circles before the body.
fn scene_of(alloc: Global, case: &Case, before: usize) -> Result<Vec<u8>, AllocError>
    requires { before ≤ 3 }
{
    let mut text = Vec::new(alloc);
    text.extend_from_slice(FLOOR)?;
    add_lines(&mut text, &CIRCLES[..before])?;
    text.extend_from_slice(case.bodies)?;
    add_lines(&mut text, &CIRCLES[before..])?;
    text.extend_from_slice(b"end\n")?;
    Ok(text)
}

/// A number in units of 2^-24.
fn number(raw: i64) -> Fx {
    Fx::from_raw(raw).unwrap_or(Fx::ZERO)
}

/// What is done to the body, which has so many of the circles before it.
fn commands_of(case: &Case, before: usize) -> [Payload; 2]
    requires { before ≤ 3 }
{
    let body = before as u16 + 1;
    let [x, y] = case.push;
    [
        Payload::Push {
            body,
            x: number(x),
            y: number(y),
        },
        Payload::Turn {
            body,
            x: number(case.turn),
        },
    ]
}

/// Whether the world of a case is that of each island alone, and it is solved by the path that the
/// case names, whichever lane the body's row is in.
fn is_as_expected(alloc: Global, case: &Case) -> Result<bool, Fail> {
    for before in 0..4 {
        let text = scene_of(alloc, case, before)?;
        let found = compare(alloc, &text, &commands_of(case, before), case.ticks)?;
        if found != [true, case.in_lanes, false] {
            return Ok(false);
        }
    }
    Ok(true)
}

/// The first of the checks whose case is not as expected.
fn first_other(alloc: Global, cases: &[Case]) -> Result<Option<&'static str>, Fail> {
    for case in cases {
        if !is_as_expected(alloc, case)? {
            return Ok(Some(case.check));
        }
    }
    Ok(None)
}

/// 700 circles at one place, each of which touches all others. Their rows have some 61,000 levels,
/// and a tick more than 2^19 steps of levels.
fn many_circles(alloc: Global) -> Result<Vec<u8>, AllocError> {
    let mut text = Vec::new(alloc);
    text.extend_from_slice(b"gravity 0 0\n")?;
    for _ in 0..700 {
        text.extend_from_slice(b"circle - 16777216 8388608 1048576 0 0\n")?;
    }
    text.extend_from_slice(b"end\n")?;
    Ok(text)
}

/// What is checked, and the cases of each.
const TABLES: [(&str, &[Case]); 9] = [
    ("a row", &ROWS),
    ("spins of arms", &ARMS),
    ("great impulses", &PUSHES),
    ("a number", &NUMBERS),
    ("what scalars leave", &SCALARS),
    ("a warm start", &WARM_STARTS),
    ("a step of a normal", &NORMAL_STEPS),
    ("a step of friction", &FRICTION_STEPS),
    ("the general path of scalars", &GENERAL_PATHS),
];

#[test]
fn limits_of_lanes_are_checked(rt: HostRuntime) -> Result<(), Fail> {
    for (what, cases) in TABLES {
        let other = first_other(rt.alloc(), cases)?;
        assert!(rt; other.is_none(), "{what}: {other:?}");
    }
    Ok(())
}

#[test]
fn steps_of_levels_are_counted(rt: HostRuntime) -> Result<(), Fail> {
    let text = many_circles(rt.alloc())?;
    let found = compare(rt.alloc(), &text, &[], 1)?;
    assert!(rt; found == [true, false, false]);
    Ok(())
}
