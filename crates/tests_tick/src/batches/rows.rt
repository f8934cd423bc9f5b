//! Numbers of rows: those that no lane holds, those that limit spins and impulses, and those for
//! which scalars take their general path.

use crate::batches::checks::{ALONE, Case, IN_LANES};

/// Rows that no lane holds: all islands are solved alone.
pub(crate) const ROWS: [Case; 6] = [
    Case {
        check: "the x of a normal",
        bodies: b"circle - 17179869184 0 8388608 -4299161600 2097152\n\
box - 0 0 1048576 1048576 -4294967296 0 1 1\n",
        ..ALONE
    },
    Case {
        check: "the y of a normal",
        bodies: b"circle - 8388608 0 67108864 -4211081216 -134217728\n\
box - 0 0 8388608 201326592 -4294967296 0 1 1\n",
        ..ALONE
    },
    Case {
        check: "the x of a first arm",
        bodies: b"circle - 8388608 0 536870912 -3758096384 0\n\
circle - 0 0 1048576 -4294967296 0\n",
        ..ALONE
    },
    Case {
        check: "the y of a first arm",
        bodies: b"circle - 8388608 0 4294967296 -8589934592 0\n\
circle - 0 0 8388608 -8589934592 0\n",
        ..ALONE
    },
    Case {
        check: "the x of a second arm",
        bodies: b"circle - 8388608 0 2147483648 3221225472 0\n",
        ..ALONE
    },
    Case {
        check: "the y of a second arm",
        bodies: b"circle - 1048576 0 536870912 536870912 536870912\n",
        ..ALONE
    },
];

/// Rows with a spin or an impulse above what their arms allow, and within what the next shorter
/// arms would.
pub(crate) const ARMS: [Case; 5] = [
    Case {
        check: "an arm of a quarter of a length",
        bodies: b"circle - 1048576 0 8388608 536870912 4194304\n",
        turn: 8_388_608,
        ..IN_LANES
    },
    Case {
        check: "an arm of half a length",
        bodies: b"circle - 16777216 0 8388608 -4261412864 0\n\
circle - 0 0 33554432 -4294967296 0\n",
        turn: -67_108_864,
        ..IN_LANES
    },
    Case {
        check: "an arm of a length",
        bodies: b"circle - 16777216 0 33554432 1694498816 0\n",
        ..IN_LANES
    },
    Case {
        check: "an arm of 2 lengths",
        bodies: b"circle - 8388608 0 33554432 -8589934592 0\n\
circle - 0 0 8388608 -8589934592 0\n",
        turn: -67_108_864,
        ..IN_LANES
    },
    Case {
        check: "an arm of 8 lengths",
        bodies: b"circle - 8388608 0 536870912 536870912 534773760\n",
        ..IN_LANES
    },
];

/// Impulses that are tested, since they are above the limit of their row. Each case names the
/// product for which the limit is no greater.
pub(crate) const PUSHES: [Case; 12] = [
    Case {
        check: "a moment by an impulse of 8, of the first body",
        bodies: b"circle - 134217728 0 100663296 -8589934592 117440512\n\
circle - 0 0 16777216 -8589934592 0\n",
        ..IN_LANES
    },
    Case {
        check: "a change of velocity by an impulse of 8, of the second body",
        bodies: b"circle - 1048576 0 8388608 536870912 0\n",
        ..IN_LANES
    },
    Case {
        check: "an exact change of spin by an impulse of 8, of the first body",
        bodies: b"circle - 67108864 0 2097152 -4297064448 0\n\
box - 0 0 1048576 1048576 -4294967296 0 1 0\n",
        ..IN_LANES
    },
    Case {
        check: "a change of spin by an impulse of 8, of the second body",
        bodies: b"circle - 16777216 0 33554432 67108864 25165824\n",
        ..IN_LANES
    },
    Case {
        check: "a moment by an impulse of 1, of the second body",
        bodies: b"circle - 67108864 0 268435456 536870912 268435456\n",
        ..IN_LANES
    },
    Case {
        check: "a change of velocity by an impulse of 1, of the first body",
        bodies: b"circle - 1048576 0 1048576 -8589934592 -1048576\n\
box - 0 0 1048576 1048576 -8589934592 0 1 0\n",
        push: [0, 8_388_608],
        ..IN_LANES
    },
    Case {
        check: "an exact change of spin by an impulse of 1, of the second body",
        bodies: b"circle - 16777216 0 1048576 8388608 524288\n",
        ..IN_LANES
    },
    Case {
        check: "a change of spin by an impulse of 1, of the first body",
        bodies: b"circle - 4194304 0 71303168 -4211081216 0\n\
box - 0 0 16777216 8388608 -4294967296 0 1 0\n",
        ..IN_LANES
    },
    Case {
        check: "an exact change of spin by an impulse of a quarter",
        bodies: b"circle - 1048576 0 4194304 -4273995776 0\n\
box - 0 0 18874368 1048576 -4294967296 0 1 0\n",
        ..IN_LANES
    },
    Case {
        check: "a change of spin by an impulse of a quarter",
        bodies: b"circle - 1048576 0 20971520 67108864 16777216\n",
        ..IN_LANES
    },
    Case {
        check: "an exact change of spin by an impulse of 1/16",
        bodies: b"circle - 1048576 0 1048576 8388608 524288\n",
        ..IN_LANES
    },
    Case {
        check: "a change of spin by an impulse of 1/16",
        bodies: b"circle - 1048576 0 33554432 -17179869184 8623489024\n\
circle - 0 0 8589934592 -17179869184 0\n",
        ..IN_LANES
    },
];

/// Rows that lanes leave to scalars, and for which these take the general path: a number is above a
/// limit of the fast one.
pub(crate) const GENERAL_PATHS: [Case; 13] = [
    Case {
        check: "the inverse inertia of a first body",
        bodies: b"circle - 1048576 0 1048576 -8589934592 17301504\n\
box - 0 0 16777216 16777216 -8589934592 0 1 0\n",
        push: [32_505_856, 0],
        ..IN_LANES
    },
    Case {
        check: "the inverse inertia of a second body",
        bodies: b"circle - 1048576 0 1048576 67108864 524288\n",
        push: [32_505_856, 0],
        ..IN_LANES
    },
    Case {
        check: "an effective mass along the normal",
        bodies: b"box - 4294967296 0 4194304 33554432 67108864 33554432 1 0\n",
        ..IN_LANES
    },
    Case {
        check: "an effective mass along the tangent",
        bodies: b"box - 4294967296 0 16777216 4194304 67108864 4194304 1 0\n",
        push: [133_143_986_176, 671_088_640],
        ..IN_LANES
    },
    Case {
        check: "a bias",
        bodies: b"circle - 16777216 0 268435456 536870912 67108864\n",
        turn: 6_442_450_944,
        ..IN_LANES
    },
    Case {
        check: "the x of a first arm",
        bodies: b"circle - 2097152 0 536870912 -4831838208 0\n\
box - 0 0 8388608 8388608 -4294967296 0 1 0\n",
        ..IN_LANES
    },
    Case {
        check: "the y of a first arm",
        bodies: b"circle - 16777216 0 536870912 -8589934592 536870912\n\
box - 0 0 1048576 1048576 -8589934592 0 1 0\n",
        ..IN_LANES
    },
    Case {
        check: "the x of a second arm",
        bodies: b"circle - 1048576 0 536870912 2147483648 0\n",
        ..IN_LANES
    },
    Case {
        check: "the y of a second arm",
        bodies: b"circle - 16777216 0 469762048 536870912 469762048\n",
        push: [520_093_696, 0],
        ..IN_LANES
    },
    Case {
        check: "a turn by the x of a first arm",
        bodies: b"box - 1048576 0 2684354 1048576 -8589934592 17825792 1 0\n\
box - 0 0 16777216 16777216 -8589934592 0 1 0\n",
        push: [32_505_856, 0],
        ..IN_LANES
    },
    Case {
        check: "a turn by the y of a first arm",
        bodies: b"box - 1048576 0 1048576 2684354 -8589934592 19461570 1 0\n\
box - 0 0 16777216 16777216 -8589934592 0 1 0\n",
        push: [32_505_856, 0],
        ..IN_LANES
    },
    Case {
        check: "a turn by the x of a second arm",
        bodies: b"box - 1048576 0 2684354 1048576 67108864 1048576 1 0\n",
        push: [32_505_856, 0],
        ..IN_LANES
    },
    Case {
        check: "a turn by the y of a second arm",
        bodies: b"box - 1048576 0 1048576 2684354 67108864 2684354 1 0\n",
        push: [32_505_856, 0],
        ..IN_LANES
    },
];
