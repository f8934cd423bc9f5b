//! Steps that lanes leave to scalars.

use crate::batches::checks::{Case, IN_LANES};

/// Warm starts that are left to scalars.
pub(crate) const WARM_STARTS: [Case; 8] = [
    Case {
        check: "the spin of a first body",
        bodies: b"circle - 16777216 0 1310720 -8589934592 0\n\
circle - 0 0 1048576 -8589934592 0\n",
        turn: 26_110_364_483_584,
        ..IN_LANES
    },
    Case {
        check: "the spin of a second body",
        bodies: b"circle - 16777216 0 3145728 8388608 0\n",
        turn: -77_544_913_108_992,
        ..IN_LANES
    },
    Case {
        check: "an impulse",
        bodies: b"circle - 2147483648 0 1048576 8388608 524288\n",
        ticks: 2,
        ..IN_LANES
    },
    Case {
        check: "an impulse at its arms",
        bodies: b"circle - 33554432 0 67108864 536870912 62914560\n",
        ticks: 2,
        ..IN_LANES
    },
    Case {
        check: "a change of the velocity of a first body",
        bodies: b"circle - 1048576 0 8388608 -8589934592 1\n\
circle - 0 0 1048576 -8589934592 0\n",
        push: [0, -33_554_432],
        ticks: 2,
        ..IN_LANES
    },
    Case {
        check: "a change of the spin of a first body",
        bodies: b"circle - 8388608 8388608 1048576 -8589934592 0\n\
circle - 0 67108864 1048576 -8589934592 0\n",
        turn: 1_048_576,
        ticks: 2,
        ..IN_LANES
    },
    Case {
        check: "a change of the velocity of a second body",
        bodies: b"circle - 1048576 0 8388608 67108864 8388608\n",
        push: [0, -16_777_216],
        ticks: 2,
        ..IN_LANES
    },
    Case {
        check: "a change of the spin of a second body",
        bodies: b"box - 1048576 0 8388608 1048576 536870912 0 1 0\n",
        turn: 8_388_608,
        ticks: 2,
        ..IN_LANES
    },
];

/// Rounds that are left to scalars at their start, or at the step of the normal.
pub(crate) const NORMAL_STEPS: [Case; 14] = [
    Case {
        check: "the spin of a first body",
        bodies: b"circle - 134217728 1 2097152 -4292870144 0\n\
circle - 0 67108864 2097152 -4294967296 0\n",
        push: [0, -1_073_741_824],
        turn: -67_108_864,
        ..IN_LANES
    },
    Case {
        check: "the spin of a second body",
        bodies: b"circle - 16777216 8388608 1048576 67108864 524288\n",
        push: [-67_108_864, 0],
        turn: 2_097_152,
        ..IN_LANES
    },
    Case {
        check: "the x of a relative velocity",
        bodies: b"circle - 16777216 0 4194304 -8595832832 -5898240\n\
circle - 16777216 0 4194304 -8589934592 0\n",
        push: [503_316_481, 0],
        ..IN_LANES
    },
    Case {
        check: "the y of a relative velocity",
        bodies: b"circle - 16777216 0 4194304 -8595832832 -5898240\n\
circle - 16777216 0 4194304 -8589934592 0\n",
        push: [0, 503_316_481],
        ..IN_LANES
    },
    Case {
        check: "a change of speed",
        bodies: b"circle - 8589934592 0 4194304 67108864 4110418\n",
        push: [0, 8_589_934_592],
        ..IN_LANES
    },
    Case {
        check: "an impulse that is tested, and not too great",
        bodies: b"circle - 1048576 0 1048576 8388608 524288\n",
        ..IN_LANES
    },
    Case {
        check: "an impulse",
        bodies: b"circle - 268435456 0 8388608 67108864 6291456\n",
        ..IN_LANES
    },
    Case {
        check: "an impulse at its arms",
        bodies: b"circle - 536870912 0 67108864 536870912 67108864\n",
        ..IN_LANES
    },
    Case {
        check: "a change of the velocity of a first body",
        bodies: b"circle - 1048576 0 33554432 -4328521728 0\n\
circle - 0 0 8388608 -4294967296 0\n",
        push: [16_777_216, 0],
        ..IN_LANES
    },
    Case {
        check: "a change of the spin of a first body",
        bodies: b"box - 1048576 8388608 1048576 1048576 -8589934592 0 1 0\n\
box - 0 8388608 1048576 1048576 -8589934592 0 1 0\n",
        push: [-8_388_608, 0],
        ..IN_LANES
    },
    Case {
        check: "a change of the velocity of a second body",
        bodies: b"circle - 2097152 0 33554432 536870912 0\n",
        ..IN_LANES
    },
    Case {
        check: "a change of the spin of a second body",
        bodies: b"box - 16777216 0 2097152 4194304 8388608 0 1 0\n",
        push: [0, -268_435_456],
        ..IN_LANES
    },
    Case {
        check: "the spin of a first body after it",
        bodies: b"box - 1048576 0 8388608 2097152 -8589934592 0 1 0\n\
box - 0 0 33554432 16777216 -8589934592 0 1 0\n",
        ..IN_LANES
    },
    Case {
        check: "the spin of a second body after it",
        bodies: b"box - 1048576 0 33554432 8388608 536870912 0 1 0\n",
        ..IN_LANES
    },
];

/// Rounds that are left to scalars at the step of friction.
pub(crate) const FRICTION_STEPS: [Case; 14] = [
    Case {
        check: "the x of a relative velocity",
        bodies: b"box - 1048576 0 8388608 2097152 536870912 1 1 0\n",
        push: [31_457_280, 0],
        ..IN_LANES
    },
    Case {
        check: "the y of a relative velocity",
        bodies: b"circle - 16777216 0 50331648 536870912 0\n",
        push: [0, 402_653_184],
        ..IN_LANES
    },
    Case {
        check: "a change of speed",
        bodies: b"circle - 268435456 0 4194304 8388608 4194304\n",
        turn: -268_435_456,
        ..IN_LANES
    },
    Case {
        check: "the limit of friction",
        bodies: b"box - 2147483648 67108864 8388608 14680064 67108864 14680064 1 0\n",
        push: [536_870_912, 0],
        ..IN_LANES
    },
    Case {
        check: "a limit of friction that doubles round otherwise",
        bodies: b"circle - 12346678904 64027686 4194304 67108864 4110418\n",
        push: [16_500_000_000, 0],
        ticks: 2,
        ..IN_LANES
    },
    Case {
        check: "an impulse that is tested, and not too great",
        bodies: b"circle - 100663296 67108864 1048576 8388608 1048576\n",
        push: [-67_108_864, 0],
        ..IN_LANES
    },
    Case {
        check: "an impulse",
        bodies: b"circle - 201326592 67108864 2097152 8388608 524288\n",
        push: [536_870_912, 0],
        ..IN_LANES
    },
    Case {
        check: "an impulse at its arms",
        bodies: b"box - 16777216 67108864 134217728 134217728 536870912 134217728 1 0\n",
        push: [-268_435_456, -16_777_216],
        ..IN_LANES
    },
    Case {
        check: "a change of the velocity of a first body",
        bodies: b"box - 2097152 8388608 33554432 4194304 -8589934592 0 1 0\n\
box - 0 67108864 1048576 16777216 -8589934592 0 1 0\n",
        push: [50_331_648, 0],
        ..IN_LANES
    },
    Case {
        check: "a change of the spin of a first body",
        bodies: b"box - 16777216 67108864 2097152 2097152 -4328521728 0 1 0\n\
circle - 0 67108864 33554432 -4294967296 0\n",
        push: [0, 134_217_728],
        ..IN_LANES
    },
    Case {
        check: "a change of the velocity of a second body",
        bodies: b"circle - 4194304 67108864 41943040 536870912 4194304\n",
        push: [100_663_296, 67_108_864],
        ..IN_LANES
    },
    Case {
        check: "a change of the spin of a second body",
        bodies: b"circle - 2097152 67108864 1048576 8388608 524288\n",
        push: [8_388_608, -2_097_152],
        ..IN_LANES
    },
    Case {
        check: "the spin of a first body after it",
        bodies: b"circle - 1048576 8388608 8388608 -8589934592 0\n\
box - 0 8388608 67108864 8388608 -8589934592 0 1 0\n",
        push: [16_777_216, 0],
        ..IN_LANES
    },
    Case {
        check: "the spin of a second body after it",
        bodies: b"box - 1048576 8388608 33554432 1048576 -1677721600 1048576 1 0\n",
        push: [-1_048_576, -5_373_952],
        ..IN_LANES
    },
];
