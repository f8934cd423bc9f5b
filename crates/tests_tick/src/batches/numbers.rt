//! Velocities, spins and accumulated impulses that no lane holds.

use crate::batches::checks::{ALONE, Case};

/// Numbers that are not loaded: all islands are solved alone.
pub(crate) const NUMBERS: [Case; 5] = [
    Case {
        check: "the x of a velocity",
        bodies: b"circle - 16777216 8388608 4194304 -838860800 4110418\n",
        push: [562_949_953_421_313, 0],
        ..ALONE
    },
    Case {
        check: "the y of a velocity",
        bodies: b"circle - 16777216 8388608 4194304 -838860800 4110418\n",
        push: [0, -562_949_950_799_873],
        ..ALONE
    },
    Case {
        check: "a spin",
        bodies: b"circle - 16777216 67108864 33554432 -838860800 33554432\n",
        turn: 18_014_398_509_481_986,
        ..ALONE
    },
    Case {
        check: "an accumulated normal impulse",
        bodies: b"circle - 134217728 0 4194304 67108864 4110418\n",
        push: [0, -562_950_221_856_768],
        ticks: 2,
        ..ALONE
    },
    Case {
        check: "an accumulated tangent impulse",
        bodies: b"circle - 8589934592 67108864 4194304 8388608 4110418\n",
        push: [703_361_457_870_848, -558_375_732_790_272],
        turn: 175_840_364_467_712,
        ticks: 2,
        ..ALONE
    },
];

/// What scalars make of a row in place of lanes, and no lane holds: all islands are solved alone,
/// from the start of the rounds.
pub(crate) const SCALARS: [Case; 8] = [
    Case {
        check: "the x of the velocity of a first body",
        bodies: b"box - 1048576 0 8388608 8388608 -8606711808 0 1 0\n\
box - 0 0 8388608 8388608 -8589934592 0 1 0\n",
        turn: -35_184_372_088_832,
        ..ALONE
    },
    Case {
        check: "the y of the velocity of a first body",
        bodies: b"box - 1048576 0 8388608 8388608 -8589934592 16777216 1 0\n\
box - 0 0 8388608 8388608 -8589934592 0 1 0\n",
        turn: -35_184_372_088_832,
        ..ALONE
    },
    Case {
        check: "the spin of a first body",
        bodies: b"circle - 1048576 67108864 1048576 -8589934592 8388608\n\
box - 0 67108864 16777216 16777216 -8589934592 0 1 1\n",
        turn: 8_589_934_592,
        ..ALONE
    },
    Case {
        check: "the x of the velocity of a second body",
        bodies: b"box - 1048576 0 16777216 16777216 1694498816 0 1 0\n",
        turn: -70_368_744_177_664,
        ..ALONE
    },
    Case {
        check: "the y of the velocity of a second body",
        bodies: b"box - 2097152 0 8388608 4194304 67108864 0 1 0\n",
        turn: 70_368_744_177_664,
        ..ALONE
    },
    Case {
        check: "the spin of a second body",
        bodies: b"circle - 16777216 8388608 16777216 -4311744512 1048576\n\
box - 2097152 67108864 1048576 1048576 -4294967296 0 1 0\n",
        push: [562_949_953_421_312, 281_474_976_710_656],
        turn: 281_474_976_710_656,
        ..ALONE
    },
    Case {
        check: "an accumulated normal impulse",
        bodies: b"circle - 8589934592 0 4194304 67108864 4110418\n",
        push: [0, -1_125_899_906_842_624],
        ..ALONE
    },
    Case {
        check: "an accumulated tangent impulse",
        bodies: b"circle - 8589934592 67108864 8388608 67108864 8388608\n",
        push: [0, -562_949_953_421_312],
        turn: -9_007_199_254_740_992,
        ..ALONE
    },
];
