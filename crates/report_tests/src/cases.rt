//! Pools whose groups share places, and two maps for them.

use crush_pool::{DeviceState, Pair};
use pool_tests::maps::MapTables;
use pool_tests::pools::{Short, TWELVE};
use pool_tests::states::{DOWN_2, OUT_1};
use std::alloc::Global;
use std::test::Fail;
use text_tests::texts::map_text;

/// A map of seven devices, with two rules. Its root has the first six of them and the given items.
macro_rules! seven {
    ($($more:literal)*) => {
        map_text!(
            "",
            "device 0 osd.0
device 1 osd.1
device 2 osd.2
device 3 osd.3
device 4 osd.4
device 5 osd.5
device 6 osd.6
type 0 osd
type 1 host
type 10 root
root default {
 id -1
 alg list
 hash 0
 item osd.0 weight 1.0
 item osd.1 weight 1.0
 item osd.2 weight 1.0
 item osd.3 weight 1.0
 item osd.4 weight 1.0
 item osd.5 weight 1.0
",
            $($more,)*
            "}
rule all {
 id 0
 type replicated
 step take default
 step choose firstn 0 type osd
 step emit
}
rule each {
 id 1
 type erasure
 step take default
 step choose indep 0 type osd
 step emit
}
"
        )
    };
}

const OF_SIX: &str = seven!();

const OF_SEVEN: &str = seven!(" item osd.6 weight 1.0\n");

/// The devices of both maps, and one that they lack.
pub(crate) const DEVICES: u32 = 8;

/// A pool of 37 groups with 11 places: the groups 5, 13, 21 and 29 have the place 5, and the groups
/// 0, 16 and 32 the place 0.
pub(crate) const ELEVEN: Short = Short {
    size: 3,
    pg_num: 37,
    pgp_num: 11,
    hashpspool: true,
    ..TWELVE
};

/// Pools with fewer places than groups: few enough that answers are stored for usage and for moves,
/// for usage alone, and for neither. And one with as many.
pub(crate) const POOLS: &[Short] = &[
    ELEVEN,
    Short {
        pgp_num: 1,
        ..ELEVEN
    },
    Short {
        pgp_num: 18,
        ..ELEVEN
    },
    Short {
        pgp_num: 19,
        ..ELEVEN
    },
    Short {
        pgp_num: 36,
        ..ELEVEN
    },
    Short {
        pgp_num: 37,
        ..ELEVEN
    },
    Short {
        erasure: true,
        rule: 1,
        size: 7,
        ..ELEVEN
    },
    Short {
        erasure: true,
        rule: 1,
        size: 4,
        hashpspool: false,
        ..ELEVEN
    },
    Short {
        size: 32,
        hashpspool: false,
        ..ELEVEN
    },
];

/// Pairs of groups that share their places with groups that have none.
pub(crate) const PAIRS: &[Pair] = &[
    Pair {
        group: 13,
        from: 0,
        to: 1,
    },
    Pair {
        group: 13,
        from: 2,
        to: 3,
    },
    Pair {
        group: 13,
        from: 4,
        to: 5,
    },
    Pair {
        group: 21,
        from: 0,
        to: 5,
    },
    Pair {
        group: 21,
        from: 0,
        to: 3,
    },
    Pair {
        group: 21,
        from: 2,
        to: 1,
    },
    Pair {
        group: 21,
        from: 2,
        to: 5,
    },
    Pair {
        group: 21,
        from: 4,
        to: 3,
    },
    Pair {
        group: 21,
        from: 4,
        to: 1,
    },
    Pair {
        group: 0,
        from: 3,
        to: 4,
    },
    Pair {
        group: 0,
        from: 1,
        to: 5,
    },
    Pair {
        group: 36,
        from: 2,
        to: 0,
    },
];

/// Pairs and states of devices.
pub(crate) type Case = (&'static [Pair], &'static [DeviceState]);

/// The pairs and the states of devices that each pool has in turn.
pub(crate) const CASES: &[Case] = &[
    (&[], &[]),
    (PAIRS, &[]),
    (&[], &[OUT_1, DOWN_2]),
    (PAIRS, &[OUT_1, DOWN_2]),
];

/// Makes the map whose root has six devices.
pub(crate) fn of_six(alloc: Global) -> Result<MapTables, Fail> {
    MapTables::of_text(alloc, OF_SIX)
}

/// Makes the map whose root has seven devices.
pub(crate) fn of_seven(alloc: Global) -> Result<MapTables, Fail> {
    MapTables::of_text(alloc, OF_SEVEN)
}
