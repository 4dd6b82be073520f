//! Rules with enough tries that a call asks whether any can still succeed: where none can it gives
//! up, and where one can, however late, it goes on. The answers are those of
//! `tests/model/choosing.py`, which makes every try.

use crate::drafts::{ONE, SOUND, Short, choose, draft, generated};
use crate::examples::{Example, NOTHING, SEVEN};
use crate::rules::{MAPS, TAKE, ask, three_levels};
use crate::same::assert_same;
use Kind::{List, Tree, Uniform};
use crush_map::{ItemId, Kind, Step};
use std::test::Fail;

const OUT: &[(u32, u32)] = &[(0, 0)];

/// Device 1 is picked about once in 65 tries, and device 0 is out.
const LATE: Example<'static> = Example {
    buckets: &[(-1, "root", 10, List, &[(0, 64 * ONE), (1, ONE)])],
    reweights: OUT,
    items: &[Some(ItemId(1))],
    trace: &[1],
    ..NOTHING
};

/// The same devices in a host.
const LATE_LEAF: Example<'static> = Example {
    buckets: &[
        (-1, "host", 1, List, &[(0, 64 * ONE), (1, ONE)]),
        (-2, "root", 10, List, &[(-1, 65 * ONE)]),
    ],
    ..LATE
};

/// The same devices in a host each.
const LATE_HOST: Example<'static> = Example {
    buckets: &[
        (-1, "first", 1, List, &[(0, ONE)]),
        (-2, "second", 1, List, &[(1, ONE)]),
        (-3, "root", 10, List, &[(-1, 64 * ONE), (-2, ONE)]),
    ],
    ..LATE
};

/// A host beside a device, at which a walk to a host ends in vain.
const DEVICE_BESIDE: Example<'static> = Example {
    buckets: &[
        (-1, "host", 1, List, &[(0, ONE)]),
        (-2, "root", 10, List, &[(-1, 4_096 * ONE), (1, ONE)]),
    ],
    size: 3,
    inputs: 16,
    ..NOTHING
};

/// A device without weight is below each bucket, and in; no list picks it.
const NEVER_PICKED: Example<'static> = Example {
    buckets: &[
        (-1, "host", 1, List, &[(0, ONE), (1, 0)]),
        (-2, "root", 10, List, &[(-1, ONE)]),
    ],
    reweights: OUT,
    inputs: 16,
    ..NOTHING
};

/// A device of which every bucket on the way has no weight is picked all the same.
const WITHOUT_WEIGHT: Example<'static> = Example {
    buckets: &[
        (-1, "host", 1, List, &[(1, 0), (0, 0)]),
        (-2, "root", 10, Tree, &[(-1, 0)]),
    ],
    reweights: OUT,
    items: &[Some(ItemId(1))],
    trace: &[1],
    ..NOTHING
};

/// Two racks of one host, whose devices are the same.
const SHARED: Example<'static> = Example {
    buckets: &[
        (-1, "host", 1, Uniform, &[(0, ONE), (1, ONE)]),
        (-2, "left", 3, List, &[(-1, 2 * ONE)]),
        (-3, "right", 3, List, &[(-1, 2 * ONE)]),
        (-4, "root", 10, Uniform, &[(-2, 2 * ONE), (-3, 2 * ONE)]),
    ],
    reweights: OUT,
    size: 4,
    inputs: 64,
    ..NOTHING
};

const EXAMPLES: &[Example] = &[
    Example {
        steps: &[
            Step::SetChooseTries(1_000),
            Step::Take(ItemId(-1)),
            choose!(true, false, 1, 0),
            Step::Emit,
        ],
        ..LATE
    },
    Example {
        steps: &[
            Step::SetChooseTries(1_000),
            Step::Take(ItemId(-1)),
            choose!(false, false, 1, 0),
            Step::Emit,
        ],
        ..LATE
    },
    Example {
        steps: &[
            Step::SetLeafTries(1_000),
            Step::Take(ItemId(-2)),
            choose!(true, true, 1, 1),
            Step::Emit,
        ],
        ..LATE_LEAF
    },
    Example {
        steps: &[
            Step::SetLeafTries(1_000),
            Step::Take(ItemId(-2)),
            choose!(false, true, 1, 1),
            Step::Emit,
        ],
        ..LATE_LEAF
    },
    Example {
        steps: &[
            Step::SetChooseTries(1_000),
            Step::Take(ItemId(-3)),
            choose!(true, true, 1, 1),
            Step::Emit,
        ],
        ..LATE_HOST
    },
    Example {
        steps: &[
            Step::SetChooseTries(1_000),
            Step::Take(ItemId(-3)),
            choose!(false, true, 1, 1),
            Step::Emit,
        ],
        ..LATE_HOST
    },
    // a host is chosen once, whatever ends the further tries
    Example {
        steps: &[
            Step::SetChooseTries(1_000),
            Step::Take(ItemId(-2)),
            choose!(true, false, 0, 1),
            Step::Emit,
        ],
        items: &[Some(ItemId(-1))],
        ..DEVICE_BESIDE
    },
    Example {
        steps: &[
            Step::SetChooseTries(1_000),
            Step::Take(ItemId(-2)),
            choose!(false, false, 0, 1),
            Step::Emit,
        ],
        items: &[Some(ItemId(-1)), None, None],
        ..DEVICE_BESIDE
    },
    Example {
        steps: &[
            Step::SetChooseTries(1_000),
            Step::SetLeafTries(1_000),
            Step::Take(ItemId(-2)),
            choose!(true, true, 0, 1),
            Step::Emit,
        ],
        reweights: OUT,
        ..DEVICE_BESIDE
    },
    Example {
        steps: &[
            Step::SetChooseTries(1_000),
            Step::SetLeafTries(1_000),
            Step::Take(ItemId(-2)),
            choose!(false, true, 0, 1),
            Step::Emit,
        ],
        reweights: OUT,
        items: &[None, None, None],
        ..DEVICE_BESIDE
    },
    Example {
        steps: &[
            Step::SetChooseTries(200),
            Step::Take(ItemId(-2)),
            choose!(true, false, 0, 0),
            Step::Emit,
        ],
        ..NEVER_PICKED
    },
    Example {
        steps: &[
            Step::SetLeafTries(200),
            Step::Take(ItemId(-2)),
            choose!(false, true, 0, 1),
            Step::Emit,
        ],
        items: &[None],
        ..NEVER_PICKED
    },
    Example {
        steps: &[
            Step::SetChooseTries(1_000),
            Step::Take(ItemId(-2)),
            choose!(true, false, 0, 0),
            Step::Emit,
        ],
        ..WITHOUT_WEIGHT
    },
    // what one call chose can be chosen by the next
    Example {
        steps: &[
            Step::SetChooseTries(1_000),
            Step::SetLeafTries(1_000),
            Step::Take(ItemId(-4)),
            choose!(true, false, 2, 3),
            choose!(true, true, 2, 1),
            Step::Emit,
        ],
        items: &[Some(ItemId(1)), Some(ItemId(1))],
        trace: &[1],
        ..SHARED
    },
    Example {
        steps: &[
            Step::SetChooseTries(1_000),
            Step::SetLeafTries(1_000),
            Step::Take(ItemId(-4)),
            choose!(true, false, 2, 3),
            choose!(false, true, 2, 1),
            Step::Emit,
        ],
        items: &[Some(ItemId(1)), None, Some(ItemId(1)), None],
        trace: &[1],
        ..SHARED
    },
];

/// Of 36 devices only each seventh is in.
const MOST_OUT: &[(u32, u32)] = &[
    (1, 0),
    (2, 0),
    (3, 0),
    (4, 0),
    (5, 0),
    (6, 0),
    (8, 0),
    (9, 0),
    (10, 0),
    (11, 0),
    (12, 0),
    (13, 0),
    (15, 0),
    (16, 0),
    (17, 0),
    (18, 0),
    (19, 0),
    (20, 0),
    (22, 0),
    (23, 0),
    (24, 0),
    (25, 0),
    (26, 0),
    (27, 0),
    (29, 0),
    (30, 0),
    (31, 0),
    (32, 0),
    (33, 0),
    (34, 0),
];

/// Of 36 devices few are in for an input.
const SLIGHT: &[(u32, u32)] = &[
    (0, 3_000),
    (1, 3_000),
    (2, 3_000),
    (3, 3_000),
    (4, 3_000),
    (5, 3_000),
    (6, 3_000),
    (7, 3_000),
    (8, 3_000),
    (9, 3_000),
    (10, 3_000),
    (11, 3_000),
    (12, 3_000),
    (13, 3_000),
    (14, 3_000),
    (15, 3_000),
    (16, 3_000),
    (17, 3_000),
    (18, 3_000),
    (19, 3_000),
    (20, 3_000),
    (21, 3_000),
    (22, 3_000),
    (23, 3_000),
    (24, 3_000),
    (25, 3_000),
    (26, 3_000),
    (27, 3_000),
    (28, 3_000),
    (29, 3_000),
    (30, 3_000),
    (31, 3_000),
    (32, 3_000),
    (33, 3_000),
    (34, 3_000),
    (35, 3_000),
];

const LEAVES_IN_ORDER: &[Step] = &[
    Step::SetChooseTries(300),
    Step::SetLeafTries(100),
    TAKE,
    choose!(true, true, 0, 1),
    Step::Emit,
];

const LEAVES_IN_PLACE: &[Step] = &[
    Step::SetChooseTries(300),
    Step::SetLeafTries(100),
    TAKE,
    choose!(false, true, 0, 1),
    Step::Emit,
];

const DEVICES_IN_ORDER: &[Step] = &[
    Step::SetChooseTries(1_000),
    TAKE,
    choose!(true, false, 0, 0),
    Step::Emit,
];

const DEVICES_IN_PLACE: &[Step] = &[
    Step::SetChooseTries(1_000),
    TAKE,
    choose!(false, false, 0, 0),
    Step::Emit,
];

const HOSTS_OF_RACKS: &[Step] = &[
    Step::SetChooseTries(1_000),
    TAKE,
    choose!(true, false, 0, 3),
    choose!(false, false, 6, 1),
    Step::Emit,
];

/// Rules with reweights and the size of their answers, and for each of four maps the answers for
/// the inputs 0 to 3, folded.
const SUMS: &[(&[Step], &[(u32, u32)], u32, [u64; 4])] = &[
    (
        LEAVES_IN_ORDER,
        MOST_OUT,
        16,
        [
            3_577_398_917_360_004_214,
            958_001_635_594_755_712,
            14_664_725_527_935_557_504,
            8_136_975_282_405_523_200,
        ],
    ),
    (
        LEAVES_IN_PLACE,
        MOST_OUT,
        16,
        [
            11_083_922_787_035_678_368,
            10_364_803_421_780_553_116,
            15_337_441_108_478_319_008,
            12_606_084_878_861_885_430,
        ],
    ),
    (
        DEVICES_IN_ORDER,
        MOST_OUT,
        32,
        [
            1_432_838_330_428,
            18_195_878_305_208_355_382,
            10_654_078_172_353_107_020,
            16_366_212_301_635_384_484,
        ],
    ),
    (
        DEVICES_IN_PLACE,
        MOST_OUT,
        32,
        [
            12_371_732_024_613_815_866,
            10_953_990_537_790_363_902,
            11_130_423_618_314_994_592,
            3_407_920_135_006_816_946,
        ],
    ),
    (
        HOSTS_OF_RACKS,
        MOST_OUT,
        32,
        [
            194_150_486_142_071_420,
            5_548_178_931_762_100_358,
            15_998_415_292_586_690_684,
            3_713_768_857_115_705_036,
        ],
    ),
    (
        LEAVES_IN_ORDER,
        SLIGHT,
        16,
        [
            54_887_669_217_498,
            62_316_074_700_108,
            62_316_075_014_928,
            54_887_669_783_838,
        ],
    ),
    (
        LEAVES_IN_PLACE,
        SLIGHT,
        16,
        [
            13_371_822_032_800_522_830,
            9_906_265_172_222_031_150,
            5_155_113_994_875_614_926,
            9_307_894_318_859_997_012,
        ],
    ),
    (
        DEVICES_IN_ORDER,
        SLIGHT,
        32,
        [
            1_842_424_441,
            62_316_075_104_298,
            54_887_669_217_498,
            54_887_669_303_988,
        ],
    ),
    (
        DEVICES_IN_PLACE,
        SLIGHT,
        32,
        [
            5_073_386_831_745_826_841,
            14_842_378_345_308_897_518,
            13_080_765_559_897_161_422,
            7_083_561_541_025_157_490,
        ],
    ),
];

#[test]
fn a_call_gives_up_where_no_try_can_succeed_and_not_before(rt: HostRuntime) -> Result<(), Fail> {
    let alloc = rt.alloc();
    for example in EXAMPLES {
        let short = Short {
            devices: SEVEN,
            buckets: example.buckets,
            rules: &[(0, "rule", example.steps)],
            tunables: example.tunables,
            ..SOUND
        };
        ask(
            &rt,
            alloc,
            draft(alloc, short)?,
            example.reweights,
            example.size,
            example.inputs,
            Some((example.items, example.trace)),
        )?;
    }
    Ok(())
}

#[test]
fn more_is_asked_for_than_there_is(rt: HostRuntime) -> Result<(), Fail> {
    let alloc = rt.alloc();
    for (steps, given, size, sums) in SUMS {
        for ((kinds, tunables), sum) in MAPS.iter().zip(sums) {
            let short = Short {
                rules: &[(0, "rule", steps)],
                tunables: *tunables,
                ..SOUND
            };
            let buckets = three_levels(alloc, *kinds)?;
            let draft = generated(alloc, short, 36, buckets)?;
            let answered = ask(&rt, alloc, draft, given, *size, 4, None)?;
            assert_same(&rt, &answered, sum);
        }
    }
    Ok(())
}
