//! Placements of groups: the rule's answer, the devices of it that are up, the primary, and the
//! trace that a run leaves.

use crate::maps::{MapTables, THREE};
use crate::placing::{PoolCase, place_group, placement_by};
use crate::pools::{Short, TWELVE};
use crate::same::{assert_same, assert_same_at, assert_same_in};
use crate::states::{DOWN_0, DOWN_1, DOWN_2};
use crush_bucket::Scratch;
use crush_choose::{Out, Slot, Weights};
use crush_map::ItemId;
use crush_pool::{DeviceState, Pair, Placement, Placer, PoolFault};
use std::alloc::Global;
use std::process::Abort;
use std::test::Fail;
use text_tests::texts::{DEVICE_0, DEVICE_7};

/// A group of a pool, on the map of a text with exceptions and states, and its placement with the
/// trace that the run leaves.
#[derive(Clone, Copy)]
pub(crate) struct Case {
    pub(crate) what: &'static str,
    pub(crate) text: &'static str,
    pub(crate) pool: Short,
    pub(crate) pairs: &'static [Pair],
    pub(crate) states: &'static [DeviceState],
    pub(crate) group: u32,
    pub(crate) seed: u32,
    pub(crate) raw: &'static [Slot],
    pub(crate) up: &'static [Slot],
    pub(crate) primary: Slot,
    pub(crate) trace: &'static [u32],
}

/// Asserts that slots of a case are the expected ones.
fn assert_slots(rt: &impl Abort, slots: &[Slot], wanted: &[Slot], part: &str, case: &Case) {
    assert_eq!(rt; slots, wanted, "{part}: {}", case.what);
}

fn assert_placement(rt: &impl Abort, placement: &Placement, case: &Case) {
    assert_same_in(rt, case.what, &placement.seed, &case.seed);
    assert_slots(rt, placement.raw.as_slice(), case.raw, "raw", case);
    assert_slots(rt, placement.up.as_slice(), case.up, "up", case);
    assert_slots(rt, &[placement.primary], &[case.primary], "primary", case);
}

fn assert_out(rt: &impl Abort, out: &Out, case: &Case) {
    assert_slots(rt, out.items(), case.raw, "answer", case);
    assert_same_in(rt, case.what, &out.trace(), &case.trace);
}

pub(crate) fn assert_placed(rt: &impl Abort, alloc: Global, case: &Case) -> Result<(), Fail> {
    let map = MapTables::of_text(alloc, case.text)?;
    let pool = PoolCase::build(alloc, case.pool, case.pairs, case.states)?;
    let Some(placer) = pool.placer(&map) else {
        return rt.abort();
    };
    let placed = place_group(alloc, &placer, pool.weights(), case.group)?;
    assert_placement(rt, &placed.placement, case);
    assert_out(rt, &placed.out, case);
    Ok(())
}

pub(crate) const ZERO: Slot = Some(ItemId(0));

pub(crate) const ONE: Slot = Some(ItemId(1));

pub(crate) const TWO: Slot = Some(ItemId(2));

const SEVEN: Slot = Some(ItemId(7));

/// The group of an object without a name.
pub(crate) const NAMELESS: Case = Case {
    what: "of 12 groups, that of an object without a name",
    text: DEVICE_0,
    pool: TWELVE,
    pairs: &[],
    states: &[],
    group: 5,
    seed: 6,
    raw: &[ZERO],
    up: &[ZERO],
    primary: ZERO,
    trace: &[0],
};

/// A group whose seed is a hash.
pub(crate) const HASHED: Case = Case {
    what: "a group that is placed by a hash",
    pool: Short {
        pg_num: 8,
        pgp_num: 8,
        hashpspool: true,
        ..TWELVE
    },
    group: 0,
    seed: 91_478_055,
    ..NAMELESS
};

/// A pool on the map of three devices.
pub(crate) const OF_THREE: Short = Short { size: 3, ..TWELVE };

/// The same, erasure coded.
pub(crate) const CODED: Short = Short {
    erasure: true,
    ..OF_THREE
};

/// Three devices that are taken, and not chosen.
pub(crate) const ALL_UP: Case = Case {
    what: "three devices that are up",
    text: THREE,
    pool: OF_THREE,
    raw: &[ZERO, ONE, TWO],
    up: &[ZERO, ONE, TWO],
    trace: &[],
    ..NAMELESS
};

/// An erasure pool whose rule finds one device for two places.
const OF_ONE: Short = Short {
    rule: 1,
    size: 2,
    ..CODED
};

pub(crate) const SHORT: Case = Case {
    what: "of an erasure pool, a place without a device",
    pool: OF_ONE,
    raw: &[ZERO, None],
    up: &[ZERO, None],
    trace: &[0],
    ..ALL_UP
};

/// A rule that answers a bucket and a device.
pub(crate) const BUCKET: Case = Case {
    what: "a bucket in the answer is never up",
    pool: Short {
        rule: 2,
        ..OF_THREE
    },
    raw: &[Some(ItemId(-1)), TWO],
    up: &[TWO],
    primary: TWO,
    ..ALL_UP
};

/// The device 0 is out and up.
const OUT: &[DeviceState] = &[DeviceState {
    device: 0,
    reweight: 0,
    up: true,
}];

const CASES: &[Case] = &[
    NAMELESS,
    Case {
        what: "that of the object a",
        group: 8,
        seed: 9,
        ..NAMELESS
    },
    Case {
        what: "the last group",
        group: 11,
        seed: 12,
        ..NAMELESS
    },
    HASHED,
    Case {
        what: "another device",
        text: DEVICE_7,
        raw: &[SEVEN],
        up: &[SEVEN],
        primary: SEVEN,
        trace: &[7],
        ..HASHED
    },
    ALL_UP,
    Case {
        what: "three devices that are up, of an erasure pool",
        pool: CODED,
        ..ALL_UP
    },
    Case {
        what: "the second is down",
        states: &[DOWN_1],
        up: &[ZERO, TWO],
        ..ALL_UP
    },
    Case {
        what: "the first is down",
        states: &[DOWN_0],
        up: &[ONE, TWO],
        primary: ONE,
        ..ALL_UP
    },
    Case {
        what: "all are down",
        states: &[DOWN_2, DOWN_0, DOWN_1],
        up: &[],
        primary: None,
        ..ALL_UP
    },
    Case {
        what: "of an erasure pool the second is down",
        pool: CODED,
        states: &[DOWN_1],
        up: &[ZERO, None, TWO],
        ..ALL_UP
    },
    Case {
        what: "of an erasure pool the first is down",
        pool: CODED,
        states: &[DOWN_0],
        up: &[None, ONE, TWO],
        primary: ONE,
        ..ALL_UP
    },
    Case {
        what: "of an erasure pool all are down",
        pool: CODED,
        states: &[DOWN_2, DOWN_0, DOWN_1],
        up: &[None, None, None],
        primary: None,
        ..ALL_UP
    },
    SHORT,
    Case {
        what: "of a replicated pool, a place without a device",
        pool: Short {
            erasure: false,
            ..OF_ONE
        },
        up: &[ZERO],
        ..SHORT
    },
    Case {
        what: "a place without a device, and a device that is down",
        states: &[DOWN_0],
        up: &[None, None],
        primary: None,
        ..SHORT
    },
    BUCKET,
    Case {
        what: "of an erasure pool, a bucket in the answer is never up",
        pool: Short { rule: 2, ..CODED },
        up: &[None, TWO],
        ..BUCKET
    },
    Case {
        what: "a rule that answers a device twice, and nothing else",
        pool: Short {
            rule: 3,
            ..OF_THREE
        },
        raw: &[ONE, ONE],
        up: &[ONE, ONE],
        primary: ONE,
        ..ALL_UP
    },
    Case {
        what: "a pool of one copy over three devices",
        pool: TWELVE,
        raw: &[ZERO],
        up: &[ZERO],
        ..ALL_UP
    },
    Case {
        what: "a device that is out isn't chosen",
        states: OUT,
        raw: &[],
        up: &[],
        primary: None,
        trace: &[],
        ..NAMELESS
    },
    Case {
        what: "a device that is out is taken",
        states: OUT,
        ..ALL_UP
    },
];

#[test]
fn groups_are_placed(rt: HostRuntime) -> Result<(), Fail> {
    for case in CASES {
        assert_placed(&rt, rt.alloc(), case)?;
    }
    Ok(())
}

/// Asserts that the pool of a placer has no group `group`.
fn assert_past(
    rt: &impl Abort,
    alloc: Global,
    placer: &Placer,
    weights: &Weights,
    group: u32,
) -> Result<(), Fail> {
    let mut scratch = Scratch::build(alloc, placer.tables())?;
    let past = placement_by(alloc, placer, weights, &mut scratch, group)?;
    assert_same(rt, &past.err(), &Some(PoolFault::P2));
    Ok(())
}

/// Asserts that a pool without exceptions has no group with the number of its groups, on the map.
fn assert_end(rt: &impl Abort, alloc: Global, map: &MapTables, short: Short) -> Result<(), Fail> {
    let pool = PoolCase::build(alloc, short, &[], &[])?;
    let Some(placer) = pool.placer(map) else {
        return rt.abort();
    };
    assert_past(rt, alloc, &placer, pool.weights(), short.pg_num)
}

#[test]
fn groups_end_below_pg_num(rt: HostRuntime) -> Result<(), Fail> {
    let map = MapTables::of_text(rt.alloc(), DEVICE_0)?;
    assert_end(&rt, rt.alloc(), &map, TWELVE)
}

/// Asserts that a pool with the rule `rule` has a placer on a map, or none.
fn assert_placer(
    rt: &impl Abort,
    alloc: Global,
    map: &MapTables,
    rule: u32,
    there: bool,
) -> Result<(), Fail> {
    let pool = PoolCase::build(alloc, Short { rule, ..TWELVE }, &[], &[])?;
    assert_same_at(
        rt,
        [u64::from(rule), 0],
        &pool.placer(map).is_some(),
        &there,
    );
    Ok(())
}

#[test]
fn a_pool_has_a_placer_where_the_map_has_its_rule(rt: HostRuntime) -> Result<(), Fail> {
    let map = MapTables::of_text(rt.alloc(), THREE)?;
    for (rule, there) in [(0, true), (3, true), (4, false)] {
        assert_placer(&rt, rt.alloc(), &map, rule, there)?;
    }
    Ok(())
}
