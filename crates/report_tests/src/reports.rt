//! Reports on a pool, by maps, exceptions and states of devices.

use crate::rules::assert_rule;
use crate::same::assert_same;
use crush_map::CrushMap;
use crush_pool::{DeviceState, Pair, Placer};
use crush_report::{impact, moves, moves_csv, usage, usage_csv};
use pool_tests::maps::{MapTables, TWO};
use pool_tests::placing::PoolCase;
use pool_tests::pools::{OF_TWO, Short};
use pool_tests::states::{DOWN_0, OUT_1};
use std::alloc::Global;
use std::process::Abort;
use std::test::Fail;
use text_tests::texts::{DEVICE_0, DEVICE_7, map_of};

/// A pool of eight groups.
const OF_EIGHT: Short = Short {
    pg_num: 8,
    pgp_num: 8,
    ..OF_TWO
};

/// Asserts that the usage of a placer's pool is `csv`.
fn assert_used(
    rt: &impl Abort,
    alloc: Global,
    placer: &Placer,
    states: &[DeviceState],
    csv: &[u8],
) {
    let (map, pool, exceptions) = (placer.map(), placer.pool(), placer.exceptions());
    let rows = usage(alloc, map, pool, exceptions, states).expect(rt, "error");
    let text = usage_csv(alloc, rows.as_slice()).expect(rt, "error");
    assert!(rt; text.as_slice() == csv);
}

/// Pairs, states of devices, and the CSV of the usage.
type Used = (&'static [Pair], &'static [DeviceState], &'static [u8]);

/// Asserts that the usage of a pool of eight groups on a map is what the row says.
fn assert_usage(
    rt: &impl Abort,
    alloc: Global,
    map: &MapTables,
    (pairs, states, csv): Used,
) -> Result<(), Fail> {
    let case = PoolCase::build(alloc, OF_EIGHT, pairs, states)?;
    let Some(placer) = case.placer(map) else {
        return rt.abort();
    };
    assert_used(rt, alloc, &placer, states, csv);
    Ok(())
}

/// On the map of the device 0.
const BY_ONE: &[Used] = &[
    (
        &[],
        &[],
        b"device,groups,entries,primaries,permille\n0,8,8,8,1000\n",
    ),
    (
        &[],
        &[DOWN_0],
        b"device,groups,entries,primaries,permille\n0,0,0,0,0\n",
    ),
];

#[test]
fn a_pool_of_one_device_is_used_by_it_alone(rt: HostRuntime) -> Result<(), Fail> {
    let map = MapTables::of_text(rt.alloc(), DEVICE_0)?;
    for row in BY_ONE {
        assert_usage(&rt, rt.alloc(), &map, *row)?;
    }
    Ok(())
}

/// The group 0 has the device 1 in the place of the device 0.
const TO_1: Pair = Pair {
    group: 0,
    from: 0,
    to: 1,
};

/// On the map of two devices.
const BY_TWO: &[Used] = &[
    (
        &[],
        &[],
        b"device,groups,entries,primaries,permille\n0,8,8,8,1000\n1,0,0,0,0\n",
    ),
    (
        &[TO_1, Pair { group: 7, ..TO_1 }],
        &[],
        b"device,groups,entries,primaries,permille\n0,6,6,6,750\n1,2,2,2,250\n",
    ),
];

#[test]
fn a_device_that_a_pair_leads_to_is_used(rt: HostRuntime) -> Result<(), Fail> {
    let map = MapTables::of_text(rt.alloc(), TWO)?;
    for row in BY_TWO {
        assert_usage(&rt, rt.alloc(), &map, *row)?;
    }
    Ok(())
}

/// Asserts that what moves of a pool from one map to another is `csv`.
fn assert_moved(rt: &impl Abort, alloc: Global, from: &CrushMap, to: &Placer, csv: &[u8]) {
    let (pool, exceptions) = (to.pool(), to.exceptions());
    assert_rule(rt, from, pool);
    let rows = moves(alloc, from, to.map(), pool, exceptions, &[]).expect(rt, "error");
    let text = moves_csv(alloc, rows.as_slice()).expect(rt, "error");
    assert!(rt; text.as_slice() == csv);
}

/// The texts of two maps, pairs, and the CSV of what moves from the first map to the second.
type Moved = (&'static str, &'static str, &'static [Pair], &'static [u8]);

/// Asserts that, with exceptions, what moves of a pool of two groups between two maps is `csv`.
fn assert_moves(
    rt: &impl Abort,
    alloc: Global,
    (from, to): (&CrushMap, &MapTables),
    pairs: &[Pair],
    csv: &[u8],
) -> Result<(), Fail> {
    let case = PoolCase::build(alloc, OF_TWO, pairs, &[])?;
    let Some(to) = case.placer(to) else {
        return rt.abort();
    };
    assert_moved(rt, alloc, from, &to, csv);
    Ok(())
}

/// Asserts that what moves of a pool of two groups between the maps of a row is what it says.
fn assert_moves_of(rt: &impl Abort, alloc: Global, row: &Moved) -> Result<(), Fail> {
    let (from, to, pairs, csv) = *row;
    let (from, to) = (map_of(alloc, from)?, MapTables::of_text(alloc, to)?);
    assert_moves(rt, alloc, (&from, &to), pairs, csv)
}

/// Two maps of one device each.
const TO_ANOTHER: &[Moved] = &[
    (
        DEVICE_0,
        DEVICE_7,
        &[],
        b"group,gained,old,new\n0,1,0,7\n1,1,0,7\n",
    ),
    (DEVICE_7, DEVICE_7, &[], b"group,gained,old,new\n"),
];

#[test]
fn groups_move_to_the_device_of_another_map(rt: HostRuntime) -> Result<(), Fail> {
    for row in TO_ANOTHER {
        assert_moves_of(&rt, rt.alloc(), row)?;
    }
    Ok(())
}

/// The pair has no effect on the map of the device 0, which has no device 1.
const BY_A_PAIR: &[Moved] = &[
    (DEVICE_0, TWO, &[TO_1], b"group,gained,old,new\n0,1,0,1\n"),
    (TWO, TWO, &[TO_1], b"group,gained,old,new\n"),
];

#[test]
fn a_group_moves_where_its_pair_takes_effect_on_one_map(rt: HostRuntime) -> Result<(), Fail> {
    for row in BY_A_PAIR {
        assert_moves_of(&rt, rt.alloc(), row)?;
    }
    Ok(())
}

/// The device 0 is out and down.
const OUT_0: DeviceState = DeviceState {
    reweight: 0,
    ..DOWN_0
};

/// Pairs, states of devices, a device, and the groups that it can touch.
type Row = (&'static [Pair], &'static [DeviceState], u32, &'static [u32]);

/// Asserts that the groups of a placer's pool that a device can touch are `wanted`.
fn assert_touched(
    rt: &impl Abort,
    alloc: Global,
    placer: &Placer,
    states: &[DeviceState],
    device: u32,
    wanted: &[u32],
) {
    let (map, pool, exceptions) = (placer.map(), placer.pool(), placer.exceptions());
    let groups = impact(alloc, map, pool, exceptions, states, device).expect(rt, "error");
    assert_same(rt, &groups.as_slice(), &wanted);
}

/// Asserts that, on the map of a text, with the pairs and the states, the groups of a pool of two
/// that the device can touch are those of the row.
fn assert_impact(
    rt: &impl Abort,
    alloc: Global,
    map: &MapTables,
    (pairs, states, device, wanted): Row,
) -> Result<(), Fail> {
    let case = PoolCase::build(alloc, OF_TWO, pairs, states)?;
    let Some(placer) = case.placer(map) else {
        return rt.abort();
    };
    assert_touched(rt, alloc, &placer, states, device, wanted);
    Ok(())
}

/// On the map of the device 0.
const OF_DEVICE_0: &[Row] = &[
    (&[], &[], 0, &[0, 1]),
    (&[], &[DOWN_0], 0, &[0, 1]),
    (&[], &[OUT_0], 0, &[]),
    (&[], &[], 1, &[]),
];

#[test]
fn a_device_that_is_down_can_touch_groups_and_one_that_is_out_none(
    rt: HostRuntime,
) -> Result<(), Fail> {
    let map = MapTables::of_text(rt.alloc(), DEVICE_0)?;
    for row in OF_DEVICE_0 {
        assert_impact(&rt, rt.alloc(), &map, *row)?;
    }
    Ok(())
}

/// The group 1 has the device 0 in the place of the device 1.
const BACK: Pair = Pair {
    group: 1,
    from: 1,
    to: 0,
};

/// On the map of two devices.
const LED_TO: &[Row] = &[
    (&[], &[], 1, &[]),
    (&[TO_1], &[], 1, &[0]),
    (&[TO_1], &[OUT_1], 1, &[0]),
    (&[TO_1, TO_1], &[], 1, &[0]),
    (&[TO_1], &[], 0, &[0, 1]),
    (&[TO_1, BACK], &[], 0, &[0, 1]),
    (&[BACK], &[OUT_0], 0, &[1]),
    (&[TO_1, BACK], &[], 2, &[]),
];

#[test]
fn a_device_can_touch_the_groups_of_which_a_pair_leads_to_it(rt: HostRuntime) -> Result<(), Fail> {
    let map = MapTables::of_text(rt.alloc(), TWO)?;
    for row in LED_TO {
        assert_impact(&rt, rt.alloc(), &map, *row)?;
    }
    Ok(())
}
