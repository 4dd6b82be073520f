//! Reports on pools whose groups share places, each beside the plain form.

use crate::cases::{CASES, Case, DEVICES, ELEVEN, PAIRS, POOLS, of_seven, of_six};
use crate::plain::{all_placed, counted, gained, touches};
use crate::rules::assert_rule;
use crate::same::{assert_same, assert_same_at};
use crush_choose::Slot;
use crush_pool::{Pair, Placer};
use crush_report::{MoveRow, UsageRow, impact, moves, usage};
use pool_tests::maps::MapTables;
use pool_tests::placing::{Placed, PoolCase};
use pool_tests::pools::Short;
use std::alloc::Global;
use std::process::Abort;
use std::test::Fail;

// ---- usage

/// Asserts that the rows are those that are counted over placements.
fn assert_counted(rt: &impl Abort, rows: &[UsageRow], groups: &[Placed]) {
    assert_same(rt, &rows.len(), &7);
    for row in rows {
        assert_same(rt, row, &counted(groups, row.device));
    }
}

/// Asserts that the usage of a pool counts what is counted over its placements.
fn assert_usage(
    rt: &impl Abort,
    alloc: Global,
    placer: &Placer,
    case: &PoolCase,
) -> Result<(), Fail> {
    let groups = all_placed(alloc, placer, case.weights())?;
    let (map, pool, exceptions) = (placer.map(), placer.pool(), placer.exceptions());
    let rows = usage(alloc, map, pool, exceptions, case.states()).expect(rt, "error");
    assert_counted(rt, rows.as_slice(), groups.as_slice());
    Ok(())
}

fn assert_usage_of(
    rt: &impl Abort,
    alloc: Global,
    map: &MapTables,
    short: Short,
    (pairs, states): Case,
) -> Result<(), Fail> {
    let case = PoolCase::build(alloc, short, pairs, states)?;
    let Some(placer) = case.placer(map) else {
        return rt.abort();
    };
    assert_usage(rt, alloc, &placer, &case)
}

#[test]
fn usage_counts_each_group_that_shares_a_place(rt: HostRuntime) -> Result<(), Fail> {
    let map = of_seven(rt.alloc())?;
    for short in POOLS {
        for case in CASES {
            assert_usage_of(&rt, rt.alloc(), &map, *short, *case)?;
        }
    }
    Ok(())
}

// ---- moves

/// Asserts that the row has the lists `old` and `new`.
pub(crate) fn assert_lists(rt: &impl Abort, row: &MoveRow, old: &[Slot], new: &[Slot]) {
    assert_same(rt, &row.old.as_slice(), &old);
    assert_same(rt, &row.new.as_slice(), &new);
}

/// Asserts that the row is of the group `group`, with the lists `old` and `new`.
fn assert_row(rt: &impl Abort, row: &MoveRow, group: usize, old: &[Slot], new: &[Slot]) {
    assert_same(rt, &(row.group as usize), &group);
    assert_same(rt, &row.gained, &gained(old, new));
    assert_lists(rt, row, old, new);
}

/// Asserts that the rows are of the groups whose up lists differ.
fn assert_differing(rt: &impl Abort, rows: &[MoveRow], olds: &[Placed], news: &[Placed]) {
    let mut rest = rows;
    for (group, (old, new)) in olds.iter().zip(news.iter()).enumerate() {
        let (old, new) = (old.placement.up.as_slice(), new.placement.up.as_slice());
        if old != new {
            let [row, others @ ..] = rest else {
                return rt.abort();
            };
            assert_row(rt, row, group, old, new);
            rest = others;
        }
    }
    assert!(rt; rest.is_empty());
}

/// Asserts that the rows are of the groups of a pool whose placements on two maps differ.
fn assert_moved(
    rt: &impl Abort,
    alloc: Global,
    rows: &[MoveRow],
    (from, to): (&Placer, &Placer),
    case: &PoolCase,
) -> Result<(), Fail> {
    let olds = all_placed(alloc, from, case.weights())?;
    let news = all_placed(alloc, to, case.weights())?;
    assert_differing(rt, rows, olds.as_slice(), news.as_slice());
    Ok(())
}

/// Asserts that the groups of a pool that move are those whose placements differ.
fn assert_moves(
    rt: &impl Abort,
    alloc: Global,
    (from, to): (&Placer, &Placer),
    case: &PoolCase,
) -> Result<(), Fail> {
    let (pool, exceptions) = (to.pool(), to.exceptions());
    assert_rule(rt, from.map(), pool);
    let rows = moves(alloc, from.map(), to.map(), pool, exceptions, case.states()).expect(
        rt, "error",
    );
    assert_moved(rt, alloc, rows.as_slice(), (from, to), case)
}

fn assert_moves_of(
    rt: &impl Abort,
    alloc: Global,
    (from, to): (&MapTables, &MapTables),
    short: Short,
    (pairs, states): Case,
) -> Result<(), Fail> {
    let case = PoolCase::build(alloc, short, pairs, states)?;
    let (Some(from), Some(to)) = (case.placer(from), case.placer(to)) else {
        return rt.abort();
    };
    assert_moves(rt, alloc, (&from, &to), &case)
}

/// Asserts the same of each pool in each case.
fn assert_all_moves(
    rt: &impl Abort,
    alloc: Global,
    maps: (&MapTables, &MapTables),
) -> Result<(), Fail> {
    for short in POOLS {
        for case in CASES {
            assert_moves_of(rt, alloc, maps, *short, *case)?;
        }
    }
    Ok(())
}

#[test]
fn each_group_that_shares_a_place_moves_by_itself(rt: HostRuntime) -> Result<(), Fail> {
    let from = of_six(rt.alloc())?;
    let to = of_seven(rt.alloc())?;
    assert_all_moves(&rt, rt.alloc(), (&from, &to))
}

// ---- impact

/// Asserts that the groups are those that a device can touch.
fn assert_touched(rt: &impl Abort, found: &[u32], groups: &[Placed], pairs: &[Pair], device: u32) {
    let mut rest = found;
    for (group, placed) in groups.iter().enumerate() {
        if touches(placed, group, pairs, device) {
            let [first, others @ ..] = rest else {
                return rt.abort();
            };
            assert_same(rt, &(*first as usize), &group);
            rest = others;
        }
    }
    assert!(rt; rest.is_empty());
}

/// Asserts that the groups that a device can touch are those with it in their trace, and those of
/// which a pair leads to it.
fn assert_impact(
    rt: &impl Abort,
    alloc: Global,
    placer: &Placer,
    case: &PoolCase,
    groups: &[Placed],
) {
    let (map, pool, exceptions) = (placer.map(), placer.pool(), placer.exceptions());
    for device in 0..DEVICES {
        let found = impact(alloc, map, pool, exceptions, case.states(), device).expect(rt, "error");
        assert_touched(rt, found.as_slice(), groups, exceptions.pairs(), device);
    }
}

fn assert_impact_of(
    rt: &impl Abort,
    alloc: Global,
    map: &MapTables,
    short: Short,
    (pairs, states): Case,
) -> Result<(), Fail> {
    let case = PoolCase::build(alloc, short, pairs, states)?;
    let Some(placer) = case.placer(map) else {
        return rt.abort();
    };
    let groups = all_placed(alloc, &placer, case.weights())?;
    assert_impact(rt, alloc, &placer, &case, groups.as_slice());
    Ok(())
}

#[test]
fn a_device_can_touch_each_group_that_shares_a_place(rt: HostRuntime) -> Result<(), Fail> {
    let map = of_seven(rt.alloc())?;
    for short in POOLS {
        for case in CASES {
            assert_impact_of(&rt, rt.alloc(), &map, *short, *case)?;
        }
    }
    Ok(())
}

// ---- exceptions

/// Asserts that two groups have the same raw list, and the same up list or another.
fn assert_alike(rt: &impl Abort, groups: &[Placed], (group, other): (usize, usize), same: bool) {
    let (Some(first), Some(second)) = (groups.get(group), groups.get(other)) else {
        return rt.abort();
    };
    let (first, second) = (&first.placement, &second.placement);
    assert_same(rt, &first.raw.as_slice(), &second.raw.as_slice());
    let found = first.up.as_slice() == second.up.as_slice();
    assert_same_at(rt, [group as u64, other as u64], &found, &same);
}

/// Two groups, and whether they have the same up list.
const ALIKE: &[((usize, usize), bool)] = &[
    ((5, 29), true),
    ((5, 13), false),
    ((5, 21), false),
    ((13, 21), false),
    ((16, 32), true),
    ((0, 16), false),
];

/// Asserts that, on a map, the groups of a pool with `pairs` are alike as `ALIKE` says.
fn assert_alike_on(
    rt: &impl Abort,
    alloc: Global,
    map: &MapTables,
    short: Short,
    pairs: &[Pair],
) -> Result<(), Fail> {
    let case = PoolCase::build(alloc, short, pairs, &[])?;
    let Some(placer) = case.placer(map) else {
        return rt.abort();
    };
    let groups = all_placed(alloc, &placer, case.weights())?;
    for (pair, same) in ALIKE {
        assert_alike(rt, groups.as_slice(), *pair, *same);
    }
    Ok(())
}

/// The pairs of the cases take effect, and only on their own groups.
#[test]
fn groups_that_share_a_place_have_their_own_exceptions(rt: HostRuntime) -> Result<(), Fail> {
    let map = of_seven(rt.alloc())?;
    assert_alike_on(&rt, rt.alloc(), &map, ELEVEN, PAIRS)
}
