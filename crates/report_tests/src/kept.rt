//! What is kept of a pool between requests, beside the reports that are made from nothing.

use crate::cases::{CASES, Case, DEVICES, POOLS, of_seven, of_six};
use crate::places::assert_lists;
use crate::rules::assert_rule;
use crate::same::assert_same;
use crush_pool::Placer;
use crush_report::{MoveRow, Touches, UpLists, impact, moves, moves_from};
use pool_tests::maps::MapTables;
use pool_tests::placing::PoolCase;
use pool_tests::pools::{Short, TWELVE};
use std::alloc::Global;
use std::process::Abort;
use std::test::Fail;

/// Asserts that two lists of rows are the same.
fn assert_all_same(rt: &impl Abort, first: &[MoveRow], second: &[MoveRow]) {
    assert_same(rt, &first.len(), &second.len());
    for (one, other) in first.iter().zip(second.iter()) {
        assert_same(rt, &one.group, &other.group);
        assert_same(rt, &one.gained, &other.gained);
        assert_lists(rt, one, other.old.as_slice(), other.new.as_slice());
    }
}

/// Asserts that what moves from kept lists to the map of a placer is what moves from the map of the
/// lists.
fn assert_moved(
    rt: &impl Abort,
    alloc: Global,
    lists: &UpLists,
    (from, to): (&Placer, &Placer),
    case: &PoolCase,
) {
    let (pool, exceptions) = (to.pool(), to.exceptions());
    assert_rule(rt, from.map(), pool);
    let rows = moves(alloc, from.map(), to.map(), pool, exceptions, case.states()).expect(
        rt, "error",
    );
    let found = moves_from(alloc, lists, to).expect(rt, "error");
    assert_all_same(rt, found.as_slice(), rows.as_slice());
}

/// Asserts that what moves between two maps is what moves from the lists that are kept of the
/// first.
fn assert_kept_lists(
    rt: &impl Abort,
    alloc: Global,
    (from, to): (&Placer, &Placer),
    case: &PoolCase,
) {
    match UpLists::build(alloc, from).expect(rt, "error") {
        Some(lists) => assert_moved(rt, alloc, &lists, (from, to), case),
        None => rt.abort(),
    }
}

/// Asserts that the groups that are kept of a device are those of its impact list.
fn assert_groups(
    rt: &impl Abort,
    alloc: Global,
    touches: &Touches,
    device: u32,
    placer: &Placer,
    case: &PoolCase,
) {
    let (map, pool, exceptions) = (placer.map(), placer.pool(), placer.exceptions());
    let groups = impact(alloc, map, pool, exceptions, case.states(), device).expect(rt, "error");
    let found = touches.groups_of(alloc, device).expect(rt, "error");
    assert_same(rt, &found.as_slice(), &groups.as_slice());
}

/// Asserts that the groups that are kept of each device are those of its impact list.
fn assert_touches(rt: &impl Abort, alloc: Global, placer: &Placer, case: &PoolCase) {
    let Some(touches) = Touches::build(alloc, placer).expect(rt, "error") else {
        return rt.abort();
    };
    for device in 0..DEVICES {
        assert_groups(rt, alloc, &touches, device, placer, case);
    }
}

/// Asserts that what is kept of a pool answers as the reports do.
fn assert_kept(
    rt: &impl Abort,
    alloc: Global,
    (from, to): (&MapTables, &MapTables),
    short: Short,
    (pairs, states): Case,
) -> Result<(), Fail> {
    let case = PoolCase::build(alloc, short, pairs, states)?;
    let (Some(from), Some(to)) = (case.placer(from), case.placer(to)) else {
        return rt.abort();
    };
    assert_kept_lists(rt, alloc, (&from, &to), &case);
    assert_touches(rt, alloc, &to, &case);
    Ok(())
}

/// Asserts the same of each pool in each case.
fn assert_all_kept(
    rt: &impl Abort,
    alloc: Global,
    maps: (&MapTables, &MapTables),
) -> Result<(), Fail> {
    for short in POOLS {
        for case in CASES {
            assert_kept(rt, alloc, maps, *short, *case)?;
        }
    }
    Ok(())
}

#[test]
fn what_is_kept_answers_as_reports_do(rt: HostRuntime) -> Result<(), Fail> {
    let from = of_six(rt.alloc())?;
    let to = of_seven(rt.alloc())?;
    assert_all_kept(&rt, rt.alloc(), (&from, &to))
}

/// A pool whose groups have more slots than are kept.
const GREAT: Short = Short {
    size: 32,
    pg_num: 65_536,
    pgp_num: 1,
    erasure: true,
    rule: 1,
    ..TWELVE
};

/// Asserts that no lists are kept of a placer's pool.
fn assert_none_kept(rt: &impl Abort, alloc: Global, placer: &Placer) {
    let found = UpLists::build(alloc, placer).expect(rt, "error");
    assert!(rt; found.is_none());
}

/// Asserts that no lists are kept of a pool on a map.
fn assert_none_kept_of(
    rt: &impl Abort,
    alloc: Global,
    map: &MapTables,
    short: Short,
) -> Result<(), Fail> {
    let case = PoolCase::build(alloc, short, &[], &[])?;
    let Some(placer) = case.placer(map) else {
        return rt.abort();
    };
    assert_none_kept(rt, alloc, &placer);
    Ok(())
}

#[test]
fn lists_with_more_slots_than_the_limit_are_not_kept(rt: HostRuntime) -> Result<(), Fail> {
    let map = of_six(rt.alloc())?;
    assert_none_kept_of(&rt, rt.alloc(), &map, GREAT)
}
