//! Calls of `crush_pool`, `crush_report` and `crush_cache`.

ghost use Rattle.std.specs.Prelude.{◌≡◌, IfOk, is_some, true};
ghost use Rattle.crush_bucket.specs.Tables.{tables_of};
ghost use Rattle.crush_pool.specs.Contents.{content_of};
ghost use Rattle.crush_pool.specs.Exceptions.{are_pairs};
ghost use Rattle.crush_pool.specs.Placements.{rule_numbered};
ghost use Rattle.crush_text.specs.crush_writing.specs.Canonical.{canonical};

use crate::same::assert_same;
use crush_bucket::{Scratch, Tables};
use crush_cache::{Content, PlacementCache, SharedExceptions, SharedStates, SharedText};
use crush_choose::{Slot, Weights};
use crush_map::{CrushMap, ItemId, Text};
use crush_pool::{
    DeviceState, DeviceStates, Exceptions, Pair, Placement, Placer, Pool, PoolFault, PoolParts,
    mask_of, place, reweights_of, rule_with_id, stable_mod,
};
use crush_report::{
    CsvFault, DeviceChange, impact, moves, moves_csv, read_device_csv, usage, usage_csv,
};
use crush_text::write_map;
use std::alloc::{AllocError, Global};
use std::num::NonZeroUsize;
use std::process::Abort;
use std::rc::Rc;
use std::test::Fail;
use text_tests::texts::{DEVICE_0, DEVICE_7, map_of};

/// Makes the parts of pool 1, which is replicated, with one device a group by rule 0.
fn parts(
    alloc: Global,
    name: &str,
    pg_num: u32,
    hashpspool: bool,
) -> Result<PoolParts, AllocError> {
    Ok(PoolParts {
        id: 1,
        name: Text::copy(alloc, name)?,
        erasure: false,
        size: 1,
        rule: 0,
        pg_num,
        pgp_num: pg_num,
        hashpspool,
    })
}

/// Makes the pool of these parts, with the name `rbd`.
fn pool(alloc: Global, pg_num: u32, hashpspool: bool) -> Result<Pool, Fail> {
    match Pool::new(parts(alloc, "rbd", pg_num, hashpspool)?) {
        Ok(pool) => Ok(pool),
        Err(_) => Err(Fail::new("the pool is refused")),
    }
}

/// Returns whether `placement` is that of the device 0 alone, with `seed`.
fn is_on_0(placement: &Placement, seed: u32) -> bool {
    let device: Slot = Some(ItemId(0));
    placement.seed == seed
        && placement.raw.as_slice() == [device].as_slice()
        && placement.up.as_slice() == [device].as_slice()
        && placement.primary == device
}

/// The object without a name has the hash 3175731469, so it is in group 5 of 12; the seed is the
/// group's place and the pool's id. Of a pool with hashed seeds group 0 has `hash2(0, 1)`.
#[test]
fn pools_have_their_calls(rt: HostRuntime) -> Result<(), Fail> {
    let alloc = rt.alloc();
    let twelve = pool(alloc, 12, false)?;
    assert_same(&rt, &twelve.group_of(b""), &5);
    assert_same(&rt, &stable_mod(3_175_731_469, 12, mask_of(12)), &5);
    assert_same(&rt, &twelve.seed_of(5), &6);
    assert_same(&rt, &pool(alloc, 8, true)?.seed_of(0), &91_478_055);
    let unnamed = Pool::new(parts(alloc, "", 12, false)?);
    assert!(rt; matches!(unnamed, Err(PoolFault::P1)));
    Ok(())
}

/// A device is up, unless its state says that it is down.
#[test]
fn device_states_have_their_calls(rt: HostRuntime) -> Result<(), AllocError> {
    let alloc = rt.alloc();
    let down = DeviceState {
        device: 4,
        reweight: 65_536,
        up: false,
    };
    let flags = DeviceStates::build(alloc, &[down])?;
    assert!(rt; !flags.is_up(4) && flags.is_up(5));
    Ok(())
}

/// Makes a list of one pair, of this group.
fn pairs_of(alloc: Global, group: u32) -> Result<Vec<Pair>, AllocError> {
    let mut pairs = Vec::new(alloc);
    pairs.push(Pair {
        group,
        from: 0,
        to: 3,
    })?;
    Ok(pairs)
}

/// A pool of 8 groups has exceptions of these groups alone.
#[test]
fn exceptions_have_their_calls(rt: HostRuntime) -> Result<(), Fail> {
    let alloc = rt.alloc();
    let pool = pool(alloc, 8, true)?;
    let Ok(exceptions) = Exceptions::new(alloc, &pool, pairs_of(alloc, 7)?)? else {
        return Err(Fail::new("a pair of the last group is refused"));
    };
    let pair = Pair {
        group: 7,
        from: 0,
        to: 3,
    };
    assert!(rt; exceptions.pairs() == [pair].as_slice());
    let after = Exceptions::new(alloc, &pool, pairs_of(alloc, 8)?)?;
    assert!(rt; matches!(after, Err(PoolFault::P3)));
    Ok(())
}

/// Places a group of a pool on a map, by the rule 0, with tables of the map. `Err`: an allocation
/// failed, or the map lacks the rule.
fn place_on(
    alloc: Global,
    map: &CrushMap,
    tables: &Tables,
    pool: &Pool,
    exceptions: &Exceptions,
    weights: &Weights,
    flags: &DeviceStates,
    group: u32,
) -> Result<Result<Placement, PoolFault>, Fail>
    requires tables { tables.now ≡ tables_of map.now }
    requires pairs { are_pairs pool.now.pg_num exceptions.now ≡ true }
{
    let Some(rule) = rule_with_id(map, 0) else {
        return Err(Fail::new("the map has no rule 0"));
    };
    let mut scratch = Scratch::build(alloc, tables)?;
    let answer = place(
        alloc,
        tables,
        &mut scratch,
        pool,
        exceptions,
        rule,
        weights,
        flags,
        group,
    )?;
    Ok(answer)
}

/// Places a group of a pool without exceptions on a map, by the rule 0. `Err`: an allocation
/// failed, or the map lacks the rule.
fn placed(
    alloc: Global,
    map: &CrushMap,
    pool: &Pool,
    group: u32,
) -> Result<Result<Placement, PoolFault>, Fail> {
    let tables = Tables::build(alloc, map)?;
    let none = Exceptions::none(alloc)?;
    let weights = Weights::build(alloc, map, &[])?;
    let flags = DeviceStates::build(alloc, &[])?;
    place_on(alloc, map, &tables, pool, &none, &weights, &flags, group)
}

#[test]
fn placing_has_its_call(rt: HostRuntime) -> Result<(), Fail> {
    let alloc = rt.alloc();
    let map = map_of(alloc, DEVICE_0)?;
    let pool = pool(alloc, 12, false)?;
    assert!(rt; matches!(&placed(alloc, &map, &pool, 5)?, Ok(placement) if is_on_0(placement, 6)));
    assert!(rt; matches!(&placed(alloc, &map, &pool, 12)?, Err(PoolFault::P2)));
    Ok(())
}

/// Asserts that a map has the rule of a pool.
fn assert_rule(rt: &impl Abort, map: &CrushMap, pool: &Pool)
    ensures { is_some (rule_numbered map.now pool.now.rule) ≡ true }
{
    if rule_with_id(map, pool.parts().rule).is_none() {
        rt.abort()
    }
}

/// Returns whether the usage of a pool without exceptions on a map is written as `expected`.
fn is_usage(
    rt: &impl Abort,
    alloc: Global,
    map: &CrushMap,
    pool: &Pool,
    expected: &[u8],
) -> Result<bool, AllocError> {
    assert_rule(rt, map, pool);
    let none = Exceptions::none(alloc)?;
    let rows = usage(alloc, map, pool, &none, &[])?;
    let text = usage_csv(alloc, rows.as_slice())?;
    Ok(text.as_slice() == expected)
}

/// Returns whether what moves of a pool without exceptions from one map to another is written as
/// `expected`.
fn are_moves(
    rt: &impl Abort,
    alloc: Global,
    from: &CrushMap,
    to: &CrushMap,
    pool: &Pool,
    expected: &[u8],
) -> Result<bool, AllocError> {
    assert_rule(rt, from, pool);
    assert_rule(rt, to, pool);
    let none = Exceptions::none(alloc)?;
    let rows = moves(alloc, from, to, pool, &none, &[])?;
    let text = moves_csv(alloc, rows.as_slice())?;
    Ok(text.as_slice() == expected)
}

/// Returns whether the groups of a pool without exceptions that a device can touch are `expected`.
fn are_touched(
    rt: &impl Abort,
    alloc: Global,
    map: &CrushMap,
    pool: &Pool,
    device: u32,
    expected: &[u32],
) -> Result<bool, AllocError> {
    assert_rule(rt, map, pool);
    let none = Exceptions::none(alloc)?;
    let groups = impact(alloc, map, pool, &none, &[], device)?;
    Ok(groups.as_slice() == expected)
}

/// All groups of a pool are on the one device of the map. On the map of another device each group
/// moves. The other device touches no group.
#[test]
fn reports_have_their_calls(rt: HostRuntime) -> Result<(), Fail> {
    let alloc = rt.alloc();
    let (map, other) = (map_of(alloc, DEVICE_0)?, map_of(alloc, DEVICE_7)?);
    let pool = pool(alloc, 2, true)?;
    let usage = b"device,groups,entries,primaries,permille\n0,2,2,2,1000\n";
    assert!(rt; is_usage(&rt, alloc, &map, &pool, usage)?);
    let moves = b"group,gained,old,new\n0,1,0,7\n1,1,0,7\n";
    assert!(rt; are_moves(&rt, alloc, &map, &other, &pool, moves)?);
    assert!(rt; are_touched(&rt, alloc, &map, &pool, 0, &[0, 1])?);
    assert!(rt; are_touched(&rt, alloc, &map, &pool, 7, &[])?);
    Ok(())
}

#[test]
fn device_csvs_have_their_call(rt: HostRuntime) -> Result<(), Fail> {
    let alloc = rt.alloc();
    let Ok(changes) = read_device_csv(alloc, b"id,reweight,up\n3,0,1\n")? else {
        return Err(Fail::new("the text is refused"));
    };
    let wanted = DeviceChange {
        device: 3,
        reweight: Some(0),
        up: Some(true),
    };
    assert!(rt; changes.as_slice() == [wanted].as_slice());
    let refused = read_device_csv(alloc, b"id,reweight\n3,0\n")?;
    assert!(rt; matches!(refused, Err(CsvFault::C1)));
    Ok(())
}

/// Writes the canonical text of `map`.
fn text_of(rt: &impl Abort, alloc: Global, map: &CrushMap) -> Result<SharedText, AllocError>
    ensures { IfOk result (λ text. text ≡ canonical map.now) }
{
    match String::from_utf8(write_map(alloc, map)?) {
        Ok(text) => SharedText::new(text),
        Err(_) => rt.abort(),
    }
}

/// Makes the content that the placements of a pool depend on.
fn content_with(
    rt: &impl Abort,
    alloc: Global,
    map: &CrushMap,
    states: &SharedStates,
    pool: &Rc<Pool>,
    exceptions: &SharedExceptions,
) -> Result<Content, AllocError>
    ensures { IfOk result (λ content. content ≡ record { text = canonical map.now; states = states.now; pool = pool.now.value; pairs = exceptions.now }) }
{
    let text = text_of(rt, alloc, map)?;
    Content::new(&text, states, pool, exceptions)
}

/// Asks a new cache twice for the group 0 of a placer, which has the content `content`, and returns
/// whether both answers are that of the device 0 alone.
fn is_twice_on_0(alloc: Global, placer: &Placer<'_>, content: &Content) -> Result<bool, AllocError>
    requires { content.now ≡ content_of placer.now }
{
    let mut cache = PlacementCache::new(alloc, NonZeroUsize::MIN)?;
    let first = cache.place(placer, content, 0)?;
    let again = cache.place(placer, content, 0)?;
    match (&first, &again) {
        (Ok(first), Ok(again)) => Ok(is_on_0(first, 91_478_055) && is_on_0(again, 91_478_055)),
        _ => Ok(false),
    }
}

/// Asks a new cache twice for the group 0 of a pool.
fn ask_twice(
    rt: &impl Abort,
    alloc: Global,
    map: &CrushMap,
    states: &SharedStates,
    pool: &Rc<Pool>,
    exceptions: &SharedExceptions,
) -> Result<bool, AllocError>
    requires { are_pairs pool.now.value.pg_num exceptions.now ≡ true }
{
    let content = content_with(rt, alloc, map, states, pool, exceptions)?;
    let tables = Tables::build(alloc, map)?;
    let list = states.as_slice();
    let reweights = reweights_of(alloc, list)?;
    let weights = Weights::build(alloc, map, &reweights)?;
    let flags = DeviceStates::build(alloc, list)?;
    match Placer::new(
        map,
        &tables,
        list,
        &weights,
        &flags,
        pool,
        exceptions.exceptions(),
    ) {
        Some(placer) => is_twice_on_0(alloc, &placer, &content),
        None => rt.abort(),
    }
}

/// A cache answers what the pool's map does, twice.
#[test]
fn crush_cache_has_its_calls(rt: HostRuntime) -> Result<(), Fail> {
    let alloc = rt.alloc();
    let map = map_of(alloc, DEVICE_0)?;
    let states = SharedStates::new(Vec::new(alloc))?;
    let pool = Rc::new(alloc, pool(alloc, 8, true)?)?;
    let exceptions = SharedExceptions::new(alloc, Exceptions::none(alloc)?)?;
    assert!(rt; ask_twice(&rt, alloc, &map, &states, &pool, &exceptions)?);
    Ok(())
}
