//! Calls of `crush_bucket` and `crush_choose`.

ghost use Rattle.crush_bucket.specs.Tables.{tables_of};
ghost use Rattle.crush_choose.specs.Rules.{CanRun};

use crate::same::assert_same;
use crush_bucket::{
    ListBucket, Perm, Picker, Scratch, Tables, TreeBucket, UniformBucket, can_be_asked,
};
use crush_choose::{
    FirstnCall, IndepCall, Out, Row, Slot, Weights, choose_firstn, choose_indep, is_in, laws,
    run_rule,
};
use crush_map::{CrushMap, ItemId, Kind, Rule, Step, has_equal_weights};
use map_tests::drafts::{ONE, SOUND, Short, choose, draft, entries, map_of};
use std::alloc::{AllocError, Global};
use std::process::Abort;
use std::test::Fail;

/// A map whose root has one device, 3, and whose rule asks for two devices in their places.
const ONE_ITEM: Short<'static> = Short {
    buckets: &[(-1, "default", 10, Kind::Uniform, &[(3, ONE)])],
    rules: &[(
        0,
        "two",
        &[
            Step::Take(ItemId(-1)),
            choose!(false, false, 2, 0),
            Step::Emit,
        ],
    )],
    ..SOUND
};

/// Makes the map of `ONE_ITEM`.
fn one_item(alloc: Global) -> Result<CrushMap, Fail> {
    map_of(alloc, draft(alloc, ONE_ITEM)?)
}

/// The id of each bucket.
const ID: ItemId = ItemId(-1);

/// Picks from the list of these items, for the input 0 at the attempt 0. Asserts that a permutation
/// of which nothing was asked is the identity.
fn list_pick(rt: &impl Abort, alloc: Global, items: &[(i32, u32)]) -> Result<ItemId, AllocError> {
    let items = entries(alloc, items)?;
    assert!(rt; can_be_asked(&items));
    let mut perm = Perm::build(alloc, ID, items.len())?;
    assert_same(rt, &perm.kept(), &0);
    Ok(ListBucket::build(alloc, ID, &items)?.pick(&mut perm, 0, 0))
}

/// Picks from the tree of these items, for the input 7 at the attempt 3.
fn tree_pick(rt: &impl Abort, alloc: Global, items: &[(i32, u32)]) -> Result<ItemId, AllocError> {
    let items = entries(alloc, items)?;
    assert!(rt; can_be_asked(&items));
    let mut perm = Perm::build(alloc, ID, items.len())?;
    Ok(TreeBucket::build(alloc, ID, &items)?.pick(&mut perm, 7, 3))
}

/// Picks from the uniform bucket of these items, for the input 0 at the attempt 0.
fn uniform_pick(
    rt: &impl Abort,
    alloc: Global,
    items: &[(i32, u32)],
) -> Result<ItemId, AllocError> {
    let items = entries(alloc, items)?;
    assert!(rt; can_be_asked(&items));
    assert!(rt; has_equal_weights(&items));
    let mut perm = Perm::build(alloc, ID, items.len())?;
    Ok(UniformBucket::build(alloc, ID, &items)?.pick(&mut perm, 0, 0))
}

/// A list picks its second item where `hash4(0, 1, 0, -1)` is below its share, a tree its one item
/// that has a weight, and a uniform bucket at the place `hash3(0, -1, 0) mod 3`.
#[test]
fn buckets_have_their_calls(rt: HostRuntime) -> Result<(), Fail> {
    let alloc = rt.alloc();
    let item = list_pick(&rt, alloc, &[(0, ONE), (1, 23 * ONE)])?;
    assert_same(&rt, &item, &ItemId(1));
    let item = tree_pick(&rt, alloc, &[(10, 0), (11, ONE), (12, 0)])?;
    assert_same(&rt, &item, &ItemId(11));
    let item = uniform_pick(&rt, alloc, &[(5, ONE), (6, ONE), (7, ONE)])?;
    assert_same(&rt, &item, &ItemId(7));
    Ok(())
}

#[test]
fn tables_have_their_calls(rt: HostRuntime) -> Result<(), Fail> {
    let alloc = rt.alloc();
    let map = one_item(alloc)?;
    let tables = Tables::build(alloc, &map)?;
    let mut scratch = Scratch::build(alloc, &tables)?;
    let Some(root) = tables.bucket_of(ItemId(-1)) else {
        return Err(Fail::new("the root isn't found"));
    };
    assert!(rt; tables.bucket_of(ItemId(-2)).is_none());
    assert!(rt; !tables.is_empty(root));
    assert_same(&rt, &tables.type_of(root), &10);
    assert_same(&rt, &tables.kind(root), &Kind::Uniform);
    assert_same(&rt, &tables.size(root), &1);
    assert_same(&rt, &tables.tunables(), &map.tunables());
    assert!(rt; tables.has_device(3) && !tables.has_device(4));
    assert_same(&rt, &tables.pick(root, &mut scratch, 5, 2), &ItemId(3));
    Ok(())
}

/// A device of the reweight r is in where the low half of `hash2(0, 1)`, 55335, is below r.
#[test]
fn weights_have_their_calls(rt: HostRuntime) -> Result<(), Fail> {
    let alloc = rt.alloc();
    let map = one_item(alloc)?;
    let below = Weights::build(alloc, &map, &[(1, 55_335)])?;
    let above = Weights::build(alloc, &map, &[(1, 55_336)])?;
    assert!(rt; !is_in(&below, 0, 1) && is_in(&above, 0, 1));
    assert!(rt; above.get(1) == 55_336 && above.get(0) == 65_536);
    Ok(())
}

/// Where two devices are asked of a root with one, firstn finds one, and indep leaves the second
/// place empty.
#[test]
fn choosing_has_its_calls(rt: HostRuntime) -> Result<(), Fail> {
    let alloc = rt.alloc();
    let map = one_item(alloc)?;
    let tables = Tables::build(alloc, &map)?;
    let mut scratch = Scratch::build(alloc, &tables)?;
    let weights = Weights::build(alloc, &map, &[])?;
    let Some(bucket) = tables.bucket_of(ItemId(-1)) else {
        return Err(Fail::new("the root isn't found"));
    };
    let (mut items, mut leaves) = (Row::new(), Row::new());
    let firstn = FirstnCall {
        bucket,
        x: 0,
        numrep: 2,
        room: 2,
        wanted: 0,
        tries: 51,
        leaf_tries: 0,
        vary_r: 1,
        stable: 1,
    };
    choose_firstn(
        &tables,
        &mut scratch,
        &firstn,
        &weights,
        &mut items,
        &mut leaves,
    );
    let found: Slot = Some(ItemId(3));
    assert!(rt; items.items() == [found].as_slice() && leaves.items() == [found].as_slice());
    let indep = IndepCall {
        bucket,
        x: 0,
        n: 2,
        numrep: 2,
        wanted: 0,
        tries: 51,
        leaf_tries: 0,
    };
    choose_indep(
        &tables,
        &mut scratch,
        &indep,
        &weights,
        &mut items,
        &mut leaves,
    );
    assert!(rt; items.items() == [found, None].as_slice());
    Ok(())
}

/// Returns the one rule of a map.
fn rule_of<'a>(rt: &impl Abort, map: &'a CrushMap) -> &'a Rule
    ensures { CanRun (tables_of map.now) result.now }
{
    let rules = map.rules();
    assert!(rt; rules.len() == 1);
    laws::rules_of_a_map_can_run();
    &rules[0]
}

#[test]
fn rules_have_their_calls(rt: HostRuntime) -> Result<(), Fail> {
    let alloc = rt.alloc();
    let map = one_item(alloc)?;
    let tables = Tables::build(alloc, &map)?;
    let mut scratch = Scratch::build(alloc, &tables)?;
    let weights = Weights::build(alloc, &map, &[])?;
    let mut out = Out::build(alloc)?;
    run_rule(
        &tables,
        &mut scratch,
        rule_of(&rt, &map),
        9,
        2,
        &weights,
        &mut out,
    );
    assert!(rt; out.items() == [Some(ItemId(3)), None].as_slice());
    assert!(rt; out.trace() == [3u32].as_slice());
    Ok(())
}
