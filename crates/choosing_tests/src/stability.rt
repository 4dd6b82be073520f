//! Runs of a rule before and after a reweight is lowered, and which devices they touch.

ghost use Rattle.std.specs.Prelude.{◌≡◌};
ghost use Rattle.crush_bucket.specs.Tables.{scratch_of};
ghost use Rattle.crush_choose.specs.Rules.{CanRun};

use crate::drafts::{ONE, SOUND, Short, choose, draft, map_of};
use crate::rules::rule_of;
use crate::same::assert_same_at;
use crush_bucket::{Scratch, Tables};
use crush_choose::{Out, Weights, run_rule, touches};
use crush_map::{ItemId, Kind, Rule, Step};
use std::alloc::{AllocError, Global};
use std::process::Abort;
use std::test::Fail;

/// A list bucket of the devices 0 and 1, and a rule that chooses one of them.
const TWO_DEVICES: Short<'static> = Short {
    devices: &[(0, "osd.0"), (1, "osd.1")],
    buckets: &[(-1, "root", 10, Kind::List, &[(0, ONE), (1, ONE)])],
    rules: &[(
        0,
        "rule",
        &[
            Step::Take(ItemId(-1)),
            choose!(true, false, 1, 0),
            Step::Emit,
        ],
    )],
    ..SOUND
};

/// Asserts that each of 64 inputs has one device in its trace, and each device is in some. With the
/// device 0 out its inputs move to the device 1, and no other changes.
fn assert_all_move_from_0(
    rt: &impl Abort,
    tables: &Tables,
    scratch: &mut Scratch,
    rule: &Rule,
    full: &Weights,
    lowered: &Weights,
    out: &mut Out,
)
    requires rule { CanRun tables.now rule.now }
    requires fits { scratch.old ≡ scratch_of tables.now }
{
    let mut moved: u32 = 0;
    'inputs: for x in 0..64 {
        run_rule(tables, scratch, rule, x, 1, full, out);
        let on_0 = out.trace() == &[0][..];
        let on_1 = out.trace() == &[1][..];
        assert!(rt; on_0 != on_1, "one device is in the trace at {x}");
        let device = if on_0 { 0 } else { 1 };
        assert_same_at(
            rt,
            [u64::from(x), 0],
            &out.items(),
            &&[Some(ItemId(device))][..],
        );
        run_rule(tables, scratch, rule, x, 1, lowered, out);
        assert_same_at(rt, [u64::from(x), 1], &out.items(), &&[Some(ItemId(1))][..]);
        assert_same_at(rt, [u64::from(x), 2], &out.trace(), &&[1][..]);
        if on_0 {
            moved = moved.wrapping_add(1);
        }
    }
    assert!(rt; 0 < moved && moved < 64, "each device holds some inputs");
}

#[test]
fn what_does_not_have_a_lowered_device_in_its_trace_stays(rt: HostRuntime) -> Result<(), Fail> {
    let alloc = rt.alloc();
    let map = map_of(alloc, draft(alloc, TWO_DEVICES)?)?;
    let tables = Tables::build(alloc, &map)?;
    let mut scratch = Scratch::build(alloc, &tables)?;
    let full = Weights::build(alloc, &map, &[])?;
    let lowered = Weights::build(alloc, &map, &[(0, 0)])?;
    let mut out = Out::build(alloc)?;
    let rule = rule_of(&rt, &map);
    assert_all_move_from_0(&rt, &tables, &mut scratch, rule, &full, &lowered, &mut out);
    Ok(())
}

/// Asserts that each of 64 inputs touches the device that is in its trace, and no other of the
/// devices 0 to 2.
fn assert_one_is_touched(
    rt: &impl Abort,
    tables: &Tables,
    scratch: &mut Scratch,
    rule: &Rule,
    full: &Weights,
    out: &mut Out,
)
    requires rule { CanRun tables.now rule.now }
    requires fits { scratch.old ≡ scratch_of tables.now }
{
    'inputs: for x in 0..64 {
        run_rule(tables, scratch, rule, x, 1, full, out);
        let on_0 = out.trace() == &[0][..];
        let touched = (
            touches(tables, scratch, rule, x, 1, full, out, 0),
            touches(tables, scratch, rule, x, 1, full, out, 1),
            touches(tables, scratch, rule, x, 1, full, out, 2),
        );
        assert_same_at(rt, [u64::from(x), 0], &touched, &(on_0, !on_0, false));
        let device = if on_0 { 0 } else { 1 };
        assert_same_at(
            rt,
            [u64::from(x), 1],
            &out.items(),
            &&[Some(ItemId(device))][..],
        );
    }
}

#[test]
fn a_device_is_touched_exactly_where_it_is_in_the_trace(rt: HostRuntime) -> Result<(), Fail> {
    let alloc = rt.alloc();
    let map = map_of(alloc, draft(alloc, TWO_DEVICES)?)?;
    let tables = Tables::build(alloc, &map)?;
    let mut scratch = Scratch::build(alloc, &tables)?;
    let full = Weights::build(alloc, &map, &[])?;
    let mut out = Out::build(alloc)?;
    let rule = rule_of(&rt, &map);
    assert_one_is_touched(&rt, &tables, &mut scratch, rule, &full, &mut out);
    Ok(())
}
