//! Each bound of a draft's numbers and names, from both sides.

use crate::drafts::{EMIT, SOUND, Short, choose, draft};
use crate::faults::assert_first;
use FaultCode::{M7, M12, M13, M15};
use Kind::{List, Straw2, Tree, Uniform};
use crush_map::limits::{
    COUNT_LIMIT, NUMBER_LIMIT, RULE_ID_LIMIT, STRAW2_WEIGHT_LIMIT, TOTAL_TRIES_LIMIT, TRIES_LIMIT,
    VARY_R_LIMIT,
};
use crush_map::{Element, FaultCode, Kind, Step, Tunables};
use std::alloc::Global;
use std::process::Abort;
use std::test::Fail;

/// What the second of a draft's types, devices, buckets or rules has; in `wanted` the fault of a
/// type stands before that of the others.
#[derive(Clone, Copy)]
struct Second<'a> {
    number: u32,
    bucket: i32,
    rule: u32,
    name: &'a str,
    wanted: (Option<FaultCode>, Option<FaultCode>),
}

/// Asserts the fault of a type, a device, a bucket and a rule, each in a draft of its own.
fn assert_second(
    rt: &impl Abort,
    alloc: Global,
    second: &Second<'_>,
    case: usize,
) -> Result<(), Fail> {
    let name = second.name;
    let types = [(0, "osd"), (second.number, name)];
    let devices = [(0, "osd.0"), (second.number, name)];
    let buckets = [
        (-2, "host", 1, List, &[][..]),
        (second.bucket, name, 1, List, &[][..]),
    ];
    let rules = [(7, "first", EMIT), (second.rule, name, EMIT)];
    let base = SOUND;
    let types = Short {
        types: &types,
        ..base
    };
    let devices = Short {
        devices: &devices,
        ..base
    };
    let buckets = Short {
        buckets: &buckets,
        ..base
    };
    let rules = Short {
        rules: &rules,
        ..base
    };
    let (of_type, code) = second.wanted;
    for (short, code, element) in [
        (types, of_type, Element::Types),
        (devices, code, Element::Devices),
        (buckets, code, Element::Buckets),
        (rules, code, Element::Rules),
    ] {
        assert_first(rt, alloc, draft(alloc, short)?, (code, element, 1), case)?;
    }
    Ok(())
}

/// The least id of a bucket.
const LAST_BUCKET: i32 = -1 - NUMBER_LIMIT as i32;

/// A number of a type and a device, a bucket's id and a rule's number, and the fault.
const NUMBERS: &[(u32, i32, u32, Option<FaultCode>)] = &[
    (NUMBER_LIMIT, LAST_BUCKET, RULE_ID_LIMIT, None),
    (
        NUMBER_LIMIT + 1,
        LAST_BUCKET - 1,
        RULE_ID_LIMIT + 1,
        Some(M12),
    ),
    (4_294_967_295, -2_147_483_648, 4_294_967_295, Some(M12)),
    (1_000, -1, 0, None),
    (70_000, 0, 300, Some(M12)),
];

/// Names, and the fault of a type, and of all else, that has it: one byte, 64 bytes, the bounds of
/// each range of bytes; none, 65 bytes, the bytes beside those ranges, and bytes above 127; the six
/// words that name no type, and words beside them.
const NAMES: &[(&str, Option<FaultCode>, Option<FaultCode>)] = &[
    ("a", None, None),
    (
        "64-bytes.64-bytes.64-bytes.64-bytes.64-bytes.64-bytes.64-bytes.e",
        None,
        None,
    ),
    ("azAZ09-_.", None, None),
    ("...", None, None),
    ("", Some(M15), Some(M15)),
    (
        "65-bytes.65-bytes.65-bytes.65-bytes.65-bytes.65-bytes.65-bytes.ee",
        Some(M15),
        Some(M15),
    ),
    ("osd:0", Some(M15), Some(M15)),
    ("osd/0", Some(M15), Some(M15)),
    ("osd,0", Some(M15), Some(M15)),
    ("osd@0", Some(M15), Some(M15)),
    ("osd[0", Some(M15), Some(M15)),
    ("osd`0", Some(M15), Some(M15)),
    ("osd{0", Some(M15), Some(M15)),
    ("osd^0", Some(M15), Some(M15)),
    ("osd 0", Some(M15), Some(M15)),
    ("osd\n", Some(M15), Some(M15)),
    ("osd\u{7f}", Some(M15), Some(M15)),
    ("osd\u{e9}", Some(M15), Some(M15)),
    ("\u{20ac}", Some(M15), Some(M15)),
    ("tunable", Some(M15), None),
    ("device", Some(M15), None),
    ("type", Some(M15), None),
    ("rule", Some(M15), None),
    ("choose_args", Some(M15), None),
    ("class", Some(M15), None),
    ("tunables", None, None),
    ("Device", None, None),
    ("typ", None, None),
    ("step", None, None),
    ("choose-args", None, None),
    ("bucket", None, None),
];

#[test]
fn numbers_and_names_end_at_their_bounds(rt: HostRuntime) -> Result<(), Fail> {
    for (case, (number, bucket, rule, code)) in NUMBERS.iter().enumerate() {
        let second = Second {
            number: *number,
            bucket: *bucket,
            rule: *rule,
            name: "second",
            wanted: (*code, *code),
        };
        assert_second(&rt, rt.alloc(), &second, case)?;
    }
    for (case, (name, of_type, code)) in NAMES.iter().enumerate() {
        let second = Second {
            number: 1,
            bucket: -1,
            rule: 0,
            name,
            wanted: (*of_type, *code),
        };
        assert_second(&rt, rt.alloc(), &second, case)?;
    }
    Ok(())
}

/// The greatest weight of an item of a straw2 bucket: just below 32768.0.
const GREATEST: u32 = STRAW2_WEIGHT_LIMIT;

/// Kinds of buckets with items, and the fault: a weight is bounded in straw2 buckets alone.
const WEIGHTS: &[(Kind, &[(i32, u32)], Option<FaultCode>)] = &[
    (Straw2, &[(0, GREATEST)], None),
    (Straw2, &[(0, GREATEST + 1)], Some(M7)),
    (Straw2, &[(0, GREATEST), (3, GREATEST)], None),
    (Straw2, &[(0, GREATEST), (3, GREATEST + 1)], Some(M7)),
    (Straw2, &[(0, 0), (3, 0)], None),
    (Straw2, &[], None),
    (List, &[(0, GREATEST + 1)], None),
    (Tree, &[(0, GREATEST + 1), (3, GREATEST)], None),
    (Uniform, &[(0, GREATEST + 1)], None),
    (List, &[(0, GREATEST + 1), (3, GREATEST + 1)], Some(M7)),
];

#[test]
fn weights_of_straw2_buckets_end_at_their_bound(rt: HostRuntime) -> Result<(), Fail> {
    let alloc = rt.alloc();
    for (case, (kind, items, code)) in WEIGHTS.iter().enumerate() {
        let buckets = [(-1, "host", 1, *kind, *items)];
        let short = Short {
            buckets: &buckets,
            ..SOUND
        };
        let wanted = (*code, Element::Buckets, 0);
        assert_first(&rt, alloc, draft(alloc, short)?, wanted, case)?;
    }
    Ok(())
}

/// The greatest number of items of a choose step.
const MOST: i32 = COUNT_LIMIT as i32;

/// Each step that has a number: at its bound, and past it.
const STEPS: &[(Step, Step)] = &[
    (
        choose!(true, false, MOST, 1),
        choose!(true, false, MOST + 1, 1),
    ),
    (
        choose!(true, true, -MOST, 1),
        choose!(true, true, -MOST - 1, 1),
    ),
    (
        choose!(false, true, MOST, 1),
        choose!(false, true, MOST + 1, 1),
    ),
    (
        choose!(false, false, -MOST, 0),
        choose!(false, false, -MOST - 1, 0),
    ),
    (
        Step::SetChooseTries(TRIES_LIMIT),
        Step::SetChooseTries(TRIES_LIMIT + 1),
    ),
    (
        Step::SetLeafTries(TRIES_LIMIT),
        Step::SetLeafTries(TRIES_LIMIT + 1),
    ),
    (
        Step::SetVaryR(VARY_R_LIMIT),
        Step::SetVaryR(VARY_R_LIMIT + 1),
    ),
    (Step::SetStable(1), Step::SetStable(2)),
];

#[test]
fn numbers_of_steps_end_at_their_bounds(rt: HostRuntime) -> Result<(), Fail> {
    let alloc = rt.alloc();
    for (case, (within, past)) in STEPS.iter().enumerate() {
        for (step, code) in [(within, None), (past, Some(M12))] {
            let steps = [*step];
            let rules = [(0, "one", &steps[..])];
            let short = Short {
                rules: &rules,
                ..SOUND
            };
            let wanted = (code, Element::Rules, 0);
            assert_first(&rt, alloc, draft(alloc, short)?, wanted, case)?;
        }
    }
    Ok(())
}

/// Tunables, local tries, and the fault: choose_total_tries, chooseleaf_descend_once,
/// chooseleaf_vary_r and chooseleaf_stable alone.
const TUNABLES: &[((u32, u32, u32, u32), (u32, u32), Option<FaultCode>)] = &[
    ((TOTAL_TRIES_LIMIT, 1, 1, 1), (0, 0), None),
    ((TOTAL_TRIES_LIMIT + 1, 1, 1, 1), (0, 0), Some(M12)),
    ((50, 1, 1, 1), (0, 0), None),
    ((50, 2, 1, 1), (0, 0), Some(M12)),
    ((50, 1, VARY_R_LIMIT, 1), (0, 0), None),
    ((50, 1, VARY_R_LIMIT + 1, 1), (0, 0), Some(M12)),
    ((50, 1, 1, 2), (0, 0), Some(M12)),
    ((50, 1, 1, 1), (1, 0), Some(M13)),
    ((50, 1, 1, 1), (0, 1), Some(M13)),
];

#[test]
fn tunables_end_at_their_bounds(rt: HostRuntime) -> Result<(), Fail> {
    let alloc = rt.alloc();
    for (case, (tunables, local_tries, code)) in TUNABLES.iter().enumerate() {
        let (total_tries, descend_once, vary_r, stable) = *tunables;
        let short = Short {
            tunables: Tunables {
                total_tries,
                descend_once,
                vary_r,
                stable,
            },
            local_tries: *local_tries,
            ..SOUND
        };
        let wanted = (*code, Element::End, 0);
        assert_first(&rt, alloc, draft(alloc, short)?, wanted, case)?;
    }
    Ok(())
}
