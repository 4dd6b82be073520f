//! Drafts, each with its first fault by the table of faults and the order of their checks.
//!
//! No name has both M15 and M3, and no number of a type, device or rule both M12 and M2: what is
//! there already is of the form and in range.

use crate::drafts::{
    EMIT, JEWEL, ONE, SOUND, Short, ShortBucket, ShortRule, choose, draft, map_of,
};
use crate::same::{assert_same, assert_same_at};
use Element::{Buckets, Devices, End, Rules, Types};
use FaultCode::{M1, M2, M3, M4, M5, M6, M7, M8, M9, M10, M11, M12, M13, M14, M15};
use Kind::{List, Straw2, Uniform};
use crush_map::limits::{
    COUNT_LIMIT, ITEM_LIMIT, NUMBER_LIMIT, RULE_ID_LIMIT, STEP_LIMIT, STRAW2_WEIGHT_LIMIT,
    TOTAL_TRIES_LIMIT, TOTAL_WEIGHT_LIMIT, TRIES_LIMIT, VARY_R_LIMIT,
};
use crush_map::{CrushMap, Element, FaultCode, ItemId, Kind, MapDraft, MapFault, Step, Tunables};
use std::alloc::{AllocError, Global};
use std::process::Abort;
use std::test::Fail;

/// Asserts that a draft is a map where there is no `code`, or else has that fault first.
pub(crate) fn assert_first(
    rt: &impl Abort,
    alloc: Global,
    draft: MapDraft,
    (code, element, index): (Option<FaultCode>, Element, usize),
    case: usize,
) -> Result<(), Fail> {
    let wanted = match code {
        Some(code) => Some(MapFault {
            code,
            element,
            index,
        }),
        None => None,
    };
    let fault = match CrushMap::check(alloc, draft)? {
        Ok(_) => None,
        Err((_, fault)) => Some(fault),
    };
    assert_same_at(rt, [case as u64, 0], &fault, &wanted);
    Ok(())
}

/// The least id of a bucket.
const LAST_BUCKET: i32 = -1 - NUMBER_LIMIT as i32;

/// The greatest number of items of a choose step.
const COUNT: i32 = COUNT_LIMIT as i32;

/// Types, and which of them has the fault.
const TYPES: &[(&[(u32, &str)], FaultCode, usize)] = &[
    (&[(0, "a"), (NUMBER_LIMIT + 1, "a")], M12, 1),
    (&[(0, "a"), (NUMBER_LIMIT + 1, "class")], M12, 1),
    (&[(0, "a"), (0, "a")], M2, 1),
    (&[(0, "a"), (0, "")], M2, 1),
    (&[(0, "a"), (1, "a")], M3, 1),
    (&[(0, "class")], M15, 0),
    (&[(0, "")], M15, 0),
];

/// Devices, and which of them has the fault.
const DEVICES: &[(&[(u32, &str)], FaultCode, usize)] = &[
    (&[(NUMBER_LIMIT + 1, "a b")], M12, 0),
    (&[(5, "a"), (NUMBER_LIMIT + 1, "")], M12, 1),
    (&[(5, "a"), (NUMBER_LIMIT + 1, "a")], M12, 1),
    (&[(5, "a"), (5, "a b")], M2, 1),
    (&[(5, "a"), (5, "a:")], M2, 1),
    (&[(5, "a"), (5, "a")], M2, 1),
    (&[(5, "a b")], M15, 0),
    (&[(5, "a"), (6, "a")], M3, 1),
];

#[test]
fn first_faults_of_types_and_devices(rt: HostRuntime) -> Result<(), Fail> {
    let alloc = rt.alloc();
    for (case, (types, code, index)) in TYPES.iter().enumerate() {
        let short = Short { types, ..SOUND };
        let wanted = (Some(*code), Types, *index);
        assert_first(&rt, alloc, draft(alloc, short)?, wanted, case)?;
    }
    for (case, (devices, code, index)) in DEVICES.iter().enumerate() {
        let short = Short { devices, ..SOUND };
        let wanted = (Some(*code), Devices, *index);
        assert_first(&rt, alloc, draft(alloc, short)?, wanted, case)?;
    }
    Ok(())
}

/// A host of both devices.
const HOST: ShortBucket<'static> = (-1, "host", 1, List, &[(0, ONE), (3, ONE)]);

/// The greatest weight.
const MOST: u32 = TOTAL_WEIGHT_LIMIT as u32;

/// More than an item of a straw2 bucket may weigh.
const HEAVY: u32 = STRAW2_WEIGHT_LIMIT + 1;

/// Buckets, the last of which has the fault: by its id, its name, its type, its items by place,
/// weights that differ, their sum, and a weight of a straw2 bucket.
const BUCKETS: &[(&[ShortBucket], FaultCode)] = &[
    (&[(1, "", 7, List, &[])], M12),
    (&[HOST, (LAST_BUCKET - 1, "b", 1, List, &[])], M12),
    (&[HOST, (-1, "", 1, List, &[])], M2),
    (&[HOST, (-2, "host/", 7, List, &[])], M15),
    (&[HOST, (-2, "host", 7, List, &[])], M3),
    (&[(-2, "osd.3", 7, List, &[])], M3),
    (&[(-2, "two", 7, List, &[(9, 1)])], M4),
    (&[(-2, "two", 0, List, &[(9, 1)])], M9),
    (&[(-2, "two", 1, List, &[(0, 1), (-2, 1)])], M5),
    (&[(-2, "two", 1, List, &[(0, 1), (0, 1), (9, 1)])], M6),
    (&[(-2, "two", 1, List, &[(0, 1), (9, 1), (0, 1)])], M5),
    (&[HOST, (-2, "two", 1, Uniform, &[(0, 1), (3, MOST)])], M8),
    (&[HOST, (-2, "two", 1, List, &[(0, 1), (3, MOST)])], M7),
    (&[(-2, "b", 1, Uniform, &[(0, 1), (0, 1), (9, MOST)])], M6),
    (&[(-2, "b", 1, Uniform, &[(0, 1), (9, 1), (0, MOST)])], M5),
    (&[(-2, "b", 1, Uniform, &[(9, 1), (9, MOST)])], M5),
    (&[(-2, "b", 1, Uniform, &[(0, 1), (3, MOST), (9, 1)])], M5),
    (&[(-2, "b", 1, Uniform, &[(0, 1), (3, MOST), (0, 1)])], M6),
    (
        &[(-2, "b", 1, Uniform, &[(0, MOST), (3, MOST), (0, MOST)])],
        M6,
    ),
    (&[(-2, "b", 1, Uniform, &[(0, 1), (3, MOST)])], M8),
    (&[HOST, (-2, "row", 1, List, &[(9, 1)])], M5),
    (&[HOST, (-2, "two", 1, Straw2, &[(0, HEAVY), (3, 1)])], M7),
    (&[HOST, (-2, "two", 1, Straw2, &[(0, 0), (3, HEAVY)])], M7),
    (&[HOST, (-2, "two", 1, Straw2, &[(-1, MOST)])], M7),
    (&[HOST, (-2, "two", 1, Straw2, &[(0, 1), (3, MOST)])], M7),
    (
        &[
            HOST,
            (
                -2,
                "two",
                1,
                Straw2,
                &[(0, HEAVY - 1), (3, HEAVY - 1), (-1, 2)],
            ),
        ],
        M7,
    ),
    (&[HOST, (-2, "two", 1, Straw2, &[(0, HEAVY), (9, 1)])], M5),
    (&[HOST, (-2, "two", 1, Straw2, &[(0, HEAVY), (0, 1)])], M6),
    (&[HOST, (-2, "two", 0, Straw2, &[(0, HEAVY)])], M9),
];

#[test]
fn first_faults_of_buckets(rt: HostRuntime) -> Result<(), Fail> {
    let alloc = rt.alloc();
    for (case, (buckets, code)) in BUCKETS.iter().enumerate() {
        let short = Short { buckets, ..SOUND };
        let wanted = (Some(*code), Buckets, buckets.len().saturating_sub(1));
        assert_first(&rt, alloc, draft(alloc, short)?, wanted, case)?;
    }
    Ok(())
}

/// Buckets of more than `ITEM_LIMIT` items that aren't declared, behind the host: what is wrong
/// with the bucket itself comes first.
const CROWDED: &[(i32, &str, u32, FaultCode)] = &[
    (3, "osd.3", 7, M12),
    (LAST_BUCKET - 1, "", 7, M12),
    (-1, "b:", 7, M2),
    (-1, "host", 7, M2),
    (-2, "b:", 7, M15),
    (-2, "osd.0", 7, M3),
    (-2, "host", 0, M3),
    (-2, "b", 7, M4),
    (-2, "b", 0, M9),
    (-2, "b", 1, M1),
];

#[test]
fn first_faults_of_buckets_of_too_many_items(rt: HostRuntime) -> Result<(), Fail> {
    let alloc = rt.alloc();
    let items: &[(i32, u32)] = &[(9, 1); ITEM_LIMIT + 1];
    for (case, (id, name, kind_of, code)) in CROWDED.iter().enumerate() {
        let buckets = [HOST, (*id, *name, *kind_of, List, items)];
        let short = Short {
            buckets: &buckets,
            ..SOUND
        };
        let wanted = (Some(*code), Buckets, 1);
        assert_first(&rt, alloc, draft(alloc, short)?, wanted, case)?;
    }
    Ok(())
}

/// A step whose item isn't declared.
const UNKNOWN: Step = Step::Take(ItemId(9));

/// Too many steps, each out of range.
const WRONG: &[Step] = &[Step::SetStable(2); STEP_LIMIT + 1];

const FIRST: ShortRule<'static> = (7, "a", EMIT);

/// Rules, the last of which has the fault: by its id, its name, the number of its steps, then the
/// first step that has a fault.
const RULES: &[(&[ShortRule], FaultCode)] = &[
    (&[(RULE_ID_LIMIT + 1, "", EMIT)], M12),
    (&[FIRST, (7, "", EMIT)], M2),
    (&[FIRST, (8, "a ", EMIT)], M15),
    (&[(7, "host", EMIT), (8, "host", &[])], M3),
    (&[(7, "a", &[])], M1),
    (&[(7, "a", &[UNKNOWN; STEP_LIMIT + 1])], M1),
    (&[(7, "a", &[Step::Take(ItemId(-2))])], M10),
    (&[(7, "a", &[Step::SetStable(2), UNKNOWN])], M12),
    (&[FIRST, (RULE_ID_LIMIT + 1, "a:", WRONG)], M12),
    (&[FIRST, (RULE_ID_LIMIT + 1, "a", WRONG)], M12),
    (&[FIRST, (7, "a:", WRONG)], M2),
    (&[FIRST, (7, "a", WRONG)], M2),
    (&[FIRST, (8, "a:", WRONG)], M15),
    (&[FIRST, (8, "a:", &[])], M15),
    (&[FIRST, (8, "a", WRONG)], M3),
    (&[FIRST, (8, "a", &[])], M3),
    (&[FIRST, (8, "b", WRONG)], M1),
    (
        &[(0, "one", &[Step::SetVaryR(VARY_R_LIMIT + 1), UNKNOWN])],
        M12,
    ),
    (&[(7, "a", &[choose!(true, true, COUNT + 1, 2)])], M11),
    (&[(7, "a", &[choose!(false, true, -COUNT - 1, 0)])], M12),
    (&[(7, "a", &[choose!(false, true, COUNT, 0)])], M14),
    (
        &[(0, "one", &[UNKNOWN, choose!(true, false, COUNT + 1, 2)])],
        M10,
    ),
    (&[(0, "one", &[choose!(true, false, 1, 2), UNKNOWN])], M11),
    (
        &[(0, "one", &[choose!(false, true, COUNT + 1, 2), UNKNOWN])],
        M11,
    ),
    (
        &[(0, "one", &[choose!(false, true, COUNT + 1, 0), UNKNOWN])],
        M12,
    ),
    (
        &[(0, "one", &[choose!(false, true, COUNT, 0), UNKNOWN])],
        M14,
    ),
    (
        &[(0, "one", &[Step::Emit, choose!(false, true, 0, 0)])],
        M14,
    ),
    (
        &[(
            0,
            "one",
            &[
                choose!(false, true, 1, 1),
                Step::SetLeafTries(TRIES_LIMIT + 1),
            ],
        )],
        M12,
    ),
];

/// First faults of rules are found where there are types 0, 1, 3 and 10 and a bucket named host.
#[test]
fn first_faults_of_rules(rt: HostRuntime) -> Result<(), Fail> {
    let alloc = rt.alloc();
    for (case, (rules, code)) in RULES.iter().enumerate() {
        let short = Short {
            buckets: &[HOST],
            rules,
            ..SOUND
        };
        let wanted = (Some(*code), Rules, rules.len().saturating_sub(1));
        assert_first(&rt, alloc, draft(alloc, short)?, wanted, case)?;
    }
    Ok(())
}

/// A fault at the end alone.
const AT_THE_END: Short<'static> = Short {
    tunables: Tunables {
        descend_once: 2,
        ..JEWEL
    },
    local_tries: (1, 1),
    ..SOUND
};

/// And one of rules.
const IN_RULES: Short<'static> = Short {
    rules: &[(0, "one", &[])],
    ..AT_THE_END
};

/// And one of buckets.
const IN_BUCKETS: Short<'static> = Short {
    buckets: &[(-1, "host", 1, List, &[]), (-2, "row", 1, List, &[(9, 1)])],
    ..IN_RULES
};

/// And one of devices.
const IN_DEVICES: Short<'static> = Short {
    devices: &[(0, "a"), (1, "b"), (2, "a")],
    ..IN_BUCKETS
};

/// Too many tries, and local tries.
const TRIES: Short<'static> = Short {
    tunables: Tunables {
        total_tries: TOTAL_TRIES_LIMIT + 1,
        ..JEWEL
    },
    local_tries: (2, 5),
    ..SOUND
};

/// Drafts with faults in several lists, which are checked in this order: types, devices, buckets,
/// rules, the end.
const LISTS: &[(Short, (FaultCode, Element, usize))] = &[
    (AT_THE_END, (M12, End, 0)),
    (IN_RULES, (M1, Rules, 0)),
    (IN_BUCKETS, (M5, Buckets, 1)),
    (IN_DEVICES, (M3, Devices, 2)),
    (
        Short {
            types: &[(1, "class")],
            ..IN_DEVICES
        },
        (M15, Types, 0),
    ),
    (TRIES, (M12, End, 0)),
    (
        Short {
            local_tries: (0, 5),
            ..SOUND
        },
        (M13, End, 0),
    ),
    (
        Short {
            types: &[(1, "host")],
            ..TRIES
        },
        (M4, End, 0),
    ),
    (
        Short {
            types: &[(1, "host"), (1, "host")],
            rules: &[(RULE_ID_LIMIT + 1, "", &[])],
            ..TRIES
        },
        (M2, Types, 1),
    ),
    // a bucket of type 0 where no type is 0: its type isn't declared
    (
        Short {
            types: &[(1, "host")],
            buckets: &[(-2, "b", 0, List, &[])],
            ..SOUND
        },
        (M4, Buckets, 0),
    ),
];

#[test]
fn first_faults_of_lists(rt: HostRuntime) -> Result<(), Fail> {
    let alloc = rt.alloc();
    for (case, (short, (code, element, index))) in LISTS.iter().enumerate() {
        let wanted = (Some(*code), *element, *index);
        assert_first(&rt, alloc, draft(alloc, *short)?, wanted, case)?;
    }
    Ok(())
}

/// Declared out of order, with numbers at their bounds.
const OUT_OF_ORDER: Short<'static> = Short {
    buckets: &[
        (LAST_BUCKET, "host", 1, List, &[(0, 1), (3, MOST - 1)]),
        (-9, "root", 10, List, &[(LAST_BUCKET, 7), (3, 0)]),
    ],
    rules: &[
        (
            RULE_ID_LIMIT,
            "second",
            &[
                Step::Take(ItemId(-9)),
                Step::SetChooseTries(TRIES_LIMIT),
                Step::SetLeafTries(0),
                Step::SetVaryR(VARY_R_LIMIT),
                Step::SetStable(1),
                choose!(false, true, -COUNT, 1),
                Step::Emit,
            ],
        ),
        (0, "first", EMIT),
    ],
    tunables: Tunables {
        total_tries: TOTAL_TRIES_LIMIT,
        descend_once: 0,
        vary_r: VARY_R_LIMIT,
        stable: 0,
    },
    ..SOUND
};

/// Lists the numbers of a map's types, and the ids of its devices, buckets and rules, as they stand
/// in its lists.
fn numbers_of(alloc: Global, map: &CrushMap) -> Result<Vec<i64>, AllocError> {
    let mut numbers = Vec::new(alloc);
    for one in map.types() {
        numbers.push(i64::from(one.number))?;
    }
    for one in map.devices() {
        numbers.push(i64::from(one.id))?;
    }
    for one in map.buckets() {
        numbers.push(i64::from(one.id.0))?;
    }
    for one in map.rules() {
        numbers.push(i64::from(one.id))?;
    }
    Ok(numbers)
}

#[test]
fn a_map_is_in_order(rt: HostRuntime) -> Result<(), Fail> {
    let alloc = rt.alloc();
    let map = map_of(alloc, draft(alloc, OUT_OF_ORDER)?)?;
    let counts = (map.types().len(), map.devices().len());
    assert_same(&rt, &counts, &(4, 2));
    let counts = (map.buckets().len(), map.rules().len());
    assert_same(&rt, &counts, &(2, 2));
    let numbers = numbers_of(alloc, &map)?;
    assert_same(
        &rt,
        &numbers.as_slice(),
        &[
            0,
            1,
            3,
            10,
            0,
            3,
            i64::from(LAST_BUCKET),
            -9,
            0,
            i64::from(RULE_ID_LIMIT),
        ]
        .as_slice(),
    );
    assert_same(&rt, &map.tunables().total_tries, &TOTAL_TRIES_LIMIT);
    Ok(())
}
