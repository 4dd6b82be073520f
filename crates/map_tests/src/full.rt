//! Drafts at the limits of their counts, and past them.

use crate::drafts::{ONE, SOUND, devices, draft, map_of, types};
use crate::faults::assert_first;
use crate::same::assert_same;
use crush_map::limits::{
    BUCKET_LIMIT, DEVICE_LIMIT, ITEM_LIMIT, NUMBER_LIMIT, RULE_LIMIT, STEP_LIMIT, TYPE_LIMIT,
};
use crush_map::{
    Bucket, Element, FaultCode, ItemId, Kind, MapDraft, Rule, Sequence, Step, Text, Weight,
};
use std::alloc::{AllocError, Global};
use std::process::Abort;
use std::test::Fail;

/// The least number that is too large for a type, a device or a bucket; it is greater than the
/// number of elements of any list.
const OUT_OF_RANGE: u32 = NUMBER_LIMIT + 1;

/// How many elements each list of a draft has, and which of them, if it is there, has no name and a
/// number out of range.
#[derive(Clone, Copy)]
struct Counts {
    types: u32,
    devices: u32,
    buckets: u32,
    rules: u32,
    wrong: u32,
}

/// Makes the numbers from 0 on, each with a name; the number `wrong` is out of range, without one.
fn numbered(
    alloc: Global,
    letter: char,
    count: u32,
    wrong: u32,
) -> Result<Vec<(u32, Text)>, AllocError> {
    let mut pairs = Vec::new(alloc);
    for number in 0..count {
        let pair = if number == wrong {
            (OUT_OF_RANGE, Text::copy(alloc, "")?)
        } else {
            (number, Text::new(format!(in alloc; "{letter}{number}")?))
        };
        pairs.push(pair)?;
    }
    Ok(pairs)
}

/// Makes buckets of no items, but the last, which has as many devices as a bucket may have.
fn buckets(alloc: Global, counts: Counts) -> Result<Sequence<Bucket>, AllocError> {
    let mut buckets = Vec::new(alloc);
    for (number, name) in numbered(alloc, 'b', counts.buckets, counts.wrong)? {
        let mut items = Vec::new(alloc);
        let size = if number.wrapping_add(1) == counts.buckets {
            counts.devices
        } else {
            0
        };
        for id in 0..size.min(ITEM_LIMIT as u32) {
            items.push((ItemId(id.min(OUT_OF_RANGE) as i32), Weight(ONE)))?;
        }
        buckets.push(Bucket {
            id: ItemId(-1 - number.min(OUT_OF_RANGE) as i32),
            name,
            kind_of: 1,
            alg: Kind::Uniform,
            items: Sequence::new(items),
        })?;
    }
    Ok(Sequence::new(buckets))
}

/// Makes rules of as many steps as a rule may have.
fn rules(alloc: Global, counts: Counts) -> Result<Sequence<Rule>, AllocError> {
    let mut rules = Vec::new(alloc);
    for (id, name) in numbered(alloc, 'r', counts.rules, counts.wrong)? {
        rules.push(Rule {
            id,
            name,
            erasure: true,
            steps: Sequence::new(vec![in alloc; Step::Emit; STEP_LIMIT]?),
        })?;
    }
    Ok(Sequence::new(rules))
}

fn full(alloc: Global, counts: Counts) -> Result<MapDraft, AllocError> {
    let named_types = numbered(alloc, 't', counts.types, counts.wrong)?;
    let named_devices = numbered(alloc, 'd', counts.devices, counts.wrong)?;
    let mut made = draft(alloc, SOUND)?;
    made.types = types(alloc, named_types)?;
    made.devices = devices(alloc, named_devices)?;
    made.buckets = buckets(alloc, counts)?;
    made.rules = rules(alloc, counts)?;
    Ok(made)
}

/// No element is wrong.
const MOST: Counts = Counts {
    types: TYPE_LIMIT as u32,
    devices: DEVICE_LIMIT as u32,
    buckets: BUCKET_LIMIT as u32,
    rules: RULE_LIMIT as u32,
    wrong: OUT_OF_RANGE,
};

#[test]
fn a_draft_at_every_limit_is_a_map(rt: HostRuntime) -> Result<(), Fail> {
    let alloc = rt.alloc();
    let map = map_of(alloc, full(alloc, MOST)?)?;
    assert_same(&rt, &map.types().len(), &TYPE_LIMIT);
    assert_same(&rt, &map.devices().len(), &DEVICE_LIMIT);
    assert!(rt; map.buckets().len() == BUCKET_LIMIT);
    assert_same(
        &rt,
        &map.buckets()[BUCKET_LIMIT - 1].items.as_slice().len(),
        &ITEM_LIMIT,
    );
    assert_same(&rt, &map.rules().len(), &RULE_LIMIT);
    Ok(())
}

/// Two types, and one device, bucket and rule.
const FEW: Counts = Counts {
    types: 2,
    devices: 1,
    buckets: 1,
    rules: 1,
    ..MOST
};

/// One element more than a list may have, the list, and its limit.
const PAST: &[(Counts, Element, usize)] = &[
    (
        Counts {
            types: TYPE_LIMIT as u32 + 1,
            ..FEW
        },
        Element::Types,
        TYPE_LIMIT,
    ),
    (
        Counts {
            devices: DEVICE_LIMIT as u32 + 1,
            ..FEW
        },
        Element::Devices,
        DEVICE_LIMIT,
    ),
    (
        Counts {
            buckets: BUCKET_LIMIT as u32 + 1,
            ..FEW
        },
        Element::Buckets,
        BUCKET_LIMIT,
    ),
    (
        Counts {
            rules: RULE_LIMIT as u32 + 1,
            ..FEW
        },
        Element::Rules,
        RULE_LIMIT,
    ),
];

/// The fault is at the first element past its limit, also where the element has a number out of
/// range and no name.
#[test]
fn one_too_many_comes_before_its_number(rt: HostRuntime) -> Result<(), Fail> {
    let alloc = rt.alloc();
    for (case, (counts, element, limit)) in PAST.iter().enumerate() {
        let wanted = (Some(FaultCode::M1), *element, *limit);
        assert_first(&rt, alloc, full(alloc, *counts)?, wanted, case)?;
        let wrong = Counts {
            wrong: *limit as u32,
            ..*counts
        };
        assert_first(&rt, alloc, full(alloc, wrong)?, wanted, case)?;
    }
    Ok(())
}
