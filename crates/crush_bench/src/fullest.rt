//! Timing the check of the greatest draft: one that reaches every limit.

use crush_map::limits::{
    BUCKET_LIMIT, DEVICE_LIMIT, ITEM_LIMIT, RULE_LIMIT, STEP_LIMIT, TYPE_LIMIT,
};
use crush_map::{
    Bucket, CrushMap, Device, ItemId, Kind, MapDraft, MapFault, Rule, Sequence, Step, Text,
    Tunables, TypeName, Weight,
};
use std::alloc::{AllocError, Global};
use std::io;
use std::rt::Clock;
use std::time::{Duration, Instant};

const TYPES: u32 = TYPE_LIMIT as u32;

const DEVICES: u32 = DEVICE_LIMIT as u32;

const BUCKETS: u32 = BUCKET_LIMIT as u32;

const RULES: u32 = RULE_LIMIT as u32;

/// The greatest weight that all items of a bucket can have: their sum is below 2^32.
const HEAVIEST: u32 = 1_048_575;

/// A draft's first fault, and how long the check took.
#[derive(Clone, Copy)]
pub struct Checked {
    pub fault: Option<MapFault>,
    pub took: Duration,
}

/// Checks the greatest draft.
pub(crate) fn check<R: AllocGlobal + Clock>(rt: &R) -> io::Result<Checked> {
    let alloc = rt.alloc();
    let draft = fullest(alloc)?;
    let start = Instant::now(rt)?;
    let answer = CrushMap::check(alloc, draft)?;
    let took = start.elapsed(rt)?;
    let fault = answer.err().map(|refused| refused.1);
    Ok(Checked { fault, took })
}

/// Makes the greatest draft: the most types, devices, buckets with as many devices as they may
/// have, and rules with all steps, each with a name of 64 bytes.
fn fullest(alloc: Global) -> Result<MapDraft, AllocError> {
    Ok(MapDraft {
        types: types(alloc)?,
        devices: devices(alloc)?,
        buckets: buckets(alloc)?,
        rules: rules(alloc)?,
        local_tries: 0,
        local_fallback_tries: 0,
        tunables: Tunables {
            total_tries: 50,
            descend_once: 1,
            vary_r: 1,
            stable: 1,
        },
    })
}

/// Makes a name of 64 bytes.
fn name(alloc: Global, letter: char, number: u32) -> Result<Text, AllocError> {
    Ok(Text::new(format!(in alloc; "{letter}{number:063}")?))
}

fn types(alloc: Global) -> Result<Sequence<TypeName>, AllocError> {
    let mut types = Vec::new(alloc);
    for number in 0..TYPES {
        let name = name(alloc, 't', number)?;
        types.push(TypeName { number, name })?;
    }
    Ok(Sequence::new(types))
}

fn devices(alloc: Global) -> Result<Sequence<Device>, AllocError> {
    let mut devices = Vec::new(alloc);
    for id in 0..DEVICES {
        let name = name(alloc, 'd', id)?;
        devices.push(Device { id, name })?;
    }
    Ok(Sequence::new(devices))
}

/// Makes as many devices as a bucket may have, each with the same weight.
fn items(alloc: Global) -> Result<Sequence<(ItemId, Weight)>, AllocError> {
    let mut items = Vec::new(alloc);
    for id in 0..ITEM_LIMIT as u32 {
        items.push((ItemId(id as i32), Weight(HEAVIEST)))?;
    }
    Ok(Sequence::new(items))
}

fn buckets(alloc: Global) -> Result<Sequence<Bucket>, AllocError> {
    let mut buckets = Vec::new(alloc);
    for number in 0..BUCKETS {
        buckets.push(Bucket {
            id: ItemId(-1 - number as i32),
            name: name(alloc, 'b', number)?,
            kind_of: 1 + number % (TYPES - 1),
            alg: kind_at(number),
            items: items(alloc)?,
        })?;
    }
    Ok(Sequence::new(buckets))
}

/// Returns the kind of the bucket with a number; the three kinds take turns.
fn kind_at(number: u32) -> Kind {
    match number % 3 {
        0 => Kind::Uniform,
        1 => Kind::List,
        _ => Kind::Tree,
    }
}

fn rules(alloc: Global) -> Result<Sequence<Rule>, AllocError> {
    let mut rules = Vec::new(alloc);
    for id in 0..RULES {
        rules.push(Rule {
            id,
            name: name(alloc, 'r', id)?,
            erasure: false,
            steps: steps(alloc)?,
        })?;
    }
    Ok(Sequence::new(rules))
}

/// Makes a take step of the last bucket, then steps that choose devices.
fn steps(alloc: Global) -> Result<Sequence<Step>, AllocError> {
    let mut steps = Vec::new(alloc);
    steps.push(Step::Take(ItemId(-(BUCKETS as i32))))?;
    for _ in 1..STEP_LIMIT {
        steps.push(Step::Choose {
            firstn: true,
            leaf: false,
            n: 1,
            wanted: 0,
        })?;
    }
    Ok(Sequence::new(steps))
}
