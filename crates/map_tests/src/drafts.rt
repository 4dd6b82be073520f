//! Drafts of maps, written shortly.

use crush_map::{
    Bucket, CrushMap, Device, ItemId, Kind, MapDraft, Rule, Sequence, Step, Text, Tunables,
    TypeName, Weight,
};
use std::alloc::{AllocError, Global};
use std::test::Fail;

/// The weight 1.0.
pub const ONE: u32 = 65_536;

/// The tunables that Ceph has from its release Jewel on.
pub const JEWEL: Tunables = Tunables {
    total_tries: 50,
    descend_once: 1,
    vary_r: 1,
    stable: 1,
};

/// The steps of a rule that answers nothing.
pub const EMIT: &[Step] = &[Step::Emit];

/// A choose step: whether it is firstn, whether it is chooseleaf, its count, and the number of the
/// required type.
#[macro_export]
macro_rules! choose {
    ($firstn:expr, $leaf:expr, $n:expr, $wanted:expr) => {
        crush_map::Step::Choose {
            firstn: $firstn,
            leaf: $leaf,
            n: $n,
            wanted: $wanted,
        }
    };
}

pub use crate::choose;

/// A bucket: its id, its name, the number of its type, its kind, and its items with their weights.
pub type ShortBucket<'a> = (i32, &'a str, u32, Kind, &'a [(i32, u32)]);

/// A rule: its id, its name and its steps.
pub type ShortRule<'a> = (u32, &'a str, &'a [Step]);

/// A draft, written shortly.
#[derive(Clone, Copy)]
pub struct Short<'a> {
    pub types: &'a [(u32, &'a str)],
    pub devices: &'a [(u32, &'a str)],
    pub buckets: &'a [ShortBucket<'a>],
    pub rules: &'a [ShortRule<'a>],
    /// Whether its rules are of erasure pools.
    pub erasure: bool,
    /// choose_local_tries and choose_local_fallback_tries.
    pub local_tries: (u32, u32),
    pub tunables: Tunables,
}

/// A map without buckets and rules.
pub const SOUND: Short<'static> = Short {
    types: &[(1, "host"), (0, "osd"), (10, "root"), (3, "rack")],
    devices: &[(3, "osd.3"), (0, "osd.0")],
    buckets: &[],
    rules: &[],
    erasure: false,
    local_tries: (0, 0),
    tunables: JEWEL,
};

/// Makes numbers with their names.
fn named(alloc: Global, short: &[(u32, &str)]) -> Result<Vec<(u32, Text)>, AllocError> {
    let mut named = Vec::new(alloc);
    for (number, name) in short {
        named.push((*number, Text::copy(alloc, name)?))?;
    }
    Ok(named)
}

/// Makes the types of numbers and names.
pub fn types(alloc: Global, named: Vec<(u32, Text)>) -> Result<Sequence<TypeName>, AllocError> {
    let mut types = Vec::new(alloc);
    for (number, name) in named {
        types.push(TypeName { number, name })?;
    }
    Ok(Sequence::new(types))
}

/// Makes the devices of ids and names.
pub fn devices(alloc: Global, named: Vec<(u32, Text)>) -> Result<Sequence<Device>, AllocError> {
    let mut devices = Vec::new(alloc);
    for (id, name) in named {
        devices.push(Device { id, name })?;
    }
    Ok(Sequence::new(devices))
}

/// Makes items with their weights.
pub fn entries(alloc: Global, short: &[(i32, u32)]) -> Result<Vec<(ItemId, Weight)>, AllocError> {
    let mut entries = Vec::new(alloc);
    for (id, weight) in short {
        entries.push((ItemId(*id), Weight(*weight)))?;
    }
    Ok(entries)
}

fn buckets(alloc: Global, short: &[ShortBucket<'_>]) -> Result<Sequence<Bucket>, AllocError> {
    let mut buckets = Vec::new(alloc);
    for (id, name, kind_of, alg, items) in short {
        let name = Text::copy(alloc, name)?;
        buckets.push(Bucket {
            id: ItemId(*id),
            name,
            kind_of: *kind_of,
            alg: *alg,
            items: Sequence::new(entries(alloc, items)?),
        })?;
    }
    Ok(Sequence::new(buckets))
}

fn rules(alloc: Global, short: Short<'_>) -> Result<Sequence<Rule>, AllocError> {
    let mut rules = Vec::new(alloc);
    for (id, name, steps) in short.rules {
        let name = Text::copy(alloc, name)?;
        rules.push(Rule {
            id: *id,
            name,
            erasure: short.erasure,
            steps: Sequence::new(steps.to_vec(alloc)?),
        })?;
    }
    Ok(Sequence::new(rules))
}

/// Makes the draft that `short` writes.
pub fn draft(alloc: Global, short: Short<'_>) -> Result<MapDraft, AllocError> {
    Ok(MapDraft {
        types: types(alloc, named(alloc, short.types)?)?,
        devices: devices(alloc, named(alloc, short.devices)?)?,
        buckets: buckets(alloc, short.buckets)?,
        rules: rules(alloc, short)?,
        local_tries: short.local_tries.0,
        local_fallback_tries: short.local_tries.1,
        tunables: short.tunables,
    })
}

/// Makes the draft that `short` writes, with `buckets`, and with the devices 0 to `count` - 1.
pub fn generated(
    alloc: Global,
    short: Short<'_>,
    count: u32,
    buckets: Sequence<Bucket>,
) -> Result<MapDraft, AllocError> {
    let mut named = Vec::new(alloc);
    for id in 0..count {
        named.push((id, Text::new(format!(in alloc; "osd.{id}")?)))?;
    }
    let mut made = draft(alloc, short)?;
    made.devices = devices(alloc, named)?;
    made.buckets = buckets;
    Ok(made)
}

/// Makes the map of a draft without a fault.
pub fn map_of(alloc: Global, draft: MapDraft) -> Result<CrushMap, Fail> {
    match CrushMap::check(alloc, draft)? {
        Ok(map) => Ok(map),
        Err(_) => Err(Fail::new("the draft has a fault")),
    }
}

/// Makes a bucket that is named by its id.
pub fn bucket(
    alloc: Global,
    id: i32,
    kind_of: u32,
    alg: Kind,
    items: &[(i32, u32)],
) -> Result<Bucket, AllocError> {
    let name = Text::new(format!(in alloc; "bucket{id}")?);
    Ok(Bucket {
        id: ItemId(id),
        name,
        kind_of,
        alg,
        items: Sequence::new(entries(alloc, items)?),
    })
}
