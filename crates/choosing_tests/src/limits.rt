//! A map at the limits of its numbers of devices and of buckets: what is built of it answers.

use crate::drafts::{ONE, SOUND, Short, bucket, choose, generated};
use crate::rules::ask;
use crush_map::limits::{BUCKET_LIMIT, DEVICE_LIMIT};
use crush_map::{Bucket, ItemId, Kind, Sequence, Step};
use std::alloc::{AllocError, Global};
use std::test::Fail;

/// Racks of 32 hosts each, below one root.
const RACKS: i32 = 31;

/// All other buckets are hosts: 992 where a map has at most 1,024 buckets.
const HOSTS: i32 = BUCKET_LIMIT as i32 - RACKS - 1;

/// The id of the first rack, which stands behind the root's and those of the hosts.
const FIRST_RACK: i32 = -2 - HOSTS;

/// Makes a bucket of items whose ids fall from `first` on, all of whose weight is at one place.
fn spread(
    alloc: Global,
    (id, kind_of, alg): (i32, u32, Kind),
    first: i32,
    count: i32,
    heavy: i32,
) -> Result<Bucket, AllocError> {
    let mut items = Vec::new(alloc);
    for place in 0..count {
        let weight = if place == heavy { ONE } else { 0 };
        items.push((first.wrapping_sub(place), weight))?;
    }
    bucket(alloc, id, kind_of, alg, &items)
}

/// Makes the host of a device: uniform with that device alone, or, for the first 32, a list that
/// has a further device without weight behind it.
fn host(alloc: Global, device: i32) -> Result<Bucket, AllocError> {
    let id = (-2i32).wrapping_sub(device);
    let both = [(device, ONE), (device.wrapping_add(HOSTS), 0)];
    if device < 32 {
        bucket(alloc, id, 1, Kind::List, &both)
    } else {
        bucket(alloc, id, 1, Kind::Uniform, &both[..1])
    }
}

/// Makes the hosts -2 - device; the racks `FIRST_RACK` - k, trees of 32 hosts: rack k has those of
/// the devices from 32 k on, and all its weight is in that of device 33 k; and a root of the racks,
/// all of whose weight is in rack 17.
fn all_buckets(alloc: Global) -> Result<Sequence<Bucket>, AllocError> {
    let mut all = Vec::new(alloc);
    for device in 0..HOSTS {
        all.push(host(alloc, device)?)?;
    }
    for k in 0..RACKS {
        let rack = (FIRST_RACK.wrapping_sub(k), 3, Kind::Tree);
        let first = (-2i32).wrapping_sub(k.wrapping_mul(32));
        all.push(spread(alloc, rack, first, 32, k)?)?;
    }
    let root = (-1, 10, Kind::List);
    all.push(spread(alloc, root, FIRST_RACK, RACKS, 17)?)?;
    Ok(Sequence::new(all))
}

const ONE_DEVICE: Step = choose!(true, false, 1, 0);

/// Steps that choose a device from each of the given buckets.
macro_rules! a_device_of_each {
    ($($bucket:expr),*) => {
        &[$(Step::Take(ItemId($bucket)), ONE_DEVICE, Step::Emit),*]
    };
}

/// A device from the root, and then one from each of nine racks, each third one.
const STEPS: &[Step] = a_device_of_each!(
    -1,
    FIRST_RACK,
    FIRST_RACK - 3,
    FIRST_RACK - 6,
    FIRST_RACK - 9,
    FIRST_RACK - 12,
    FIRST_RACK - 15,
    FIRST_RACK - 18,
    FIRST_RACK - 21,
    FIRST_RACK - 24
);

/// Makes reweights: devices with an even number are out, the others are in.
fn reweights(alloc: Global) -> Result<Vec<(u32, u32)>, AllocError> {
    let mut given = Vec::new(alloc);
    for device in 0..DEVICE_LIMIT as u32 {
        given.push((device, if device % 2 == 0 { 0 } else { ONE }))?;
    }
    Ok(given)
}

/// The root holds device 561, rack 3 k holds device 99 k, and those with an even number are out.
#[test]
fn a_map_at_its_limits_is_built_and_answers(rt: HostRuntime) -> Result<(), Fail> {
    let alloc = rt.alloc();
    let short = Short {
        rules: &[(0, "rule", STEPS)],
        ..SOUND
    };
    let draft = generated(alloc, short, DEVICE_LIMIT as u32, all_buckets(alloc)?)?;
    let given = reweights(alloc)?;
    let items = [
        Some(ItemId(561)),
        Some(ItemId(99)),
        Some(ItemId(297)),
        Some(ItemId(495)),
        Some(ItemId(693)),
    ];
    let trace = [99, 297, 495, 561, 693];
    ask(&rt, alloc, draft, &given, 10, 4, Some((&items, &trace)))?;
    Ok(())
}
