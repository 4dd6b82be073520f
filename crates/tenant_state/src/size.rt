//! The bytes of memory that an inventory takes.
//!
//! They are an estimate from above, which is not measured: each number below is at least what the
//! types take for one such part on a machine of 64 bits, where a list that grew may have room for
//! twice its elements, and each allocation takes up to 32 bytes more than it gives. A sum or
//! product that has no room in 64 bits is given as the greatest number that has.

ghost use Rattle.std.specs.Prelude.{◌≡◌, ◌+◌, ◌-◌, ◌*◌, ◌^◌, length, map, min};
ghost use Rattle.std.specs.List.{sum_by};
ghost use Rattle.crush_pool.specs.declared.pool.PoolParts.{PoolParts};
ghost use Rattle.crush_text.specs.crush_writing.specs.Canonical.{canonical};
ghost use Rattle.tenant_state.specs.Size.{bucket_reach, device_reach, group_reach, items_in, map_size, pool_size, states_size, steps_in, version_size};

use crate::pool::TenantPool;
use crate::version::Version;
use crush_map::{Bucket, CrushMap, Rule};
use crush_pool::{DeviceState, Pair};
use std::rc::Rc;

/// The bytes that an inventory takes without its parts: itself, and its entry in a table by name,
/// with the name.
pub const INVENTORY_BYTES: u64 = 1_024;

/// The bytes that a version takes beside what follows: the lists of its map and its tables, while
/// they are empty, and its place among the versions.
pub const VERSION_BYTES: u64 = 1_024;

/// The bytes that a version takes for each byte of its text: the text itself may take 2, and a name
/// of a part 1 more.
pub const TEXT_BYTES: u64 = 3;

/// The bytes that a type, a device or a rule takes: up to 40 in its list, twice for room, 32 for
/// its name's allocation or that of its steps, and 8 in the tables.
pub const PART_BYTES: u64 = 160;

/// The bytes that a bucket takes, with its row in the tables, and the allocations of both.
pub const BUCKET_BYTES: u64 = 512;

/// The bytes that an item of a bucket takes: 8 in its list, and up to 20 in the tables, twice for
/// room.
pub const ITEM_BYTES: u64 = 64;

/// The bytes that a step of a rule takes: 16, twice for room.
pub const STEP_BYTES: u64 = 64;

/// The bytes that the index of a map's buckets takes for each place.
pub const BUCKET_ID_BYTES: u64 = 16;

/// The bytes that a state of a device takes: 12, and as much again for room.
pub const STATE_BYTES: u64 = 32;

/// The bytes that the tables of reweights and of the devices that are up take for each place: 4 and
/// 1, and as much again for room.
pub const DEVICE_ID_BYTES: u64 = 16;

/// The bytes that a pool takes, with a name of at most 64 bytes, its exceptions while there are
/// none, the allocations of both, and its place among the pools.
pub const POOL_BYTES: u64 = 512;

/// The bytes that a pair of a pool's exceptions takes: 12, and 2 for the place of the next one of
/// its group, in lists that have no further room. The rest, with the rest of a pool's bytes, is for
/// their allocations.
pub const PAIR_BYTES: u64 = 32;

/// The bytes that the table of the first pair of each group takes for each place: 2. It has no
/// further room.
pub const GROUP_BYTES: u64 = 2;

/// Adds two numbers, up to 2^64 - 1.
pub(crate) fn plus(a: u64, b: u64) -> u64
    ensures { result ≡ min (a + b) (2 ^ 64 - 1) }
{
    a.saturating_add(b)
}

/// Multiplies two numbers, up to 2^64 - 1.
fn times(a: u64, b: u64) -> u64
    ensures { result ≡ min (a * b) (2 ^ 64 - 1) }
{
    a.saturating_mul(b)
}

/// Returns the number of places of a list by bucket, up to that of the lowest id.
fn bucket_reach(buckets: &[Bucket]) -> u32
    ensures { result ≡ bucket_reach buckets.now }
{
    let mut reach = 0;
    for bucket in buckets {
        reach = reach.max(bucket.id.0.unsigned_abs());
    }
    reach
}

/// Counts the items of all `buckets`.
fn items_in(buckets: &[Bucket]) -> u64
    ensures { result ≡ min (items_in buckets.now) (2 ^ 64 - 1) }
{
    let mut items = 0;
    for bucket in buckets {
        items = plus(items, bucket.items.as_slice().len() as u64);
    }
    items
}

/// Counts the steps of all `rules`.
fn steps_in(rules: &[Rule]) -> u64
    ensures { result ≡ min (steps_in rules.now) (2 ^ 64 - 1) }
{
    let mut steps = 0;
    for rule in rules {
        steps = plus(steps, rule.steps.as_slice().len() as u64);
    }
    steps
}

/// Returns the bytes that the parts of a map take, with its tables.
fn size_of_map(map: &CrushMap) -> u64
    ensures { result ≡ min (map_size map.now) (2 ^ 64 - 1) }
{
    let named = (map.types().len() + map.devices().len() + map.rules().len()) as u64;
    let parts = plus(
        times(PART_BYTES, named),
        times(STEP_BYTES, steps_in(map.rules())),
    );
    let buckets = times(BUCKET_BYTES, map.buckets().len() as u64);
    let items = times(ITEM_BYTES, items_in(map.buckets()));
    let index = BUCKET_ID_BYTES * u64::from(bucket_reach(map.buckets()));
    plus(plus(parts, plus(buckets, items)), index)
}

/// Returns the bytes that a version with the map `map` takes, whose text has `text` bytes.
pub(crate) fn size_of_version(map: &CrushMap, text: u64) -> u64
    requires { text ≡ length (canonical map.now) }
    ensures { result ≡ min (version_size map.now) (2 ^ 64 - 1) }
{
    plus(
        plus(VERSION_BYTES, times(TEXT_BYTES, text)),
        size_of_map(map),
    )
}

/// Adds up the bytes that `versions` take.
pub(crate) fn size_of_versions(versions: &[Rc<Version>]) -> u64
    ensures { result ≡ min (sum_by version_size (map (λ v. v.value) versions.now)) (2 ^ 64 - 1) }
{
    let mut total = 0;
    for version in versions {
        total = plus(total, version.size());
    }
    total
}

/// Returns the number of places of a list by device, up to that of the greatest id.
fn device_reach(states: &[DeviceState]) -> u64
    ensures { result ≡ device_reach states.now }
{
    let mut reach = 0;
    for state in states {
        reach = reach.max(u64::from(state.device) + 1);
    }
    reach
}

/// Returns the bytes that states of devices take, with their tables.
pub(crate) fn size_of_states(states: &[DeviceState]) -> u64
    ensures { result ≡ min (states_size states.now) (2 ^ 64 - 1) }
{
    let each = times(STATE_BYTES, states.len() as u64);
    let tables = times(DEVICE_ID_BYTES, device_reach(states));
    plus(each, tables)
}

/// Returns the number of places of a list by group, up to that of the greatest group with a pair.
fn group_reach(pairs: &[Pair]) -> u64
    ensures { result ≡ group_reach pairs.now }
{
    let mut reach = 0;
    for pair in pairs {
        reach = reach.max(u64::from(pair.group) + 1);
    }
    reach
}

/// Returns the bytes that a pool with the exceptions `pairs` takes.
pub(crate) fn size_of_pool(pairs: &[Pair]) -> u64
    ensures { (parts : PoolParts) → result ≡ min (pool_size (record { parts = parts; pairs = pairs.now })) (2 ^ 64 - 1) }
{
    let each = times(PAIR_BYTES, pairs.len() as u64);
    let table = times(GROUP_BYTES, group_reach(pairs));
    plus(plus(POOL_BYTES, each), table)
}

/// Adds up the bytes that `pools` take.
pub(crate) fn size_of_pools(pools: &[Rc<TenantPool>]) -> u64
    ensures { result ≡ min (sum_by pool_size (map (λ p. p.value) pools.now)) (2 ^ 64 - 1) }
{
    let mut total = 0;
    for pool in pools {
        total = plus(total, pool.size());
    }
    total
}
