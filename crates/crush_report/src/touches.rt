//! Which groups of a pool each device can touch, found for all devices at once.

ghost use Rattle.std.specs.Prelude.{◌≡◌, ◌≤◌, ◌==◌, ◌||◌, ◌∷◌, ◌++◌, [], ℕ, IfOk, IfSome, OnOk, length, map, nat_lt, true, false};
ghost use Rattle.std.specs.List.Sorted.{IsNonDecreasingBy, IsPartitionPoint};
ghost use Rattle.crush_bucket.specs.Tables.{scratch_of, tables_of};
ghost use Rattle.crush_map.specs.Faults.{has_number};
ghost use Rattle.crush_pool.specs.Exceptions.{targets_of};
ghost use Rattle.crush_report.specs.OnMaps.{touches_on};
ghost use Rattle.crush_report.specs.Private.Touching.{AreOnce, touches_of};
ghost use Rattle.crush_report.specs.Touches.{AreTouchesOn};

use crush_bucket::Scratch;
use crush_choose::Out;
use crush_choose::laws::traces_ascend;
use crush_map::Sequence;
use crush_pool::{Pair, Placer, PoolParts};
use std::alloc::{AllocError, Global};
use std::marker::Model;

/// The most pairs of a device and a group that are kept of a pool, of 8 bytes each. It is itself
/// allowed.
pub const TOUCH_LIMIT: usize = 1_048_576;

/// A device that can touch a group of a pool.
#[derive(Clone, Copy, Debug, PartialEq, Eq)]
pub struct Touch {
    /// The id of the device.
    pub device: u32,
    /// The group, which is below `pg_num` of the pool.
    pub group: u32,
}

/// Which groups of a pool each device can touch, on a map and with states of devices: at most
/// `TOUCH_LIMIT` pairs of a device and a group, by device. Contracts see the list of them.
#[derive(Drop)]
pub struct Touches {
    pairs: Vec<Touch>,
}

impl Model for Touches {
    ghost use Rattle.std.specs.Prelude.{List};
    ghost use Rattle.std.specs.List.Sorted.{IsNonDecreasingBy};
    ghost use Rattle.crush_report.specs.declared.touches.Touch.{Touch};

    ghost Value = { List Touch };

    ghost view = { λ a. a.pairs.items };

    ghost invariant = { λ a. IsNonDecreasingBy (λ t. t.device) a.pairs.items };
}

/// Returns whether a number is in a list.
fn has_number(numbers: &[u32], number: u32) -> bool
    ensures { result ≡ has_number numbers.now number }
{
    numbers.iter().any(|other| *other == number)
}

/// Adds a device to a list of devices, unless it is there. `Err(AllocError)`: an allocation failed.
fn add_device(devices: &mut Vec<u32>, device: u32) -> Result<(), AllocError>
    ensures each { OnOk result ((d : ℕ) → has_number devices.new.items d ≡ (has_number devices.old.items d || (device == d))) }
    ensures once { OnOk result (AreOnce devices.old.items → AreOnce devices.new.items) }
{
    if !has_number(devices.as_slice(), device) {
        devices.push(device)?;
    }
    Ok(())
}

/// Adds the device to which a pair leads to a list of devices, if the pair is of a group, unless
/// the device is there. `Err(AllocError)`: an allocation failed.
fn add_target(devices: &mut Vec<u32>, pair: Pair, group: u32) -> Result<(), AllocError>
    ensures each { OnOk result ((d : ℕ) → has_number devices.new.items d ≡ (has_number devices.old.items d || has_number (targets_of (pair ∷ []) group) d)) }
    ensures once { OnOk result (AreOnce devices.old.items → AreOnce devices.new.items) }
{
    if pair.group == group {
        add_device(devices, pair.to)?;
    }
    Ok(())
}

/// Adds the devices to which the pairs of a group lead to a list of devices, unless they are there.
/// `Err(AllocError)`: an allocation failed.
fn add_targets(devices: &mut Vec<u32>, pairs: &[Pair], group: u32) -> Result<(), AllocError>
    ensures each { OnOk result ((d : ℕ) → has_number devices.new.items d ≡ (has_number devices.old.items d || has_number (targets_of pairs.now group) d)) }
    ensures once { OnOk result (AreOnce devices.old.items → AreOnce devices.new.items) }
{
    for pair in pairs {
        add_target(devices, *pair, group)?;
    }
    Ok(())
}

/// Sets `devices` to the devices that can touch a group, each once. `Err(AllocError)`: an
/// allocation failed.
fn find_devices(
    placer: &Placer,
    scratch: &mut Scratch,
    out: &mut Out,
    devices: &mut Vec<u32>,
    group: u32,
) -> Result<(), AllocError>
    requires fits { scratch.old ≡ scratch_of (tables_of placer.now.map) }
    ensures each { OnOk result ((d : ℕ) → has_number devices.new.items d ≡ touches_on placer.now d group) }
    ensures once { OnOk result (AreOnce devices.new.items) }
    ensures fits { scratch.new ≡ scratch_of (tables_of placer.now.map) }
{
    traces_ascend();
    placer.run_next(scratch, out, group);
    devices.clear();
    devices.extend_from_slice(out.trace())?;
    let exceptions = placer.exceptions();
    if exceptions.concern(group) {
        add_targets(devices, exceptions.pairs(), group)?;
    }
    Ok(())
}

/// Adds a pair of each of `devices` and a group. `Err(AllocError)`: an allocation failed.
fn add_pairs(pairs: &mut Vec<Touch>, devices: &[u32], group: u32) -> Result<(), AllocError>
    ensures { OnOk result (pairs.new.items ≡ pairs.old.items ++ touches_of group devices.now) }
{
    for device in devices {
        pairs.push(Touch {
            device: *device,
            group,
        })?;
    }
    Ok(())
}

/// Returns how many pairs there is room for at first: one more for each group than it has slots,
/// since an item that is rejected counts too.
fn usual_count(parts: &PoolParts) -> usize {
    let usual = (parts.size as usize + 1).saturating_mul(parts.pg_num as usize);
    usual.min(TOUCH_LIMIT)
}

/// Finds the pairs of a pool, group by group. `None` where they are more than `TOUCH_LIMIT`.
/// `Err(AllocError)`: an allocation failed.
fn pairs_by_group(alloc: Global, placer: &Placer) -> Result<Option<Vec<Touch>>, AllocError>
    ensures { IfOk result (λ found. IfSome found (λ pairs. AreTouchesOn placer.now pairs.items)) }
{
    let mut scratch = Scratch::for_many(alloc, placer.tables())?;
    let mut out = Out::build(alloc)?;
    let mut devices = Vec::new(alloc);
    let parts = placer.pool_parts();
    let mut pairs = Vec::with_capacity(alloc, usual_count(parts))?;
    for group in 0..parts.pg_num {
        find_devices(placer, &mut scratch, &mut out, &mut devices, group)?;
        add_pairs(&mut pairs, devices.as_slice(), group)?;
        if pairs.len() > TOUCH_LIMIT {
            return Ok(None);
        }
    }
    Ok(Some(pairs))
}

/// Finds the place of the first pair by device whose device has an id of at least `least`, or the
/// number of pairs where there is none.
fn place_of(pairs: &[Touch], least: u64) -> usize
    requires { IsNonDecreasingBy (λ t. t.device) pairs.now }
    ensures place { IsPartitionPoint (λ t. nat_lt t.device least ≡ true) (λ t. nat_lt t.device least ≡ false) pairs.now result }
    ensures within { result ≤ length pairs.now }
{
    pairs.partition_point(|pair| u64::from(pair.device) < least)
}

/// Makes the list of the groups of pairs, in their order. `Err(AllocError)`: an allocation failed.
fn groups_of(alloc: Global, pairs: &[Touch]) -> Result<Vec<u32>, AllocError>
    ensures { IfOk result (λ groups. groups.items ≡ map (λ t. t.group) pairs.now) }
{
    pairs.iter().map(|pair| pair.group).collect(alloc)
}

impl Touches {
    ghost use Rattle.std.specs.Prelude.{◌≡◌, IfOk, IfSome};
    ghost use Rattle.crush_report.specs.Touches.{AreTouchesOn, groups_in};

    /// Finds which groups of the placer's pool each device can touch, by one pass over the groups.
    /// `None` where there are more than `TOUCH_LIMIT` pairs. `Err(AllocError)`: an allocation
    /// failed.
    pub fn build(alloc: Global, placer: &Placer) -> Result<Option<Self>, AllocError>
        ensures { IfOk result (λ built. IfSome built (AreTouchesOn placer.now)) }
    {
        let Some(mut pairs) = pairs_by_group(alloc, placer)? else {
            return Ok(None);
        };
        // pairs of one device stay in the order of their groups
        pairs.sort_by_key(|pair| pair.device)?;
        pairs.shrink_to_fit();
        Ok(Some(Touches { pairs }))
    }

    /// Finds the groups of a device, ascending, by a look-up and a copy. `Err(AllocError)`: an
    /// allocation failed.
    pub fn groups_of(&self, alloc: Global, device: u32) -> Result<Sequence<u32>, AllocError>
        ensures { IfOk result (λ found. found ≡ groups_in self.now device) }
    {
        let pairs = self.pairs.as_slice();
        let first = place_of(pairs, u64::from(device));
        let rest = &pairs[first..];
        let count = place_of(rest, u64::from(device) + 1);
        Ok(Sequence::new(groups_of(alloc, &rest[..count])?))
    }
}
