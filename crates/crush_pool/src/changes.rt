//! Changes of the states of devices.

ghost use Rattle.std.specs.Prelude.{◌≡◌, ◌<◌, ◌||◌, ◌==◌, ℕ, length, slice_index_or, false};
ghost use Rattle.std.specs.List.{list_any};
ghost use Rattle.crush_pool.specs.Changes as spec;
ghost use Rattle.crush_pool.specs.Private.Seen.{HasDevices};

use crate::limits::CHANGE_LIMIT;
use crush_map::limits::ID_COUNT;

/// A change of the state of a device. What is `None` is unchanged.
#[derive(Clone, Copy, Debug, PartialEq, Eq)]
pub struct DeviceChange {
    /// The id of the device, 0..`NUMBER_LIMIT`.
    pub device: u32,
    /// The new reweight, in 16.16 fixed point, 0..`FULL`.
    pub reweight: Option<u32>,
    /// Whether it is up from now on.
    pub up: Option<bool>,
}

/// Returns whether one of the changes is of the device `device`.
fn contains(device: u32, changes: &[DeviceChange]) -> bool
    ensures { result ≡ list_any (spec.is_of_device device) changes.now }
{
    changes.iter().any(|change| change.device == device)
}

/// The most changes that are compared two by two: that takes less time than to clear a table.
const SHORT_LIST: usize = 64;

/// Returns whether each change is of another device: each is compared with all after it.
fn are_distinct_by_pairs(changes: &[DeviceChange]) -> bool
    ensures { result ≡ spec.are_distinct changes.now }
{
    let mut rest = changes;
    while let [first, others @ ..] = rest {
        if contains(first.device, others) {
            return false;
        }
        rest = others;
    }
    true
}

/// Returns whether one of the changes is of the device `device`. A table of flags says which of the
/// devices that it reaches have one; for other devices the changes are looked through.
fn is_again(seen: &[bool], device: u32, changes: &[DeviceChange]) -> bool
    requires { HasDevices seen.now changes.now }
    ensures { result ≡ list_any (spec.is_of_device device) changes.now }
{
    match seen.get(device as usize) {
        Some(flag) => *flag,
        None => contains(device, changes),
    }
}

/// Sets the flag of a device, if the table reaches it.
fn mark(seen: &mut [bool], device: u32)
    ensures len { length seen.new ≡ length seen.old }
    ensures each { (id : ℕ) → id < length seen.old → slice_index_or seen.new id false ≡ ((device == id) || slice_index_or seen.old id false) }
{
    if (device as usize) < seen.len() {
        seen[device as usize] = true;
    }
}

/// Returns whether each change is of another device, by a table of flags for all ids that a device
/// can have: in linear time where each id is one of them. Allocates nothing.
fn are_distinct_by_table(changes: &[DeviceChange]) -> bool
    ensures { result ≡ spec.are_distinct changes.now }
{
    let mut seen = [false; ID_COUNT];
    for place in (0..changes.len()).rev() {
        let device = changes[place].device;
        if is_again(&seen, device, &changes[place + 1..]) {
            return false;
        }
        mark(&mut seen, device);
    }
    true
}

/// Returns whether each change is of another device.
fn are_distinct(changes: &[DeviceChange]) -> bool
    ensures { result ≡ spec.are_distinct changes.now }
{
    if changes.len() <= SHORT_LIST {
        are_distinct_by_pairs(changes)
    } else {
        are_distinct_by_table(changes)
    }
}

/// Returns whether there are 1 to `CHANGE_LIMIT` changes, each of another device.
pub fn are_valid_changes(changes: &[DeviceChange]) -> bool
    ensures { result ≡ spec.are_valid_changes changes.now }
{
    !changes.is_empty() && changes.len() <= CHANGE_LIMIT && are_distinct(changes)
}
