//! The rows of reports.

use crush_choose::Slot;
use crush_map::Sequence;

/// How much of a pool lies on a device.
#[derive(Clone, Copy, Debug, PartialEq, Eq)]
pub struct UsageRow {
    /// The id of the device.
    pub device: u32,
    /// How many groups have the device in their up list.
    pub groups: u32,
    /// How many entries of up lists are the device.
    pub entries: u32,
    /// Of how many groups the device is the primary.
    pub primaries: u32,
    /// Its entries in thousandths of all entries of up lists that aren't none, rounded down; 0
    /// where there are none.
    pub permille: u32,
}

/// A group whose up lists differ between two maps.
#[derive(Drop)]
pub struct MoveRow {
    /// The number of the group.
    pub group: u32,
    /// How many devices are in the new up list and not in the old one.
    pub gained: usize,
    /// Its up list on the first map.
    pub old: Sequence<Slot>,
    /// Its up list on the second map.
    pub new: Sequence<Slot>,
}
