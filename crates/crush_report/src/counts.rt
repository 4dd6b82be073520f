//! Counts for each device.

ghost use Rattle.std.specs.Prelude.{◌≡◌, ◌<◌, ◌+◌, ◌&&◌, ℕ, if◌then◌else◌, length, slice_index_or};
ghost use Rattle.crush_choose.specs.Firstn.{slot_has};
ghost use Rattle.crush_report.specs.Private.Tallies.{count_at, HasRoom, is_again};
ghost use Rattle.crush_pool.specs.Exceptions.{device_item};

use crush_choose::{Slot, has};

/// Adds one to the count of the device in a slot. A device past the end of the counts has none.
pub(crate) fn count_slot(counts: &mut [u32], slot: Slot)
    requires { HasRoom counts.old 1 }
    ensures len { length counts.new ≡ length counts.old }
    ensures each { (id : ℕ) → id < length counts.old → count_at counts.new id ≡ count_at counts.old id + (if slot_has (device_item id) slot then 1 else 0) }
{
    if let Some(item) = slot {
        if item.0 >= 0 && (item.0 as usize) < counts.len() {
            counts[item.0 as usize] += 1;
        }
    }
}

/// Adds one to the count of the device in a slot, where `counted` says so.
pub(crate) fn count_if(counted: bool, counts: &mut [u32], slot: Slot)
    requires { HasRoom counts.old 1 }
    ensures len { length counts.new ≡ length counts.old }
    ensures each { (id : ℕ) → id < length counts.old → count_at counts.new id ≡ count_at counts.old id + (if counted && slot_has (device_item id) slot then 1 else 0) }
{
    if counted {
        count_slot(counts, slot);
    }
}

/// Returns whether a slot has an item that is in a list.
pub(crate) fn is_again(slot: Slot, others: &[Slot]) -> bool
    ensures { result ≡ is_again slot others.now }
{
    match slot {
        Some(item) => has(others, item),
        None => false,
    }
}
