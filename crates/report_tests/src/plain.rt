//! The plain form of reports: over the placements of all groups of a pool, one by one.

use crush_choose::{Slot, Weights};
use crush_pool::{Pair, Placement, Placer};
use crush_report::UsageRow;
use pool_tests::placing::{Placed, place_group};
use std::alloc::Global;
use std::test::Fail;

/// Places all groups of a placer's pool, one by one.
pub(crate) fn all_placed(
    alloc: Global,
    placer: &Placer,
    weights: &Weights,
) -> Result<Vec<Placed>, Fail> {
    let mut groups = Vec::new(alloc);
    for group in 0..placer.pool().parts().pg_num {
        let placed = place_group(alloc, placer, weights, group)?;
        groups.push(placed)?;
    }
    Ok(groups)
}

/// Returns whether a slot has a device.
fn is_device(slot: Slot, device: u32) -> bool {
    match slot {
        Some(item) => i64::from(item.0) == i64::from(device),
        None => false,
    }
}

/// Counts the slots of an up list that have a device.
fn entries(up: &[Slot], device: u32) -> u32 {
    let mut count: u32 = 0;
    for slot in up {
        if is_device(*slot, device) {
            count = count.saturating_add(1);
        }
    }
    count
}

/// Counts the slots of an up list that have any device.
fn filled(up: &[Slot]) -> u32 {
    let mut count: u32 = 0;
    for slot in up {
        if slot.is_some() {
            count = count.saturating_add(1);
        }
    }
    count
}

/// Counts a group in the row of a device too, and returns the row.
fn with_group(row: UsageRow, placement: &Placement) -> UsageRow {
    let found = entries(placement.up.as_slice(), row.device);
    UsageRow {
        groups: row.groups.saturating_add(u32::from(found > 0)),
        entries: row.entries.saturating_add(found),
        primaries: row
            .primaries
            .saturating_add(u32::from(is_device(placement.primary, row.device))),
        ..row
    }
}

/// Counts the row of a device over placements.
pub(crate) fn counted(groups: &[Placed], device: u32) -> UsageRow {
    let mut row = UsageRow {
        device,
        groups: 0,
        entries: 0,
        primaries: 0,
        permille: 0,
    };
    let mut all: u32 = 0;
    for group in groups {
        row = with_group(row, &group.placement);
        all = all.saturating_add(filled(group.placement.up.as_slice()));
    }
    if all > 0 {
        row.permille = row.entries.saturating_mul(1000) / all;
    }
    row
}

/// Counts the slots of a new list that have a device that isn't in the old one.
pub(crate) fn gained(old: &[Slot], new: &[Slot]) -> usize {
    let mut count: usize = 0;
    for slot in new {
        if slot.is_some() && !old.iter().any(|other| *other == *slot) {
            count = count.saturating_add(1);
        }
    }
    count
}

/// Returns whether a device can touch a group: it is in the trace of the group, or a pair leads to
/// it.
pub(crate) fn touches(placed: &Placed, group: usize, pairs: &[Pair], device: u32) -> bool {
    placed.out.trace().iter().any(|id| *id == device)
        || pairs
            .iter()
            .any(|pair| pair.group as usize == group && pair.to == device)
}
