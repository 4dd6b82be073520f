//! The groups of a pool whose up lists differ between two maps.

ghost use Rattle.std.specs.List.{range_with_len};
ghost use Rattle.std.specs.Prelude.{◌≡◌, ◌<◌, ◌≤◌, ◌*◌, ◌^◌, Some, IfOk};
ghost use Rattle.crush_choose.specs.declared.limits.TheConstants.{SIZE_LIMIT};
ghost use Rattle.crush_pool.specs.declared.limits.TheConstants.{GROUP_LIMIT};
ghost use Rattle.crush_report.specs.Moves as spec;
ghost use Rattle.crush_report.specs.OnMaps.{up_on};
ghost use Rattle.crush_report.specs.Reports.{moves};

use crate::rows::MoveRow;
use crate::up_runs::UpRun;
use crush_choose::limits::SIZE_LIMIT;
use crush_choose::{Slot, has, slot_has};
use crush_map::Sequence;
use crush_pool::Placer;
use std::alloc::{AllocError, Global};

/// Returns whether two slots have the same item, or both none.
fn same_slot(a: Slot, b: Slot) -> bool
    ensures { result ≡ spec.same_slot a b }
{
    match a {
        Some(item) => slot_has(b, item),
        None => b.is_none(),
    }
}

/// Returns whether two lists have the same slots in the same order.
fn same_slots(first: &[Slot], second: &[Slot]) -> bool
    ensures { result ≡ spec.same_slots first.now second.now }
{
    let mut left = first;
    let mut right = second;
    while let [a, others @ ..] = left {
        let [b, rest @ ..] = right else {
            return false;
        };
        if !same_slot(*a, *b) {
            return false;
        }
        left = others;
        right = rest;
    }
    right.is_empty()
}

/// Returns whether a slot of a new list has a device that is neither in the old list nor further on
/// in the new one.
fn is_gain(old: &[Slot], slot: Slot, others: &[Slot]) -> bool
    ensures { result ≡ spec.is_gain old.now slot others.now }
{
    match slot {
        Some(item) => !has(old, item) && !has(others, item),
        None => false,
    }
}

/// Counts the devices that are in the new list and not in the old one.
fn gained(old: &[Slot], new: &[Slot]) -> usize
    ensures { result ≡ spec.gained old.now new.now }
{
    let mut rest = new;
    let mut count: usize = 0;
    while let [first, others @ ..] = rest {
        if is_gain(old, *first, others) {
            count += 1;
        }
        rest = others;
    }
    count
}

/// Copies slots. `Err(AllocError)`: an allocation failed.
fn copy_of(alloc: Global, slots: &[Slot]) -> Result<Sequence<Slot>, AllocError>
    ensures { IfOk result (λ copy. copy ≡ slots.now) }
{
    let mut copy = Vec::with_capacity(alloc, slots.len())?;
    copy.extend_from_slice(slots)?;
    Ok(Sequence::new(copy))
}

/// Makes the row of a group. `None` where its up lists are the same, which takes no memory.
/// `Err(AllocError)`: an allocation failed.
pub fn move_between(
    alloc: Global,
    group: u32,
    old: &[Slot],
    new: &[Slot],
) -> Result<Option<MoveRow>, AllocError>
    ensures { IfOk result (λ row. row ≡ spec.move_between group old.now new.now) }
{
    if same_slots(old, new) {
        return Ok(None);
    }
    Ok(Some(MoveRow {
        group,
        gained: gained(old, new),
        old: copy_of(alloc, old)?,
        new: copy_of(alloc, new)?,
    }))
}

/// Adds up how many devices the groups gain.
pub fn gained_in(rows: &[MoveRow]) -> u64
    requires { spec.gained_in rows.now < 2 ^ 64 }
    ensures { result ≡ spec.gained_in rows.now }
{
    let mut rest = rows;
    let mut total: u64 = 0;
    while let [row, others @ ..] = rest {
        total += row.gained as u64;
        rest = others;
    }
    total
}

/// The most words of 8 bytes a group that are stored of the answers on each of the two maps.
const WORDS_KEPT: u32 = 2;

/// Finds which of the first `count` groups of a pool have another up list on the map of `to` than
/// on that of `from`, in order. `Err(AllocError)`: an allocation failed.
#[tactic(auto, using(crate::proofs::Groups::moves_more))]
fn moved_rows(
    alloc: Global,
    from: &mut UpRun,
    to: &mut UpRun,
    count: u32,
) -> Result<Sequence<MoveRow>, AllocError>
    ensures { IfOk result (λ rows. rows ≡ spec.move_rows (up_on from.old) (up_on to.old) (range_with_len 0 count)) }
{
    let mut old = Vec::with_capacity(alloc, SIZE_LIMIT)?;
    let mut new = Vec::with_capacity(alloc, SIZE_LIMIT)?;
    let mut rows = Vec::new(alloc);
    for group in 0..count {
        from.set_up(&mut old, group)?;
        to.set_up(&mut new, group)?;
        let moved = move_between(alloc, group, old.as_slice(), new.as_slice())?;
        if let Some(row) = moved {
            rows.push(row)?;
        }
    }
    Ok(Sequence::new(rows))
}

/// Finds the groups of a pool whose up lists differ between two maps, in order. The exceptions and
/// the states of devices are the same on both. `Err(AllocError)`: an allocation failed.
pub fn moves_with(
    alloc: Global,
    from: &Placer,
    to: &Placer,
) -> Result<Sequence<MoveRow>, AllocError>
    requires states { to.now.states ≡ from.now.states }
    requires pool { to.now.pool ≡ from.now.pool }
    requires exceptions { to.now.pairs ≡ from.now.pairs }
    ensures rows { IfOk result (λ rows. Some rows ≡ moves from.now.map to.now.map from.now.states from.now.pool from.now.pairs) }
    ensures gained { IfOk result (λ rows. spec.gained_in rows ≤ SIZE_LIMIT * GROUP_LIMIT) }
{
    let count = from.pool_parts().pg_num;
    let mut old = UpRun::build(alloc, &*from, WORDS_KEPT)?;
    let mut new = UpRun::build(alloc, &*to, WORDS_KEPT)?;
    let rows = moved_rows(alloc, &mut old, &mut new, count)?;
    Ok(rows)
}
