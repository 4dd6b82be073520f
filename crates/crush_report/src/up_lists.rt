//! The up lists of all groups of a pool.

ghost use Rattle.std.specs.List.{range_with_len};
ghost use Rattle.std.specs.Prelude.{◌≡◌, ◌≤◌, [], IfOk, length, map, slice_range, true};
ghost use Rattle.crush_report.specs.OnMaps.{up_on};
ghost use Rattle.crush_report.specs.Private.Parts.{AreEnds, parts_of, start_at};

use crate::UpRun;
use crush_choose::Slot;
use crush_choose::limits::SIZE_LIMIT;
use crush_pool::{Placer, PoolParts};
use std::alloc::{AllocError, Global};
use std::marker::Model;

/// The most slots of up lists that are kept of a pool, of 8 bytes each. It is itself allowed.
pub const SLOT_LIMIT: usize = 1_048_576;

/// The most words of 8 bytes a group that are stored of answers while up lists are found.
pub(crate) const WORDS_KEPT: u32 = 4;

/// The up lists of all groups of a pool, on a map, with states of devices and exceptions: at most
/// `SLOT_LIMIT` slots. Contracts see the lists, by group.
#[derive(Drop)]
pub struct UpLists {
    /// The lists, one behind the other.
    slots: Vec<Slot>,
    /// Where the list of each group ends; the next one begins there.
    ends: Vec<u32>,
}

impl Model for UpLists {
    ghost use Rattle.std.specs.Prelude.{List, length};
    ghost use Rattle.crush_choose.specs.Marks.{Slot};
    ghost use Rattle.crush_report.specs.Private.Parts.{AreEnds, parts_of};

    ghost Value = { List (List Slot) };

    ghost view = { λ a. parts_of a.slots.items 0 a.ends.items };

    ghost invariant = { λ a. AreEnds (length a.slots.items) 0 a.ends.items };
}

/// Returns how many slots there is room for at first: those of all groups of a pool, or the limit.
fn most_slots(parts: &PoolParts) -> usize {
    (parts.pg_num as usize * parts.size as usize).min(SLOT_LIMIT)
}

/// Returns where a list begins, by where the lists end.
fn start_at(ends: &[u32], place: usize) -> u32
    requires { place ≤ length ends.now }
    ensures { result ≡ start_at 0 ends.now place }
{
    if place == 0 { 0 } else { ends[place - 1] }
}

/// Returns the slots from `start` to `end`.
fn slots_between(slots: &[Slot], start: usize, end: usize) -> &[Slot]
    requires ordered { start ≤ end }
    requires within { end ≤ length slots.now }
    ensures { result.now ≡ slice_range slots.now start end }
{
    &slots[start..end]
}

/// Puts the up lists of the first `count` groups of a pool behind one another, and where each ends;
/// `up` is room for one of them. `false`: they have more than `SLOT_LIMIT` slots.
/// `Err(AllocError)`: an allocation failed.
fn put_lists(
    run: &mut UpRun,
    up: &mut Vec<Slot>,
    slots: &mut Vec<Slot>,
    ends: &mut Vec<u32>,
    count: u32,
) -> Result<bool, AllocError>
    requires slots { slots.old.items ≡ [] }
    requires ends { ends.old.items ≡ [] }
    ensures ends { IfOk result (λ fits. fits ≡ true → AreEnds (length slots.new.items) 0 ends.new.items) }
    ensures lists { IfOk result (λ fits. fits ≡ true → parts_of slots.new.items 0 ends.new.items ≡ map (up_on run.old) (range_with_len 0 count)) }
{
    for group in 0..count {
        run.set_up(up, group)?;
        slots.extend_from_slice(up.as_slice())?;
        if slots.len() > SLOT_LIMIT {
            return Ok(false);
        }
        ends.push(slots.len() as u32)?;
    }
    Ok(true)
}

impl UpLists {
    ghost use Rattle.std.specs.Prelude.{◌≡◌, [], IfOk, IfSome, slice_index_or};
    ghost use Rattle.crush_report.specs.UpLists.{AreUpListsOn};

    /// Finds the up lists of the groups of the placer's pool, by one pass over the groups. `None`
    /// where they have more than `SLOT_LIMIT` slots. `Err(AllocError)`: an allocation failed.
    pub fn build(alloc: Global, placer: &Placer) -> Result<Option<Self>, AllocError>
        ensures { IfOk result (λ built. IfSome built (AreUpListsOn placer.now)) }
    {
        let parts = placer.pool_parts();
        let count = parts.pg_num;
        let mut run = UpRun::build(alloc, placer, WORDS_KEPT)?;
        let mut up = Vec::with_capacity(alloc, SIZE_LIMIT)?;
        let mut slots = Vec::with_capacity(alloc, most_slots(parts))?;
        let mut ends = Vec::with_capacity(alloc, count as usize)?;
        let fits = put_lists(&mut run, &mut up, &mut slots, &mut ends, count)?;
        if fits {
            return Ok(Some(UpLists { slots, ends }));
        }
        Ok(None)
    }

    /// Returns the up list of a group; an empty one of a group that has none.
    pub fn list(&self, group: u32) -> &[Slot]
        ensures { result.now ≡ slice_index_or self.now group [] }
    {
        let ends = self.ends.as_slice();
        let slots = self.slots.as_slice();
        let place = group as usize;
        if place >= ends.len() {
            return &slots[..0];
        }
        let start = start_at(ends, place);
        slots_between(slots, start as usize, ends[place] as usize)
    }
}
