//! Permutations of several buckets, whose pairs stand in one row.

ghost use Rattle.std.specs.Prelude.{◌≡◌, ◌<◌, ◌≤◌, ◌+◌, ◌^◌, IfOk, length, slice_index, take, drop};
ghost use Rattle.crush_hash.specs.Permutation.{permutation};
ghost use Rattle.crush_hash.specs.Private.Reached.{room_of};
ghost use Rattle.crush_hash.specs.Private.Parts.{IsNew, IsPart};

use crate::early::EARLY;
use crate::pairs::Pair;
use crate::reached::{Progress, room_of};
use crush_types::ItemId;
use std::alloc::{AllocError, Global};
use std::marker::Model;

/// Permutations of buckets, as many as there are slots, each for the bucket and the input that its
/// slot was asked last; one row has the pairs of all of them. Contracts see how many items a bucket
/// may have, never what was asked last.
#[derive(Drop)]
pub struct Perms {
    slots: Vec<Slot>,
    row: Vec<Pair>,
    size: usize,
}

impl Model for Perms {
    ghost use Rattle.std.specs.Prelude.{◌<◌, ◌^◌, ℕ, length};
    ghost use Rattle.crush_hash.specs.Private.Parts.{AreParts, HaveRoom};

    ghost Value = { ℕ };

    ghost view = { λ a. a.size };

    ghost invariant = { λ a. record {
      parts : AreParts a.slots.items a.row.items;
      room : HaveRoom a.size a.slots.items;
      some : 0 < a.size → 0 < length a.slots.items;
      small : a.size < 2 ^ 32;
    } };
}

impl Perms {
    /// Makes `slots` permutations, at least one, of buckets with at most `size` items each; none
    /// where `size` is 0. It makes two allocations at most.
    ///
    /// `Err(AllocError)`: an allocation failed; nothing is changed.
    pub fn build(alloc: Global, slots: usize, size: usize) -> Result<Self, AllocError>
        requires { size < 2 ^ 32 }
        ensures { IfOk result (λ p. p ≡ size) }
    {
        let count = if size == 0 { 0 } else { slots.max(1) };
        let room = room_of(size);
        let mut made = Vec::with_capacity(alloc, count)?;
        let mut end: usize = 0;
        'slots: while made.len() < count {
            let next = end.checked_add(room).ok_or(AllocError)?;
            made.push(Slot::new(end, next))?;
            end = next;
        }
        let row = vec![in alloc; (0, 0); end]?;
        Ok(Perms {
            slots: made,
            row,
            size,
        })
    }

    /// Finds the member at a place of the permutation, for x, of a bucket with the id `id` and
    /// `size` items. Each number below that of the slots has a slot for itself. Allocates nothing.
    #[inline]
    pub fn member(&mut self, number: usize, id: ItemId, size: usize, x: u32, place: usize) -> usize
        requires within { place < size }
        requires fits { size ≤ self.old }
        ensures member { result ≡ slice_index (permutation id size x) place }
        ensures within { result < size }
        ensures same { self.new ≡ self.old }
    {
        let count = self.slots.len();
        let at = if number < count {
            number
        } else {
            number % count
        };
        let slot = &mut self.slots[at];
        slot.member(self.row.as_mut_slice(), id, size, x, place) as usize
    }
}

/// How far a permutation is made, and the part of the row that its pairs may take.
#[derive(Drop)]
struct Slot {
    reached: Progress,
    start: usize,
    end: usize,
}

impl Slot {
    /// Makes a slot with the part of the row from `start` to `end`, in which no exchange is made.
    fn new(start: usize, end: usize) -> Self
        requires { start + 2 ≤ end }
        ensures new { IsNew end result }
        ensures start { result.start ≡ start }
        ensures end { result.end ≡ end }
    {
        Slot {
            reached: Progress::new(ItemId(0), 0),
            start,
            end,
        }
    }

    /// Finds the member at a place of a bucket's permutation for x.
    #[inline]
    fn member(&mut self, row: &mut [Pair], id: ItemId, size: usize, x: u32, place: usize) -> u32
        requires within { place < size }
        requires small { size < 2 ^ 32 }
        requires room { self.old.start + room_of size ≤ self.old.end }
        requires part { IsPart self.old row.old }
        ensures member { result ≡ slice_index (permutation id size x) place }
        ensures within { result < size }
        ensures start { self.new.start ≡ self.old.start }
        ensures end { self.new.end ≡ self.old.end }
        ensures part { IsPart self.new row.new }
        ensures length { length row.new ≡ length row.old }
        ensures before { take self.old.start row.new ≡ take self.old.start row.old }
        ensures behind { drop self.old.end row.new ≡ drop self.old.end row.old }
    {
        self.reached.turn_to(id, size);
        if place < EARLY {
            return self.reached.early(x, place);
        }
        self.reached
            .member(&mut row[self.start..self.end], x, place)
    }
}
