//! The scratch of a uniform bucket.

ghost use Rattle.std.specs.Prelude.{◌≡◌, ◌<◌, ◌^◌, IfOk, slice_index};
ghost use Rattle.crush_hash.specs.Permutation.{permutation, asked, kept};

use crate::pairs::Pair;
use crate::reached::{Progress, room_of};
use crush_types::ItemId;
use std::alloc::{AllocError, Global};
use std::marker::Model;

/// The permutation of a bucket's places for the input that was asked last, as far as it was needed
/// (`crush_work_bucket` of `mapper.c`). It stores only the places at which it differs from the
/// identity, as pairs of a place and its member, in order of place.
///
/// Contracts see the bucket's id and size, that input, and how many exchanges were made for it.
#[derive(Drop)]
pub struct Perm {
    reached: Progress,
    row: Vec<Pair>,
}

impl Model for Perm {
    ghost use Rattle.crush_hash.specs.Permutation.{Remembered};
    ghost use Rattle.crush_hash.specs.Private.Reached.{IsReached, remembered_by};

    ghost Value = { Remembered };

    ghost view = { λ a. remembered_by a.reached };

    ghost invariant = { λ a. IsReached a.reached a.row.items };
}

impl Perm {
    /// Makes the scratch of a bucket with the id `id` and `size` items.
    ///
    /// `Err(AllocError)`: an allocation failed; nothing is changed.
    pub fn build(alloc: Global, id: ItemId, size: usize) -> Result<Self, AllocError>
        requires { size < 2 ^ 32 }
        ensures { IfOk result (λ p. p ≡ record { of = record { id = id; size = size }; x = 0; swaps = 0 }) }
    {
        let row = vec![in alloc; (0, 0); room_of(size)]?;
        Ok(Perm {
            reached: Progress::new(id, size),
            row,
        })
    }

    /// Finds the member of the permutation for x at a place (`bucket_perm_choose` of `mapper.c`).
    /// Allocates nothing.
    pub fn member(&mut self, x: u32, place: usize) -> usize
        requires { place < self.old.of.size }
        ensures member { result ≡ slice_index (permutation self.old.of.id self.old.of.size x) place }
        ensures within { result < self.old.of.size }
        ensures asked { self.new ≡ asked self.old x place }
    {
        if !self.reached.needs_row(x, place) {
            return self.reached.first(x) as usize;
        }
        self.reached.member(self.row.as_mut_slice(), x, place) as usize
    }

    /// Returns at how many places the permutation's list differs from the identity, after the
    /// exchanges made for the input that was asked last. No other place is stored.
    pub fn kept(&self) -> usize
        ensures { result ≡ kept self.now }
    {
        self.reached.len()
    }
}
