//! The hashes by which the places of a uniform bucket find their partners, four at a time.

ghost use Rattle.std.specs.Prelude.{◌≡◌, ◌<◌, ◌^◌};
ghost use Rattle.crush_hash.specs.Hash.{hash3};
ghost use Rattle.crush_hash.specs.Permutation.{word};
ghost use Rattle.crush_hash.specs.Private.Pairs.{AreHashes};

use crate::hash3_lanes;
use crush_types::ItemId;
use std::marker::Model;

/// The hashes of four places, from a multiple of four on, for one input. Contracts see the bucket's
/// id alone.
#[derive(Drop)]
pub(crate) struct PlaceHashes {
    id: ItemId,
    x: u32,
    block: u32,
    hashes: [u32; 4],
}

impl Model for PlaceHashes {
    ghost use Rattle.crush_types.specs.declared.ItemId.{ItemId};
    ghost use Rattle.crush_hash.specs.Private.Pairs.{AreHashes};

    ghost Value = { ItemId };

    ghost view = { λ a. a.id };

    ghost invariant = { λ a. AreHashes a.id a.x a.block a.hashes };
}

impl PlaceHashes {
    /// Returns hashes of a block that has no place, so that none of them is asked for.
    pub(crate) fn new(id: ItemId) -> Self
        ensures { result ≡ id }
    {
        PlaceHashes {
            id,
            x: 0,
            block: 1 << 30,
            hashes: [0; 4],
        }
    }

    /// Returns the bucket's id.
    pub(crate) fn id(&self) -> ItemId
        ensures { result ≡ self.now }
    {
        self.id
    }

    /// Returns the hash of a place for x.
    #[inline]
    pub(crate) fn hash(&mut self, x: u32, place: u32) -> u32
        ensures value { result ≡ hash3 x (word self.old) place }
        ensures same { self.new ≡ self.old }
    {
        let block = place / 4;
        if x != self.x || block != self.block {
            self.hashes = hashes_of(self.id, x, block);
            self.x = x;
            self.block = block;
        }
        self.hashes[(place % 4) as usize]
    }

    /// Returns the hashes of the first four places for x.
    #[inline]
    pub(crate) fn first_four(&mut self, x: u32) -> [u32; 4]
        ensures value { AreHashes self.old x 0 result }
        ensures same { self.new ≡ self.old }
    {
        if x != self.x || self.block != 0 {
            self.hashes = hashes_of(self.id, x, 0);
            self.x = x;
            self.block = 0;
        }
        self.hashes
    }
}

/// Returns the hashes of the four places from `4 * block` on.
fn hashes_of(id: ItemId, x: u32, block: u32) -> [u32; 4]
    requires { block < 2 ^ 30 }
    ensures { AreHashes id x block result }
{
    let from = 4 * block;
    hash3_lanes(x, id.word(), &[from, from + 1, from + 2, from + 3])
}
