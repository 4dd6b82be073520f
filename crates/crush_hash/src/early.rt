//! Members at the first places of a permutation, by the hashes of those places alone.

ghost use Rattle.std.specs.Prelude.{◌≡◌, ℕ, ◌<◌, slice_index};
ghost use Rattle.crush_hash.specs.Permutation.{permutation};
ghost use Rattle.crush_hash.specs.Private.Pairs.{AreHashes};
ghost use Rattle.crush_types.specs.declared.ItemId.{ItemId};

use crate::eight::place_before;

/// How many places are early: their hashes are made at once.
pub(crate) const EARLY: usize = 4;

/// Finds the member at an early place of a bucket's permutation for an input, by the hashes of
/// the first four places. It follows what comes to the place back through the exchanges, which
/// takes less than making them where they are few.
#[inline]
pub(crate) fn early_member(hashes: &[u32; EARLY], size: u32, place: u32) -> u32
    requires early { place < 4 }
    requires within { place < size }
    ensures { (id : ItemId) (x : ℕ) → AreHashes id x 0 hashes.now → result ≡ slice_index (permutation id size x) place }
{
    let mut at = place;
    let mut left = place + 1;
    while left > 0 {
        left -= 1;
        at = place_before(at, left, hashes[left as usize], size);
    }
    at
}
