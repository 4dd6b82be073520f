//! Members of eight permutations at once, each for an input of its own: the lanes of a vector hash
//! a place of each.

ghost use Rattle.std.specs.Prelude.{◌≡◌, ℕ, ◌<◌, ◌+◌, ◌-◌, ◌%◌, slice_index, slice_index_or};
ghost use Rattle.crush_hash.specs.Permutation.{no_id, permutation};
ghost use Rattle.crush_hash.specs.Private.Eight.{place_before};

use crate::hash3_each;
use crate::reached::partner;
use crush_types::ItemId;

/// Returns where the contents of a place stood before place n changed contents with its partner, by
/// the hash of place n.
#[inline]
pub(crate) fn place_before(at: u32, n: u32, hash: u32, size: u32) -> u32
    requires { n < size }
    ensures { result ≡ place_before at n (n + hash % (size - n)) }
{
    let other = partner(hash, size as usize, n as usize) as u32;
    if at == n {
        other
    } else if at == other {
        n
    } else {
        at
    }
}

/// Returns for eight places what `place_before` returns for one.
#[inline]
fn places_before(at: &[u32; 8], n: u32, hashes: &[u32; 8], sizes: &[u32; 8]) -> [u32; 8]
    requires { (lane : ℕ) → lane < 8 → n < slice_index sizes.now lane }
    ensures { (lane : ℕ) → lane < 8 → slice_index result lane ≡ place_before (slice_index at.now lane) n (n + slice_index hashes.now lane % (slice_index sizes.now lane - n)) }
{
    [
        place_before(at[0], n, hashes[0], sizes[0]),
        place_before(at[1], n, hashes[1], sizes[1]),
        place_before(at[2], n, hashes[2], sizes[2]),
        place_before(at[3], n, hashes[3], sizes[3]),
        place_before(at[4], n, hashes[4], sizes[4]),
        place_before(at[5], n, hashes[5], sizes[5]),
        place_before(at[6], n, hashes[6], sizes[6]),
        place_before(at[7], n, hashes[7], sizes[7]),
    ]
}

/// Finds the members at the place `place` of the permutations of eight buckets, each with an id, a
/// number of items and an input. It follows what comes to the place back through the exchanges, so
/// it takes time in proportion to the place, and no memory.
pub fn eight_members(ids: &[ItemId; 8], sizes: &[u32; 8], xs: &[u32; 8], place: u32) -> [u32; 8]
    requires { (lane : ℕ) → lane < 8 → place < slice_index sizes.now lane }
    ensures members { (lane : ℕ) → lane < 8 → slice_index result lane ≡ slice_index (permutation (slice_index_or ids.now lane no_id) (slice_index sizes.now lane) (slice_index xs.now lane)) place }
    ensures within { (lane : ℕ) → lane < 8 → slice_index result lane < slice_index sizes.now lane }
{
    let words = [
        ids[0].word(),
        ids[1].word(),
        ids[2].word(),
        ids[3].word(),
        ids[4].word(),
        ids[5].word(),
        ids[6].word(),
        ids[7].word(),
    ];
    let mut at = [place; 8];
    let mut left = place + 1;
    while left > 0 {
        left -= 1;
        let hashes = hash3_each(xs, &words, &[left; 8]);
        at = places_before(&at, left, &hashes, sizes);
    }
    at
}
