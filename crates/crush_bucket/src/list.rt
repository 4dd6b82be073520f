//! The picks of list buckets.

ghost use Rattle.std.specs.Prelude.{◌≡◌, ℕ, ◌<◌, ◌≤◌, ◌+◌, ◌*◌, ◌/◌, ◌%◌, ◌^◌, nat_lt, unwrap_or, MatchOption, IfOk, IfSome, length, slice_index};
ghost use Rattle.crush_bucket.specs.Bucket.{IsItemOf, item_at, word, total_weight};
ghost use Rattle.crush_bucket.specs.Kinds.{list_pick, list_place, greatest, takes};
ghost use Rattle.crush_bucket.specs.Private.Kept.{AreSums};

use crush_hash::hash4_lanes;
use crush_map::{ItemId, Weight};
use std::alloc::{AllocError, Global};

/// Picks the item of a list bucket, which has the sums of its weights up to each place.
#[tactic(auto, unfolding(crate::specs::Kinds::list_pick))]
pub(crate) fn list_item(
    id: ItemId,
    items: &[(ItemId, Weight)],
    sums: &[u32],
    x: u32,
    r: u32,
) -> ItemId
    requires some { 0 < length items.now }
    requires few { length items.now < 2 ^ 16 }
    requires sums { AreSums items.now sums.now }
    ensures picked { result ≡ list_pick id items.now x r }
    ensures item { IsItemOf items.now result }
{
    items[list_place(id, items, sums, x, r)].0
}

/// Makes the list of the sums of the weights up to each place, in 16.16 fixed point.
pub(crate) fn sums_of(alloc: Global, items: &[(ItemId, Weight)]) -> Result<Vec<u32>, AllocError>
    requires { total_weight items.now < 2 ^ 32 }
    ensures { IfOk result (λ sums. AreSums items.now sums.items) }
{
    let mut sums = Vec::with_capacity(alloc, items.len())?;
    let mut sum = 0;
    for item in items {
        sum += item.1.0;
        sums.push(sum)?;
    }
    Ok(sums)
}

/// Finds the greatest place that takes the input, or the first where none does. It goes from the
/// last place down, eight places at a time, and then through the first `size mod 8`, whose hashes
/// are made at once too.
fn list_place(id: ItemId, items: &[(ItemId, Weight)], sums: &[u32], x: u32, r: u32) -> usize
    requires some { 0 < length items.now }
    requires few { length items.now < 2 ^ 16 }
    requires sums { AreSums items.now sums.now }
    ensures value { result ≡ list_place id items.now x r }
    ensures within { result < length items.now }
{
    let rest = items.len() % 8;
    for block in (0..items.len() / 8).rev() {
        if let Some(place) = last_of_eight(id, items, sums, x, r, rest + 8 * block) {
            return place;
        }
    }
    last_of_rest(id, items, sums, x, r, rest)
}

/// Finds the last of the first `rest` places that takes the input, or the first place where none
/// does. The first place isn't tried, since it is the answer in either case.
#[inline]
fn last_of_rest(
    id: ItemId,
    items: &[(ItemId, Weight)],
    sums: &[u32],
    x: u32,
    r: u32,
    rest: usize,
) -> usize
    requires within { rest ≤ length items.now }
    requires low { rest < 8 }
    requires sums { AreSums items.now sums.now }
    ensures { result ≡ unwrap_or (greatest (takes id items.now x r) rest) 0 }
{
    let mut last = 0;
    if rest > 1 {
        let hashes = hash4_lanes(x, &first_words(items, rest), r, id.word());
        for place in 1..rest {
            if is_below(hashes[place], sums[place], items[place].1.0) {
                last = place;
            }
        }
    }
    last
}

/// Returns the words by which the first `count` items enter a hash. Each further lane has the word
/// of the last of them.
#[inline]
fn first_words(items: &[(ItemId, Weight)], count: usize) -> [u32; 8]
    requires some { 0 < count }
    requires within { count ≤ length items.now }
    ensures { (n : ℕ) → n < 8 → n < count → slice_index result n ≡ word (item_at items.now n) }
{
    let last = count - 1;
    [
        word_up_to(items, last, 0),
        word_up_to(items, last, 1),
        word_up_to(items, last, 2),
        word_up_to(items, last, 3),
        word_up_to(items, last, 4),
        word_up_to(items, last, 5),
        word_up_to(items, last, 6),
        word_up_to(items, last, 7),
    ]
}

/// Returns the word of the item at `place`, or of the item at `last` where that is lower.
#[inline]
pub(crate) fn word_up_to(items: &[(ItemId, Weight)], last: usize, place: usize) -> u32
    requires { last < length items.now }
    ensures { place ≤ last → result ≡ word (item_at items.now place) }
{
    items[place.min(last)].0.word()
}

/// Finds the last of the eight places from `from` on that takes the input. `None`: none takes it.
#[inline]
fn last_of_eight(
    id: ItemId,
    items: &[(ItemId, Weight)],
    sums: &[u32],
    x: u32,
    r: u32,
    from: usize,
) -> Option<usize>
    requires within { from + 8 ≤ length items.now }
    requires few { length items.now < 2 ^ 16 }
    requires sums { AreSums items.now sums.now }
    ensures last { MatchOption result (greatest (takes id items.now x r) (from + 8) ≡ greatest (takes id items.now x r) from) (λ place. greatest (takes id items.now x r) (from + 8) ≡ Some place) }
    ensures within { IfSome result (λ place. place < from + 8) }
{
    let hashes = hash4_lanes(x, &words(items, from), r, id.word());
    let mut last = None;
    for lane in 0..8 {
        let place = from + lane;
        if is_below(hashes[lane], sums[place], items[place].1.0) {
            last = Some(place);
        }
    }
    last
}

/// Returns the words by which the eight items from `from` on enter a hash.
#[inline]
pub(crate) fn words(items: &[(ItemId, Weight)], from: usize) -> [u32; 8]
    requires within { from + 8 ≤ length items.now }
    requires few { length items.now < 2 ^ 16 }
    ensures { (n : ℕ) → n < 8 → slice_index result n ≡ word (item_at items.now (from + n)) }
{
    [
        items[from].0.word(),
        items[from + 1].0.word(),
        items[from + 2].0.word(),
        items[from + 3].0.word(),
        items[from + 4].0.word(),
        items[from + 5].0.word(),
        items[from + 6].0.word(),
        items[from + 7].0.word(),
    ]
}

/// Returns whether the draw that a hash makes, its lower 16 bits scaled by the sum of the weights
/// up to a place, is below the weight there.
#[inline]
fn is_below(hash: u32, sum: u32, weight: u32) -> bool
    ensures { result ≡ nat_lt (hash % 65536 * sum / 65536) weight }
{
    u64::from(hash) % 65_536 * u64::from(sum) / 65_536 < u64::from(weight)
}
