//! The picks of straw2 buckets.

ghost use Rattle.std.specs.Prelude.{◌≡◌, ℕ, ◌<◌, ◌≤◌, ◌+◌, ◌%◌, ◌^◌, length, slice_index};
ghost use Rattle.crush_hash.specs.Hash.{hash3};
ghost use Rattle.crush_bucket.specs.Bucket.{IsItemOf, item_at, word};
ghost use Rattle.crush_bucket.specs.Kinds.{straw2_place, straw2_pick};
ghost use Rattle.crush_bucket.specs.Private.Soonest.{IsBest};

use crate::list::{word_up_to, words};
use crate::soonest::{SoonestItem, nothing, offer};
use crush_hash::{hash3_four, hash3_items};
use crush_map::{ItemId, Weight};

/// Picks the item of `items` that arrives first for the input `x` and the attempt `r`, as a straw2
/// bucket of them does. Allocates nothing.
#[tactic(auto, unfolding(crate::specs::Kinds::straw2_pick))]
pub(crate) fn straw2_item(items: &[(ItemId, Weight)], x: u32, r: u32) -> ItemId
    requires some { 0 < length items.now }
    requires few { length items.now < 2 ^ 16 }
    ensures picked { result ≡ straw2_pick items.now x r }
    ensures item { IsItemOf items.now result }
{
    items[straw2_place(items, x, r)].0
}

/// Finds the first place whose item arrives no later than any. It goes from the first place on,
/// eight places at a time, and then through the last `size mod 8`, whose hashes are made at once
/// too.
fn straw2_place(items: &[(ItemId, Weight)], x: u32, r: u32) -> usize
    requires some { 0 < length items.now }
    requires few { length items.now < 2 ^ 16 }
    ensures value { result ≡ straw2_place items.now x r }
    ensures within { result < length items.now }
{
    let mut best = nothing();
    for block in 0..items.len() / 8 {
        offer_eight(&mut best, items, x, r, 8 * block);
    }
    offer_rest(&mut best, items, x, r, items.len() / 8 * 8);
    best.place
}

/// Offers the eight items from `from` on, in order.
#[inline(always)]
fn offer_eight(best: &mut SoonestItem, items: &[(ItemId, Weight)], x: u32, r: u32, from: usize)
    requires within { from + 8 ≤ length items.now }
    requires few { length items.now < 2 ^ 16 }
    requires is { IsBest items.now x r from best.old }
    ensures { IsBest items.now x r (from + 8) best.new }
{
    let hashes = hash3_items(x, &words(items, from), r);
    offer_lanes(best, items, x, r, from, 8, &hashes);
}

/// Offers the last items, up to seven, from `from` on, in order. For up to four the hashes of four
/// lanes are enough.
#[inline(always)]
fn offer_rest(best: &mut SoonestItem, items: &[(ItemId, Weight)], x: u32, r: u32, from: usize)
    requires within { from ≤ length items.now }
    requires low { length items.now < from + 8 }
    requires few { length items.now < 2 ^ 16 }
    requires is { IsBest items.now x r from best.old }
    ensures { IsBest items.now x r (length items.now) best.new }
{
    let rest = items.len() - from;
    if 4 < rest {
        let hashes = hash3_items(x, &last_words(items, from), r);
        offer_lanes(best, items, x, r, from, rest, &hashes);
    } else if 0 < rest {
        let hashes = hash3_four(x, &last_four_words(items, from), r);
        offer_lanes(best, items, x, r, from, rest, &hashes);
    }
}

/// Offers the `count` items from `from` on, in order, by the hash of each.
#[inline(always)]
fn offer_lanes(
    best: &mut SoonestItem,
    items: &[(ItemId, Weight)],
    x: u32,
    r: u32,
    from: usize,
    count: usize,
    hashes: &[u32],
)
    requires within { from + count ≤ length items.now }
    requires few { length items.now < 2 ^ 16 }
    requires enough { count ≤ length hashes.now }
    requires hashes { (n : ℕ) → n < count → slice_index hashes.now n ≡ hash3 x (word (item_at items.now (from + n))) r }
    requires is { IsBest items.now x r from best.old }
    ensures { IsBest items.now x r (from + count) best.new }
{
    for lane in 0..count {
        let place = from + lane;
        offer(best, place, hashes[lane] % 65_536, items[place].1.0);
    }
}

/// Returns the words by which the items from `from` on enter a hash. Each further lane has the word
/// of the last item.
#[inline(always)]
fn last_words(items: &[(ItemId, Weight)], from: usize) -> [u32; 8]
    requires some { from < length items.now }
    requires few { length items.now < 2 ^ 16 }
    ensures { (n : ℕ) → n < 8 → from + n < length items.now → slice_index result n ≡ word (item_at items.now (from + n)) }
{
    let last = items.len() - 1;
    [
        word_up_to(items, last, from),
        word_up_to(items, last, from + 1),
        word_up_to(items, last, from + 2),
        word_up_to(items, last, from + 3),
        word_up_to(items, last, from + 4),
        word_up_to(items, last, from + 5),
        word_up_to(items, last, from + 6),
        word_up_to(items, last, from + 7),
    ]
}

/// Returns the words by which four items from `from` on enter a hash, as [`last_words`].
#[inline(always)]
fn last_four_words(items: &[(ItemId, Weight)], from: usize) -> [u32; 4]
    requires some { from < length items.now }
    requires few { length items.now < 2 ^ 16 }
    ensures { (n : ℕ) → n < 4 → from + n < length items.now → slice_index result n ≡ word (item_at items.now (from + n)) }
{
    let last = items.len() - 1;
    [
        word_up_to(items, last, from),
        word_up_to(items, last, from + 1),
        word_up_to(items, last, from + 2),
        word_up_to(items, last, from + 3),
    ]
}
