//! What each kind picks, worked out plainly on the whole list: slow, and written apart from the
//! buckets.

use crush_hash::{hash3, hash4};
use crush_ln::tables::{LOGS, RECIPROCALS, REST_LOGS};
use crush_map::{ItemId, Kind, Weight};
use std::alloc::{AllocError, Global};

/// A device that no test declares.
const NOTHING: ItemId = ItemId(65_535);

fn item_at(entries: &[(ItemId, Weight)], place: usize) -> ItemId {
    match entries.get(place) {
        Some(entry) => entry.0,
        None => NOTHING,
    }
}

fn weight_within(entries: &[(ItemId, Weight)], from: usize, to: usize) -> u64 {
    let to = to.min(entries.len());
    let mut sum = 0u64;
    for entry in &entries[from.min(to)..to] {
        sum = sum.wrapping_add(u64::from(entry.1.0));
    }
    sum
}

/// Picks from the bucket of a kind.
pub(crate) fn pick(
    alloc: Global,
    kind: Kind,
    id: ItemId,
    entries: &[(ItemId, Weight)],
    x: u32,
    r: u32,
) -> Result<ItemId, AllocError> {
    match kind {
        Kind::Uniform => uniform(alloc, id, entries, x, r),
        Kind::List => Ok(list(id, entries, x, r)),
        Kind::Tree => Ok(tree(id, entries, x, r)),
        Kind::Straw2 => Ok(straw2(entries, x, r)),
    }
}

/// Makes the list of the places 0, 1, .. after the number `exchanges` of exchanges; after as many
/// as there are places it is the permutation.
pub(crate) fn exchanged(
    alloc: Global,
    id: ItemId,
    size: usize,
    x: u32,
    exchanges: usize,
) -> Result<Vec<usize>, AllocError> {
    let mut places = Vec::new(alloc);
    for place in 0..size {
        places.push(place)?;
    }
    for place in 0..exchanges {
        let left = size.saturating_sub(place).max(1);
        let other = place.wrapping_add(
            hash3(x, id.word(), (place % 65_536) as u32) as usize % left,
        );
        if place < places.len() && other < places.len() {
            places.swap(place, other);
        }
    }
    Ok(places)
}

/// Picks from a uniform bucket: the whole permutation is made for each question.
pub(crate) fn uniform(
    alloc: Global,
    id: ItemId,
    entries: &[(ItemId, Weight)],
    x: u32,
    r: u32,
) -> Result<ItemId, AllocError> {
    let size = entries.len();
    let places = exchanged(alloc, id, size, x, size)?;
    Ok(placed(entries, &places, r))
}

/// Returns the item that a permutation has for an attempt.
pub(crate) fn placed(entries: &[(ItemId, Weight)], places: &[usize], r: u32) -> ItemId {
    match places.get(r as usize % places.len().max(1)) {
        Some(place) => item_at(entries, *place),
        None => NOTHING,
    }
}

/// Picks from a list: each place is tried from the first on, and the last that passes is picked.
pub(crate) fn list(id: ItemId, entries: &[(ItemId, Weight)], x: u32, r: u32) -> ItemId {
    let mut picked = item_at(entries, 0);
    for (place, entry) in entries.iter().enumerate() {
        let sum = weight_within(entries, 0, place.wrapping_add(1));
        let draw = u64::from(hash4(x, entry.0.word(), r, id.word())) % 65_536;
        if draw.wrapping_mul(sum) / 65_536 < u64::from(entry.1.0) {
            picked = entry.0;
        }
    }
    picked
}

/// Picks from a tree: the range of places is halved until one is left.
fn tree(id: ItemId, entries: &[(ItemId, Weight)], x: u32, r: u32) -> ItemId {
    let mut width = 1usize;
    for _ in 0..32 {
        if width < entries.len() {
            width = width.wrapping_mul(2);
        }
    }
    let mut from = 0usize;
    for _ in 0..32 {
        if width > 1 {
            let middle = from.wrapping_add(width / 2);
            let end = from.wrapping_add(width);
            let label = (from.wrapping_mul(2).wrapping_add(width) % 4_294_967_296) as u32;
            let draw = u64::from(hash4(x, label, r, id.word()));
            let drawn = draw.wrapping_mul(weight_within(entries, from, end)) / 4_294_967_296;
            if drawn >= weight_within(entries, from, middle) {
                from = middle;
            }
            width /= 2;
        }
    }
    item_at(entries, from.min(entries.len().saturating_sub(1)))
}

fn number_at(table: &[u64], place: usize) -> u64 {
    match table.get(place) {
        Some(number) => *number,
        None => 0,
    }
}

/// 2^44 times the binary logarithm of a draw and 1, about, by the tables.
fn log(draw: u32) -> u64 {
    let mut number = u64::from(draw).wrapping_add(1);
    let mut exponent = 15u64;
    for _ in 0..15 {
        if number < 32_768 {
            number = number.wrapping_mul(2);
            exponent = exponent.wrapping_sub(1);
        }
    }
    let part = (number / 256).wrapping_sub(128) as usize;
    let product = number.wrapping_mul(number_at(&RECIPROCALS, part));
    let rest = (product / 281_474_976_710_656 % 256) as usize;
    let mantissa = number_at(&LOGS, part).wrapping_add(number_at(&REST_LOGS, rest)) / 16;
    exponent
        .wrapping_mul(17_592_186_044_416)
        .wrapping_add(mantissa)
}

/// Picks from a straw2 bucket: each item that weighs something has a quotient, and the first of
/// those with the least is picked.
fn straw2(entries: &[(ItemId, Weight)], x: u32, r: u32) -> ItemId {
    let mut picked = item_at(entries, 0);
    let mut least = u64::MAX;
    for entry in entries {
        let weight = u64::from(entry.1.0);
        if weight > 0 {
            let draw = hash3(x, entry.0.word(), r) % 65_536;
            let lack = 281_474_976_710_656u64.wrapping_sub(log(draw)) / weight;
            if lack < least {
                picked = entry.0;
                least = lack;
            }
        }
    }
    picked
}
