//! The picks of eight uniform buckets, side by side: the lanes of one vector hash a place of each.

ghost use Rattle.std.specs.Prelude.{◌≡◌, ◌<◌, ℕ, IfSome, length, slice_index, slice_index_or};
ghost use Rattle.crush_bucket.specs.Bucket.{IsItemOf, item_at};
ghost use Rattle.crush_bucket.specs.Eight.{IsPickedBy};
ghost use Rattle.crush_bucket.specs.Private.Asked.{IsAsked};
ghost use Rattle.crush_hash.specs.Permutation.{no_id};

use crate::any::AnyBucket;
use crate::uniform::asked_place;
use crush_hash::eight_members;
use crush_map::{ItemId, Kind};

/// The places up to which eight buckets are asked at once. A later one takes more hashes, and is
/// found sooner in a permutation that is stored.
const EARLY_PLACES: usize = 4;

/// Picks the items of eight buckets for eight inputs and one attempt, in their order. `None`: one
/// of them isn't uniform, or has no items, or the attempt asks for another place of it than of the
/// first, or for a late place. Allocates nothing.
pub(crate) fn pick_uniforms(buckets: &[&AnyBucket; 8], xs: &[u32; 8], r: u32) -> Option<[ItemId; 8]>
    ensures { IfSome result (λ items. (lane : ℕ) (d : _) → lane < 8 → IsPickedBy (slice_index_or buckets.now lane d).now (slice_index xs.now lane) r (slice_index_or items lane no_id)) }
{
    let place = place_asked(buckets[0], r)?;
    if place >= EARLY_PLACES {
        return None;
    }
    let (ids, sizes) = asked(buckets, place, r)?;
    let members = eight_members(&ids, &sizes, xs, place as u32);
    Some(items_of(buckets, &members))
}

/// Returns the place for which an attempt asks a bucket. `None`: it isn't uniform, or has no items.
#[inline]
fn place_asked(bucket: &AnyBucket, r: u32) -> Option<usize>
    ensures { IfSome result (λ place. IsAsked bucket.now place r bucket.now.id (length bucket.now.items)) }
{
    if bucket.kind() != Kind::Uniform || bucket.size() == 0 {
        return None;
    }
    Some(asked_place(r, bucket.size()))
}

/// Returns the ids and sizes of eight buckets. `None`: `r` asks for another place than `place`.
#[inline]
fn asked(buckets: &[&AnyBucket; 8], place: usize, r: u32) -> Option<([ItemId; 8], [u32; 8])>
    ensures { IfSome result (λ found. (lane : ℕ) (d : _) → lane < 8 → IsAsked (slice_index_or buckets.now lane d).now place r (slice_index_or found.0 lane no_id) (slice_index found.1 lane)) }
{
    let (mut ids, mut sizes) = ([ItemId(0); 8], [0; 8]);
    for lane in 0..8 {
        let bucket = buckets[lane];
        let asked = place_asked(bucket, r)?;
        if asked != place {
            return None;
        }
        ids[lane] = bucket.id();
        sizes[lane] = bucket.size() as u32;
    }
    Some((ids, sizes))
}

/// Returns the items of eight buckets, each at a place of its own.
#[inline]
fn items_of(buckets: &[&AnyBucket; 8], places: &[u32; 8]) -> [ItemId; 8]
    requires { (lane : ℕ) (d : _) → lane < 8 → slice_index places.now lane < length (slice_index_or buckets.now lane d).now.items }
    ensures value { (lane : ℕ) (d : _) → lane < 8 → slice_index_or result lane no_id ≡ item_at (slice_index_or buckets.now lane d).now.items (slice_index places.now lane) }
    ensures item { (lane : ℕ) (d : _) → lane < 8 → IsItemOf (slice_index_or buckets.now lane d).now.items (slice_index_or result lane no_id) }
{
    let mut items = [ItemId(0); 8];
    for lane in 0..8 {
        items[lane] = buckets[lane].item(places[lane] as usize);
    }
    items
}
