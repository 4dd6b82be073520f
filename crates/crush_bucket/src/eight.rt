//! The picks of eight buckets, side by side.

ghost use Rattle.std.specs.Prelude.{◌<◌, ℕ, IfSome, slice_index, slice_index_or};
ghost use Rattle.crush_bucket.specs.Eight.{IsPickedBy};
ghost use Rattle.crush_hash.specs.Permutation.{no_id};

use crate::any::AnyBucket;
use crate::uniform_lanes::pick_uniforms;
use crate::walks::pick_trees;
use crush_map::{ItemId, Kind};

/// Returns whether it is worth asking buckets of the kind `kind` to pick side by side. It changes
/// no answer.
pub fn is_side_by_side(kind: Kind) -> bool {
    match kind {
        Kind::Uniform | Kind::Tree => true,
        Kind::List | Kind::Straw2 => false,
    }
}

/// Picks the items of eight buckets for eight inputs and one attempt, in their order, where all
/// have items, and all are trees, or all are uniform and asked for the same of their first four
/// places. `None`: the buckets are others. Allocates nothing.
pub fn pick_side_by_side(buckets: &[&AnyBucket; 8], xs: &[u32; 8], r: u32) -> Option<[ItemId; 8]>
    ensures { IfSome result (λ items. (lane : ℕ) (d : _) → lane < 8 → IsPickedBy (slice_index_or buckets.now lane d).now (slice_index xs.now lane) r (slice_index_or items lane no_id)) }
{
    match buckets[0].kind() {
        Kind::Tree => pick_trees(buckets, xs, r),
        Kind::Uniform => pick_uniforms(buckets, xs, r),
        Kind::List | Kind::Straw2 => None,
    }
}

/// Picks the items of one bucket for eight inputs and one attempt, in the order of the inputs,
/// where `pick_side_by_side` picks them. Allocates nothing.
pub(crate) fn pick_alike(bucket: &AnyBucket, xs: &[u32; 8], r: u32) -> Option<[ItemId; 8]>
    ensures { IfSome result (λ items. (lane : ℕ) → lane < 8 → IsPickedBy bucket.now (slice_index xs.now lane) r (slice_index_or items lane no_id)) }
{
    match bucket.kind() {
        Kind::Tree => pick_trees(&[bucket; 8], xs, r),
        Kind::Uniform => pick_uniforms(&[bucket; 8], xs, r),
        Kind::List | Kind::Straw2 => None,
    }
}
