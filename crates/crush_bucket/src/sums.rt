//! Sums of weights, and whether a bucket can be built of items.

ghost use Rattle.std.specs.Prelude.{◌≡◌, ◌<◌, ◌^◌, IsTrue, length};
ghost use Rattle.crush_bucket.specs.Bucket.{CanBeAsked, total_weight, weight_within};

use crush_map::{ItemId, Weight, total_weight};

/// Returns whether a bucket of `items` can be built: they are 1 to 65,535, and the sum of their
/// weights is below 2^32.
pub fn can_be_asked(items: &[(ItemId, Weight)]) -> bool
    ensures yes { IsTrue result → CanBeAsked items.now }
    ensures no { CanBeAsked items.now → IsTrue result }
{
    !items.is_empty() && items.len() < 65_536 && total_weight(items) < 4_294_967_296
}

/// Adds the weights at `count` places from `from` on, in 16.16 fixed point.
pub(crate) fn weight_within(items: &[(ItemId, Weight)], from: usize, count: usize) -> u32
    requires few { length items.now < 2 ^ 16 }
    requires light { total_weight items.now < 2 ^ 32 }
    ensures { result ≡ weight_within items.now from count }
{
    let rest = &items[from.min(items.len())..];
    total_weight(&rest[..count.min(rest.len())]) as u32
}
