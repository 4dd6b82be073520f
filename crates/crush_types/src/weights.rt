//! Weights of a bucket's items.

ghost use Rattle.std.specs.Prelude.{◌≡◌, ◌==◌, ◌<◌, ◌^◌, length};
ghost use Rattle.std.specs.List.{list_all};
ghost use Rattle.crush_types.specs.Weights as spec;

use crate::word::{ItemId, Weight};

/// Returns the sum of the weights, in 16.16 fixed point, of fewer than 2^16 items: it fits in 64
/// bits.
pub fn total_weight(items: &[(ItemId, Weight)]) -> u64
    requires { length items.now < 2 ^ 16 }
    ensures { result ≡ spec.total_weight items.now }
{
    items.iter().map(|item| u64::from(item.1.0)).sum()
}

/// Returns whether all items have the same weight, as they must in a uniform bucket.
pub fn has_equal_weights(items: &[(ItemId, Weight)]) -> bool
    ensures { result ≡ spec.has_equal_weights items.now }
{
    match items {
        [] => true,
        [first, rest @ ..] => all_weigh(rest, first.1.0),
    }
}

/// Returns whether each item has the weight `weight`, in 16.16 fixed point.
fn all_weigh(items: &[(ItemId, Weight)], weight: u32) -> bool
    ensures { result ≡ list_all (λ item. item.1.0 == weight) items.now }
{
    items.iter().all(|item| item.1.0 == weight)
}
