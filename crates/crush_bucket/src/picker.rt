//! What can be asked for an item.

ghost use Rattle.std.specs.Prelude.{◌≡◌, ℕ, ◌<◌, slice_index, slice_index_or};
ghost use Rattle.crush_bucket.specs.Bucket.{BucketView, IsItemOf};
ghost use Rattle.crush_bucket.specs.Pick.{pick, perm_of, after_pick};
ghost use Rattle.crush_hash.specs.Permutation.{no_id};

use crush_hash::Perm;
use crush_map::ItemId;

/// A bucket that has items, of which it picks one.
pub trait Picker {
    /// The bucket that contracts see.
    ghost bucket: { Self → BucketView };

    /// Picks the item for an input and an attempt, whatever the scratch was asked before. Allocates
    /// nothing.
    fn pick(&self, perm: &mut Perm, x: u32, r: u32) -> ItemId
        requires { perm.old.of ≡ perm_of (bucket self.now) }
        ensures picked { result ≡ pick (bucket self.now) x r }
        ensures item { IsItemOf (bucket self.now).items result }
        ensures same { perm.new.of ≡ perm.old.of }
        ensures asked { perm.new ≡ after_pick (bucket self.now) perm.old x r };

    /// Picks the items for eight inputs and one attempt, in the order of the inputs, whatever the
    /// scratch was asked before. Trees, and uniform buckets at early places, pick them side by
    /// side. Allocates nothing.
    fn pick_eight(&self, perm: &mut Perm, xs: &[u32; 8], r: u32) -> [ItemId; 8]
        requires { perm.old.of ≡ perm_of (bucket self.now) }
        ensures picked { (lane : ℕ) → lane < 8 → slice_index_or result lane no_id ≡ pick (bucket self.now) (slice_index xs.now lane) r }
        ensures same { perm.new.of ≡ perm.old.of };
}
