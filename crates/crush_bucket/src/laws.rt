//! Laws of the definitions: each contract holds of the definitions alone.

ghost use Rattle.crush_map.specs.Map.{Map, IsMap};
ghost use Rattle.crush_bucket.specs.Laws.{PicksBelow, HasNoDeviceBucket, IsGreatest, NonePasses};
ghost use Rattle.crush_bucket.specs.Tables.{tables_of};
ghost use Rattle.std.specs.Prelude.{◌≢◌, ◌<◌, length, ◌≤◌, ◌^◌, ℕ, Bool, MatchOption};
ghost use Rattle.crush_bucket.specs.Bucket.{BucketView, IsItemOf, weight_at};
ghost use Rattle.crush_bucket.specs.Kinds.{greatest, height_of};
ghost use Rattle.crush_bucket.specs.Pick.{pick};
ghost use Rattle.crush_bucket.specs.Pickable.{pickable, IsWeighed};

use crush_hash::laws::permutation_has_each_place;
use crush_map::{Kind, buckets_are_sound};

/// On the tables of a map each bucket picks devices and buckets of smaller numbers alone.
pub fn buckets_of_a_map_pick_below()
    ensures { (m : Map) → IsMap m → PicksBelow (tables_of m) }
{
    buckets_are_sound();
    permutation_has_each_place();
}

/// No bucket of a map has the type of devices.
pub fn no_bucket_of_a_map_has_type_0()
    ensures { (m : Map) → IsMap m → HasNoDeviceBucket (tables_of m) }
{
    buckets_are_sound();
}

/// What is found is the greatest number below n that passes; where nothing is found, no number
/// below n passes.
pub fn greatest_passes()
    ensures { (p : ℕ → Bool) (n : ℕ) → MatchOption (greatest p n) (NonePasses p n) (IsGreatest p n) }
{}

/// A tree's leaves are enough for its bucket, and those of half as many are too few.
pub fn height_is_least()
    ensures enough { (size : ℕ) → size ≤ 2 ^ height_of size }
    ensures least { (size h : ℕ) → h < height_of size → 2 ^ h < size }
{}

/// What a bucket that has items picks is one of them.
pub fn a_pick_is_an_item()
    ensures { (b : BucketView) (x r : ℕ) → 0 < length b.items → IsItemOf b.items (pick b x r) }
{
    permutation_has_each_place();
}

/// What a bucket that has items picks is one of those that it can pick. Where a place of a bucket
/// that isn't uniform has a weight above 0, no item of weight 0 is picked; where none has, a list
/// and a straw2 bucket pick their first item, and a tree its last.
pub fn a_pick_is_pickable()
    ensures pickable { (b : BucketView) (x r : ℕ) → 0 < length b.items → IsItemOf (pickable b) (pick b x r) }
    ensures weighed { (b : BucketView) (x r place : ℕ) → b.kind ≢ Kind.Uniform → 0 < weight_at b.items place → IsWeighed b.items (pick b x r) }
{
    permutation_has_each_place();
}
