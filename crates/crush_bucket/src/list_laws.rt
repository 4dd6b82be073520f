//! Laws of list buckets: each contract holds of the definitions alone.

ghost use Rattle.std.specs.Prelude.{◌≡◌, ◌<◌, ◌⊎◌, ℕ, length, if◌then◌else◌};
ghost use Rattle.crush_bucket.specs.Bucket.{WeightedItem, BucketView};
ghost use Rattle.crush_bucket.specs.Kinds.{takes};
ghost use Rattle.crush_bucket.specs.Pick.{pick};
ghost use Rattle.crush_bucket.specs.Appended.{IsList, with_last};

/// A list bucket of two or more items picks its last item, or what it picks without its last place:
/// the last item where that takes the input.
pub fn a_list_picks_its_last_item_or_as_without_it()
    ensures either { (b : BucketView) (last : WeightedItem) (x r : ℕ) → IsList b → 0 < length b.items → (pick (with_last b last) x r ≡ last.0) ⊎ (pick (with_last b last) x r ≡ pick b x r) }
    ensures which { (b : BucketView) (last : WeightedItem) (x r : ℕ) → IsList b → 0 < length b.items → pick (with_last b last) x r ≡ (if takes b.id (with_last b last).items x r (length b.items) then last.0 else pick b x r) }
{}
