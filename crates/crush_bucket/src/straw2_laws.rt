//! Laws of straw2 buckets: each contract holds of the definitions alone.

ghost use Rattle.std.specs.Prelude.{◌≡◌, ◌<◌, ◌≤◌, ◌⊎◌, ◌++◌, ◌∷◌, ℕ, List, length};
ghost use Rattle.crush_bucket.specs.Bucket.{WeightedItem, BucketView, at, item_at, weight_at};
ghost use Rattle.crush_bucket.specs.Kinds.{arrival, straw2_place, straw2_pick};
ghost use Rattle.crush_bucket.specs.Pick.{pick};
ghost use Rattle.crush_bucket.specs.Straw2Laws.{IsStraw2, IsFirst, HasSameItems, IsLowered, DiffersAt, AllAreAmong};

/// A straw2 bucket picks the item at the place that its items give: its id counts for nothing.
pub fn a_straw2_bucket_picks_by_its_items()
    ensures pick { (b : BucketView) (x r : ℕ) → IsStraw2 b → pick b x r ≡ straw2_pick b.items x r }
    ensures place { (items : List WeightedItem) (x r : ℕ) → straw2_pick items x r ≡ item_at items (straw2_place items x r) }
{}

/// The place of a pick is that of the item that arrives first: none arrives sooner, and those
/// before it arrive later. No other place is.
pub fn a_straw2_pick_arrives_first()
    ensures is { (items : List WeightedItem) (x r : ℕ) → 0 < length items → IsFirst items x r (straw2_place items x r) }
    ensures only { (items : List WeightedItem) (x r place : ℕ) → IsFirst items x r place → straw2_place items x r ≡ place }
{}

/// Whatever items weigh more or less than before, and however many, also 0: a pick stays at its
/// place, or it leaves an item that weighs less than before, or it comes to one that weighs more.
pub fn a_pick_moves_only_from_a_lower_weight_or_to_a_higher_one()
    ensures { (items others : List WeightedItem) (x r : ℕ) → 0 < length items → HasSameItems items others → (straw2_place others x r ≡ straw2_place items x r) ⊎ ((weight_at others (straw2_place items x r) < weight_at items (straw2_place items x r)) ⊎ (weight_at items (straw2_place others x r) < weight_at others (straw2_place others x r))) }
{}

/// Where no item but the picked one weighs more than before, and that one no less, the bucket picks
/// the same item.
pub fn lower_weights_of_others_leave_a_pick()
    ensures { (items others : List WeightedItem) (x r : ℕ) → 0 < length items → IsLowered items others (straw2_place items x r) → straw2_pick others x r ≡ straw2_pick items x r }
{}

/// Where the weight of one item changes, also from 0 or to 0, the pick is the same, or it was that
/// item or becomes it: where the weight rises picks move only to the item, and where it falls only
/// away from it.
pub fn a_change_of_one_weight_moves_a_pick_only_from_or_to_its_item()
    ensures either { (items others : List WeightedItem) (x r place : ℕ) → 0 < length items → DiffersAt items others place → (straw2_pick others x r ≡ straw2_pick items x r) ⊎ ((straw2_pick items x r ≡ item_at items place) ⊎ (straw2_pick others x r ≡ item_at items place)) }
    ensures rises { (items others : List WeightedItem) (x r place : ℕ) → 0 < length items → DiffersAt items others place → weight_at items place ≤ weight_at others place → (straw2_pick others x r ≡ straw2_pick items x r) ⊎ (straw2_pick others x r ≡ item_at items place) }
    ensures falls { (items others : List WeightedItem) (x r place : ℕ) → 0 < length items → DiffersAt items others place → weight_at others place ≤ weight_at items place → (straw2_pick others x r ≡ straw2_pick items x r) ⊎ (straw2_pick items x r ≡ item_at items place) }
{}

/// An item that is put in at any place, or taken out: the bucket with it picks it, or what the
/// bucket without it picks. So picks move only to the item, or only away from it.
pub fn a_pick_with_an_item_more_is_that_item_or_the_pick_without_it()
    ensures { (front back : List WeightedItem) (item : WeightedItem) (x r : ℕ) → 0 < length (front ++ back) → (straw2_pick (front ++ item ∷ back) x r ≡ item.0) ⊎ (straw2_pick (front ++ item ∷ back) x r ≡ straw2_pick (front ++ back) x r) }
{}

/// Whatever the order in which the same items stand, the item that is picked arrives at the same
/// time: so the order matters only between items that arrive at once.
pub fn another_order_changes_a_pick_only_between_items_that_arrive_at_once()
    ensures { (items others : List WeightedItem) (x r : ℕ) → 0 < length items → AllAreAmong items others → AllAreAmong others items → arrival x r (at others (straw2_place others x r)) ≡ arrival x r (at items (straw2_place items x r)) }
{}
