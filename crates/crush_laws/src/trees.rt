//! Laws of walks over the tree of a map.

ghost use Rattle.std.specs.Prelude.{◌≡◌, ◌<◌, ◌+◌, ℕ, length, true};
ghost use Rattle.crush_map.specs.crush_types.specs.declared.ItemId.{ItemId};
ghost use Rattle.crush_map.specs.Map.{Map, IsMap};
ghost use Rattle.crush_map.specs.Sound.{has_item};
ghost use Rattle.crush_bucket.specs.Bucket.{BucketView};
ghost use Rattle.crush_bucket.specs.Tables.{tables_of, bucket_at};
ghost use Rattle.crush_choose.specs.Reach.{reach, step};
ghost use Rattle.crush_laws.specs.MapTree.{Tree, IsTreeAt, IsTreeOf, id_of};
ghost use Rattle.crush_laws.specs.Walk.{added, walk};

use crush_bucket::laws::a_pick_is_an_item;
use crush_choose::laws::walk_on_a_map_goes_on;
use crush_map::{buckets_are_sound, numbers_and_names_are_once};

/// Each item of a map, and so each of its buckets, has a tree, and no other.
pub fn items_of_a_map_have_one_tree()
    ensures item { (m : Map) (item : ItemId) → IsMap m → has_item m.devices m.buckets item.0 ≡ true → (tree : Tree) × IsTreeOf m tree × (id_of tree ≡ item) }
    ensures bucket { (m : Map) (bucket : ℕ) → IsMap m → bucket < length m.buckets → (tree : Tree) × IsTreeAt m bucket tree }
    ensures one { (m : Map) (a b : Tree) → IsMap m → IsTreeOf m a → IsTreeOf m b → id_of a ≡ id_of b → a ≡ b }
{
    buckets_are_sound();
    numbers_and_names_are_once();
}

/// A walk over the numbers of a map's buckets ends where the walk down the tree ends, whatever the
/// attempts are: so does one of choose firstn, with one attempt at all buckets, and one of choose
/// indep.
pub fn walks_go_down_the_tree()
    ensures any { (m : Map) (bucket x wanted : ℕ) (rr : BucketView → ℕ) (tree : Tree) → IsMap m → IsTreeAt m bucket tree
        → reach (tables_of m) x (λ b. rr (bucket_at (tables_of m) b)) wanted bucket ≡ walk x rr wanted tree }
    ensures firstn { (m : Map) (bucket x wanted r : ℕ) (tree : Tree) → IsMap m → IsTreeAt m bucket tree
        → reach (tables_of m) x (λ b. r) wanted bucket ≡ walk x (λ b. r) wanted tree }
    ensures indep { (m : Map) (bucket x wanted start numrep f : ℕ) (tree : Tree) → IsMap m → IsTreeAt m bucket tree
        → reach (tables_of m) x (λ b. start + step (tables_of m) numrep f b) wanted bucket ≡ walk x (λ b. start + added numrep f b) wanted tree }
{
    a_pick_is_an_item();
    buckets_are_sound();
    numbers_and_names_are_once();
    walk_on_a_map_goes_on();
}
