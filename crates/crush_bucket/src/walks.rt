//! Walks down eight trees, side by side: the lanes of one vector hash a level of each.

ghost use Rattle.std.specs.Prelude.{◌≡◌, ◌<◌, ◌+◌, ℕ, IfSome, slice_index, slice_index_or};
ghost use Rattle.crush_bucket.specs.Bucket.{word};
ghost use Rattle.crush_bucket.specs.Eight.{IsPickedBy};
ghost use Rattle.crush_bucket.specs.Private.Walks.{IsNode, IsOnWay, GoesOn, IsPickAt};
ghost use Rattle.crush_hash.specs.Permutation.{no_id};

use crate::any::AnyBucket;
use crate::tree::TreeRef;
use crush_hash::hash4_each;
use crush_map::ItemId;

/// Picks the items of eight buckets for eight inputs and one attempt, in their order. `None`: one
/// of them isn't a tree, or has no items. Allocates nothing. It stands whole where it is called, so
/// that what the lanes of one tree share is read once.
#[inline(always)]
pub(crate) fn pick_trees(buckets: &[&AnyBucket; 8], xs: &[u32; 8], r: u32) -> Option<[ItemId; 8]>
    ensures { IfSome result (λ items. (lane : ℕ) (d : _) → lane < 8 → IsPickedBy (slice_index_or buckets.now lane d).now (slice_index xs.now lane) r (slice_index_or items lane no_id)) }
{
    let trees = [
        buckets[0].tree()?,
        buckets[1].tree()?,
        buckets[2].tree()?,
        buckets[3].tree()?,
        buckets[4].tree()?,
        buckets[5].tree()?,
        buckets[6].tree()?,
        buckets[7].tree()?,
    ];
    Some(walk_down(&trees, xs, r))
}

/// Picks the items of eight trees for eight inputs and one attempt, in their order. Allocates
/// nothing.
#[inline(always)]
fn walk_down(trees: &[TreeRef<'_>; 8], xs: &[u32; 8], r: u32) -> [ItemId; 8]
    ensures { (lane : ℕ) (d : _) → lane < 8 → IsPickedBy (slice_index_or trees.now lane d) (slice_index xs.now lane) r (slice_index_or result lane no_id) }
{
    let (words, roots, highest) = begin(trees);
    let (mut nodes, mut left) = (roots, highest);
    while left > 0 {
        left -= 1;
        let hashes = hash4_each(xs, &nodes, &[r; 8], &words);
        nodes = children(trees, &nodes, &hashes, left);
    }
    items_at(trees, &nodes)
}

/// Returns the words of the ids of eight trees, their roots, and how many levels the highest has.
#[inline]
fn begin(trees: &[TreeRef<'_>; 8]) -> ([u32; 8], [u32; 8], u32)
    ensures words { (lane : ℕ) (d : _) → lane < 8 → slice_index result.0 lane ≡ word (slice_index_or trees.now lane d).id }
    ensures roots { (lane : ℕ) (d : _) (x r : ℕ) → lane < 8 → IsOnWay (slice_index_or trees.now lane d) x r result.2 (slice_index result.1 lane) }
{
    let (mut words, mut roots, mut highest) = ([0; 8], [0; 8], 0);
    for lane in 0..8 {
        let tree = &trees[lane];
        words[lane] = tree.id().word();
        roots[lane] = tree.root();
        highest = highest.max(tree.height());
    }
    (words, roots, highest)
}

/// Returns the children to which the hashes of eight nodes lead, where `left` levels are below the
/// children.
#[inline]
fn children(trees: &[TreeRef<'_>; 8], nodes: &[u32; 8], hashes: &[u32; 8], left: u32) -> [u32; 8]
    requires { (lane : ℕ) (d : _) → lane < 8 → IsNode (slice_index_or trees.now lane d) (left + 1) (slice_index nodes.now lane) }
    ensures { (lane : ℕ) (d : _) → lane < 8 → GoesOn (slice_index_or trees.now lane d) left (slice_index nodes.now lane) (slice_index hashes.now lane) (slice_index result lane) }
{
    let mut below = [0; 8];
    for lane in 0..8 {
        below[lane] = trees[lane].child(nodes[lane], hashes[lane], left);
    }
    below
}

/// Returns the items at the places of eight leaves.
#[inline]
fn items_at(trees: &[TreeRef<'_>; 8], leaves: &[u32; 8]) -> [ItemId; 8]
    ensures { (lane : ℕ) (d : _) → lane < 8 → IsPickAt (slice_index_or trees.now lane d) (slice_index leaves.now lane) (slice_index_or result lane no_id) }
{
    let mut items = [ItemId(0); 8];
    for lane in 0..8 {
        items[lane] = trees[lane].item_at(leaves[lane]);
    }
    items
}
