//! The picks of tree buckets.

ghost use Rattle.std.specs.Prelude.{◌≡◌, ◌<◌, ◌+◌, ◌*◌, ◌^◌, ◌++◌, IfOk, length};
ghost use Rattle.crush_bucket.specs.Bucket.{IsItemOf, total_weight};
ghost use Rattle.crush_bucket.specs.Kinds.{height_of, place_within, tree_pick};
ghost use Rattle.crush_bucket.specs.Private.Walks.{tree_height, IsNode, GoesOn, IsPickAt, Keeps};
ghost use Rattle.crush_bucket.specs.Private.Kept.{AreNodes, node_weights};

use crate::any::AnyBucket;
use crate::descent::{child, down, last_down, places, two_down};
use crate::sums::weight_within;
use crush_map::{ItemId, Weight};
use std::alloc::{AllocError, Global};
use std::marker::Model;

/// A binary tree over the places of a bucket.
#[derive(Drop)]
pub(crate) struct Tree {
    pub(crate) height: u32,
    /// The weights of the nodes, at their labels.
    pub(crate) nodes: Vec<u32>,
}

impl Tree {
    /// Makes the tree over the places of `items`.
    ///
    /// `Err(AllocError)`: an allocation failed; nothing is changed.
    pub(crate) fn build(alloc: Global, items: &[(ItemId, Weight)]) -> Result<Self, AllocError>
        requires few { length items.now < 2 ^ 16 }
        requires light { total_weight items.now < 2 ^ 32 }
        ensures { IfOk result (λ tree. AreNodes items.now tree.height tree.nodes.items) }
    {
        let height = height_for(items.len());
        let nodes = nodes_of(alloc, items, height)?;
        Ok(Tree { height, nodes })
    }
}

/// A tree bucket that has an item, with its tree. Contracts see the bucket.
#[derive(Drop)]
pub(crate) struct TreeRef<'a> {
    bucket: &'a AnyBucket,
    tree: &'a Tree,
}

impl<'a> Model for TreeRef<'a> {
    ghost use Rattle.crush_bucket.specs.Bucket.{BucketView};
    ghost use Rattle.crush_bucket.specs.Private.Walks.{Keeps};

    ghost Value = { BucketView };

    ghost view = { λ a. a.bucket.now };

    ghost invariant = { λ a. Keeps a.bucket.now a.tree.now.height a.tree.now.nodes.items };
}

impl<'a> TreeRef<'a> {
    ghost use Rattle.std.specs.Prelude.{◌≡◌, ◌+◌, ◌^◌};
    ghost use Rattle.crush_bucket.specs.Bucket.{IsItemOf};
    ghost use Rattle.crush_bucket.specs.Kinds.{place_within, tree_pick};
    ghost use Rattle.crush_bucket.specs.Private.Walks.{tree_height, IsNode, GoesOn, IsPickAt, Keeps};

    /// Makes the bucket with its tree.
    #[inline]
    pub(crate) fn new(bucket: &'a AnyBucket, tree: &'a Tree) -> TreeRef<'a>
        requires { Keeps bucket.now tree.now.height tree.now.nodes.items }
        ensures { result ≡ bucket.now }
    {
        TreeRef { bucket, tree }
    }

    /// Returns the bucket's id.
    #[inline]
    pub(crate) fn id(&self) -> ItemId
        ensures { result ≡ self.now.id }
    {
        self.bucket.id()
    }

    /// Returns the height of the tree.
    #[inline]
    pub(crate) fn height(&self) -> u32
        ensures { result ≡ tree_height self.now }
    {
        self.tree.height
    }

    /// Returns the root.
    #[inline]
    pub(crate) fn root(&self) -> u32
        ensures { result ≡ 2 ^ tree_height self.now }
    {
        places(self.tree.height) as u32
    }

    /// Returns the child to which a node's hash leads where `left` levels are below the child. The
    /// walk down a tree that has fewer waits at the root.
    #[inline]
    pub(crate) fn child(&self, node: u32, hash: u32, left: u32) -> u32
        requires { IsNode self.now (left + 1) node }
        ensures { GoesOn self.now left node hash result }
    {
        if left >= self.tree.height {
            return node;
        }
        child(&self.tree.nodes, hash, node as usize, places(left)) as u32
    }

    /// Returns the item at a leaf's place, or the last item where it lies past the end.
    #[inline]
    pub(crate) fn item_at(&self, leaf: u32) -> ItemId
        ensures { IsPickAt self.now leaf result }
    {
        self.bucket
            .item((leaf as usize / 2).min(self.bucket.size() - 1))
    }

    /// Finds the place at which the walk from the root ends.
    fn place_for(&self, x: u32, r: u32) -> usize
        ensures { result ≡ place_within self.now.id self.now.items x r 0 (tree_height self.now) }
    {
        let (id, nodes) = (self.bucket.id(), self.tree.nodes.as_slice());
        let mut node = places(self.tree.height);
        let mut level = self.tree.height;
        while level > 2 {
            node = down(id, nodes, x, r, node, level);
            level -= 3;
        }
        if level == 2 {
            node = two_down(id, nodes, x, r, node);
        } else if level == 1 {
            node = last_down(id, nodes, x, r, node);
        }
        node / 2
    }

    /// Picks the item for the input `x` and the attempt `r`.
    #[tactic(auto, unfolding(crate::specs::Kinds::tree_pick))]
    pub(crate) fn item(&self, x: u32, r: u32) -> ItemId
        ensures picked { result ≡ tree_pick self.now.id self.now.items x r }
        ensures item { IsItemOf self.now.items result }
    {
        let place = self.place_for(x, r);
        self.bucket.item(place.min(self.bucket.size() - 1))
    }
}

/// Finds the least height of a tree with at least `size` leaves.
fn height_for(size: usize) -> u32
    requires few { size < 2 ^ 16 }
    ensures value { result ≡ height_of size }
    ensures low { result < 17 }
{
    let mut height = 0;
    let mut width = 1;
    while width < size {
        width *= 2;
        height += 1;
    }
    height
}

/// Makes the list of the weights of all nodes, at their labels; no node has the label 0.
fn nodes_of(alloc: Global, items: &[(ItemId, Weight)], height: u32) -> Result<Vec<u32>, AllocError>
    requires few { length items.now < 2 ^ 16 }
    requires light { total_weight items.now < 2 ^ 32 }
    requires low { height < 17 }
    requires least { height ≡ height_of (length items.now) }
    ensures { IfOk result (λ nodes. AreNodes items.now height nodes.items) }
{
    let mut nodes = Vec::with_capacity(alloc, 2 * places(height))?;
    nodes.push(0)?;
    push_nodes(items, 0, height, &mut nodes)?;
    Ok(nodes)
}

/// Appends the weights of the nodes of a range, in order of label.
fn push_nodes(
    items: &[(ItemId, Weight)],
    from: usize,
    height: u32,
    nodes: &mut Vec<u32>,
) -> Result<(), AllocError>
    requires few { length items.now < 2 ^ 16 }
    requires light { total_weight items.now < 2 ^ 32 }
    requires low { height < 17 }
    requires near { from + 2 ^ height < 2 ^ 32 }
    ensures { IfOk result (λ _. nodes.new.items ≡ nodes.old.items ++ node_weights items.now from height) }
{
    if height == 0 {
        nodes.push(weight_within(items, from, 1))?;
        return Ok(());
    }
    let half = places(height - 1);
    push_nodes(items, from, height - 1, nodes)?;
    nodes.push(weight_within(items, from, 2 * half))?;
    push_nodes(items, from + half, height - 1, nodes)?;
    Ok(())
}
