//! A bucket of any kind.

ghost use Rattle.std.specs.Prelude.{◌≡◌, ℕ, ◌<◌, ◌≤◌, ◌^◌, IfOk, IfSome, length, slice_index, slice_index_or};
ghost use Rattle.crush_bucket.specs.Bucket.{HasEqualWeights, IsItemOf, item_at, total_weight};
ghost use Rattle.crush_bucket.specs.Pick.{pick, perm_of, after_pick};
ghost use Rattle.crush_bucket.specs.Private.Draw.{IsDrawOf, kind_of};
ghost use Rattle.crush_hash.specs.Permutation.{no_id};

use crate::eight::pick_alike;
use crate::list::{list_item, sums_of};
use crate::straw2::straw2_item;
use crate::tree::{Tree, TreeRef};
use crate::uniform::asked_place;
use crush_hash::{Perm, Perms};
use crush_map::{ItemId, Kind, Weight};
use std::alloc::{AllocError, Global};
use std::marker::Model;

/// How a bucket picks: its kind, with what that stores beside the items.
#[derive(Drop)]
pub(crate) enum Draw {
    Uniform,
    /// The sums of the weights up to each place.
    List(Vec<u32>),
    Tree(Tree),
    Straw2,
}

/// A bucket of any kind. It may have no items; then it isn't asked. Contracts see the bucket.
#[derive(Drop)]
pub struct AnyBucket {
    id: ItemId,
    items: Vec<(ItemId, Weight)>,
    draw: Draw,
}

impl Model for AnyBucket {
    ghost use Rattle.std.specs.Prelude.{◌<◌, ◌^◌, length};
    ghost use Rattle.crush_bucket.specs.Bucket.{BucketView};
    ghost use Rattle.crush_bucket.specs.Private.Draw.{IsDrawOf, kind_of};

    ghost Value = { BucketView };

    ghost view = { λ a. record { id = a.id; kind = kind_of a.draw; items = a.items.items } };

    ghost invariant = { λ a. record {
      few : length a.items.items < 2 ^ 16;
      draw : IsDrawOf a.items.items a.draw;
    } };
}

impl AnyBucket {
    /// Makes the bucket of the kind `kind` with `items`, in order of place.
    ///
    /// `Err(AllocError)`: an allocation failed; nothing is changed.
    pub fn build(
        alloc: Global,
        kind: Kind,
        id: ItemId,
        items: &[(ItemId, Weight)],
    ) -> Result<Self, AllocError>
        requires few { length items.now < 2 ^ 16 }
        requires light { total_weight items.now < 2 ^ 32 }
        requires equal { kind ≡ Kind.Uniform → HasEqualWeights items.now }
        ensures { IfOk result (λ b. b ≡ record { id = id; kind = kind; items = items.now }) }
    {
        let draw = draw_of(alloc, kind, items)?;
        let items = Vec::from_slice(alloc, items)?;
        Ok(AnyBucket { id, items, draw })
    }

    /// Returns the bucket's id.
    #[inline]
    pub fn id(&self) -> ItemId
        ensures { result ≡ self.now.id }
    {
        self.id
    }

    /// Returns the bucket's kind.
    #[inline]
    pub fn kind(&self) -> Kind
        ensures { result ≡ self.now.kind }
    {
        match &self.draw {
            Draw::Uniform => Kind::Uniform,
            Draw::List(_) => Kind::List,
            Draw::Tree(_) => Kind::Tree,
            Draw::Straw2 => Kind::Straw2,
        }
    }

    /// Returns how many items the bucket has.
    #[inline]
    pub fn size(&self) -> usize
        ensures value { result ≡ length self.now.items }
        ensures few { result < 2 ^ 16 }
    {
        self.items.len()
    }

    /// Returns the items with their weights, in order of place.
    #[inline]
    pub fn items(&self) -> &[(ItemId, Weight)]
        ensures { result.now ≡ self.now.items }
    {
        self.items.as_slice()
    }

    /// Returns the item at a place.
    #[inline]
    pub(crate) fn item(&self, place: usize) -> ItemId
        requires { place < length self.now.items }
        ensures value { result ≡ item_at self.now.items place }
        ensures item { IsItemOf self.now.items result }
    {
        self.items[place].0
    }

    /// Returns the bucket with its tree, where it is a tree bucket that has an item.
    #[inline]
    pub(crate) fn tree(&self) -> Option<TreeRef<'_>>
        ensures { IfSome result (λ tree. tree ≡ self.now) }
    {
        if self.items.is_empty() {
            return None;
        }
        match &self.draw {
            Draw::Tree(tree) => Some(TreeRef::new(self, tree)),
            _ => None,
        }
    }

    /// Picks the item for an input and an attempt, whatever the scratch was asked before. Allocates
    /// nothing.
    #[inline]
    #[tactic(auto, unfolding(crate::specs::Kinds::uniform_pick, crate::specs::Pick::pick))]
    pub fn pick(&self, perm: &mut Perm, x: u32, r: u32) -> ItemId
        requires some { 0 < length self.now.items }
        requires its { perm.old.of ≡ perm_of self.now }
        ensures picked { result ≡ pick self.now x r }
        ensures item { IsItemOf self.now.items result }
        ensures same { perm.new.of ≡ perm.old.of }
        ensures asked { perm.new ≡ after_pick self.now perm.old x r }
    {
        match &self.draw {
            Draw::Uniform => self.item(perm.member(x, asked_place(r, self.items.len()))),
            Draw::List(sums) => list_item(self.id, &self.items, sums, x, r),
            Draw::Tree(tree) => TreeRef::new(self, tree).item(x, r),
            Draw::Straw2 => straw2_item(&self.items, x, r),
        }
    }

    /// Picks the item for an input and an attempt, by permutations of several buckets, among which
    /// this bucket has the number `number`, whatever they were asked before. Allocates nothing.
    #[inline]
    #[tactic(auto, unfolding(crate::specs::Kinds::uniform_pick, crate::specs::Pick::pick))]
    pub fn pick_by(&self, perms: &mut Perms, number: usize, x: u32, r: u32) -> ItemId
        requires some { 0 < length self.now.items }
        requires room { self.now.kind ≡ Kind.Uniform → length self.now.items ≤ perms.old }
        ensures picked { result ≡ pick self.now x r }
        ensures item { IsItemOf self.now.items result }
        ensures same { perms.new ≡ perms.old }
    {
        match &self.draw {
            Draw::Uniform => {
                let size = self.items.len();
                self.item(perms.member(number, self.id, size, x, asked_place(r, size)))
            }
            Draw::List(sums) => list_item(self.id, &self.items, sums, x, r),
            Draw::Tree(tree) => TreeRef::new(self, tree).item(x, r),
            Draw::Straw2 => straw2_item(&self.items, x, r),
        }
    }

    /// Picks the items for eight inputs and one attempt, in the order of the inputs, whatever the
    /// scratch was asked before. Trees, and uniform buckets at early places, pick them side by
    /// side. Allocates nothing.
    pub fn pick_eight(&self, perm: &mut Perm, xs: &[u32; 8], r: u32) -> [ItemId; 8]
        requires some { 0 < length self.now.items }
        requires its { perm.old.of ≡ perm_of self.now }
        ensures picked { (lane : ℕ) → lane < 8 → slice_index_or result lane no_id ≡ pick self.now (slice_index xs.now lane) r }
        ensures same { perm.new.of ≡ perm.old.of }
    {
        if let Some(items) = pick_alike(self, xs, r) {
            return items;
        }
        let mut items = [ItemId(0); 8];
        for lane in 0..8 {
            items[lane] = self.pick(perm, xs[lane], r);
        }
        items
    }
}

/// Picks as a bucket that is known to be uniform does, without a look at its kind.
#[inline]
#[tactic(auto, unfolding(crate::specs::Kinds::uniform_pick, crate::specs::Pick::pick))]
pub(crate) fn uniform_item(bucket: &AnyBucket, perm: &mut Perm, x: u32, r: u32) -> ItemId
    requires kind { bucket.now.kind ≡ Kind.Uniform }
    requires some { 0 < length bucket.now.items }
    requires its { perm.old.of ≡ perm_of bucket.now }
    ensures picked { result ≡ pick bucket.now x r }
    ensures item { IsItemOf bucket.now.items result }
    ensures same { perm.new.of ≡ perm.old.of }
    ensures asked { perm.new ≡ after_pick bucket.now perm.old x r }
{
    bucket.item(perm.member(x, asked_place(r, bucket.items.len())))
}

/// Picks as a bucket that is known to be a list does.
#[inline]
#[tactic(auto, unfolding(crate::specs::Pick::pick))]
pub(crate) fn list_bucket_item(bucket: &AnyBucket, x: u32, r: u32) -> ItemId
    requires kind { bucket.now.kind ≡ Kind.List }
    requires some { 0 < length bucket.now.items }
    ensures picked { result ≡ pick bucket.now x r }
    ensures item { IsItemOf bucket.now.items result }
{
    match &bucket.draw {
        Draw::List(sums) => list_item(bucket.id, &bucket.items, sums, x, r),
        _ => unreachable!(),
    }
}

/// Picks as a bucket that is known to be a tree does.
#[inline]
#[tactic(auto, unfolding(crate::specs::Pick::pick))]
pub(crate) fn tree_item(bucket: &AnyBucket, x: u32, r: u32) -> ItemId
    requires kind { bucket.now.kind ≡ Kind.Tree }
    requires some { 0 < length bucket.now.items }
    ensures picked { result ≡ pick bucket.now x r }
    ensures item { IsItemOf bucket.now.items result }
{
    match &bucket.draw {
        Draw::Tree(tree) => TreeRef::new(bucket, tree).item(x, r),
        _ => unreachable!(),
    }
}

/// Picks as a bucket that is known to be straw2 does.
#[inline]
#[tactic(auto, unfolding(crate::specs::Pick::pick))]
pub(crate) fn straw2_bucket_item(bucket: &AnyBucket, x: u32, r: u32) -> ItemId
    requires kind { bucket.now.kind ≡ Kind.Straw2 }
    requires some { 0 < length bucket.now.items }
    ensures picked { result ≡ pick bucket.now x r }
    ensures item { IsItemOf bucket.now.items result }
{
    straw2_item(&bucket.items, x, r)
}

/// Makes what a bucket of the kind `kind` stores beside its items.
fn draw_of(alloc: Global, kind: Kind, items: &[(ItemId, Weight)]) -> Result<Draw, AllocError>
    requires few { length items.now < 2 ^ 16 }
    requires light { total_weight items.now < 2 ^ 32 }
    requires equal { kind ≡ Kind.Uniform → HasEqualWeights items.now }
    ensures kind { IfOk result (λ draw. kind_of draw ≡ kind) }
    ensures draw { IfOk result (IsDrawOf items.now) }
{
    Ok(match kind {
        Kind::Uniform => Draw::Uniform,
        Kind::List => Draw::List(sums_of(alloc, items)?),
        Kind::Tree => Draw::Tree(Tree::build(alloc, items)?),
        Kind::Straw2 => Draw::Straw2,
    })
}
