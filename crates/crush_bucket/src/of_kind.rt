//! Buckets of one kind that have items.

ghost use Rattle.std.specs.Prelude.{◌≡◌, ◌<◌, ◌^◌, IfOk, length};
ghost use Rattle.crush_bucket.specs.Bucket.{HasEqualWeights, total_weight};

use crate::any::AnyBucket;
use crate::picker::Picker;
use crush_hash::Perm;
use crush_map::{ItemId, Kind, Weight};
use std::alloc::{AllocError, Global};
use std::marker::Model;

/// A bucket whose items weigh the same: it picks by a permutation of its places. Contracts see the
/// bucket.
#[derive(Drop)]
pub struct UniformBucket {
    bucket: AnyBucket,
}

impl Model for UniformBucket {
    ghost use Rattle.std.specs.Prelude.{◌≡◌, ◌<◌, length};
    ghost use Rattle.crush_bucket.specs.Bucket.{BucketView};
    ghost use Rattle.crush_map.specs.crush_types.specs.declared.Kind.TheVariants.{Uniform};

    ghost Value = { BucketView };

    ghost view = { λ a. a.bucket };

    ghost invariant = { λ a. record { kind : a.bucket.kind ≡ Uniform; some : 0 < length a.bucket.items } };
}

impl UniformBucket {
    /// Makes the bucket of `items`, in order of place.
    ///
    /// `Err(AllocError)`: an allocation failed; nothing is changed.
    pub fn build(alloc: Global, id: ItemId, items: &[(ItemId, Weight)]) -> Result<Self, AllocError>
        requires some { 0 < length items.now }
        requires few { length items.now < 2 ^ 16 }
        requires light { total_weight items.now < 2 ^ 32 }
        requires equal { HasEqualWeights items.now }
        ensures { IfOk result (λ b. b ≡ record { id = id; kind = Kind.Uniform; items = items.now }) }
    {
        let bucket = AnyBucket::build(alloc, Kind::Uniform, id, items)?;
        Ok(UniformBucket { bucket })
    }

    /// Returns the bucket's id.
    pub fn id(&self) -> ItemId
        ensures { result ≡ self.now.id }
    {
        self.bucket.id()
    }

    /// Returns the bucket's kind.
    pub fn kind(&self) -> Kind
        ensures { result ≡ self.now.kind }
    {
        self.bucket.kind()
    }

    /// Returns how many items the bucket has.
    pub fn size(&self) -> usize
        ensures value { result ≡ length self.now.items }
        ensures some { 0 < result }
        ensures few { result < 2 ^ 16 }
    {
        self.bucket.size()
    }
}

impl Picker for UniformBucket {
    ghost bucket = { λ b. b };

    fn pick(&self, perm: &mut Perm, x: u32, r: u32) -> ItemId {
        crate::any::uniform_item(&self.bucket, perm, x, r)
    }

    fn pick_eight(&self, perm: &mut Perm, xs: &[u32; 8], r: u32) -> [ItemId; 8] {
        self.bucket.pick_eight(perm, xs, r)
    }
}

/// A bucket that picks the last of its items that takes the input. Contracts see the bucket.
#[derive(Drop)]
pub struct ListBucket {
    bucket: AnyBucket,
}

impl Model for ListBucket {
    ghost use Rattle.std.specs.Prelude.{◌≡◌, ◌<◌, length};
    ghost use Rattle.crush_bucket.specs.Bucket.{BucketView};
    ghost use Rattle.crush_map.specs.crush_types.specs.declared.Kind.TheVariants.{List};

    ghost Value = { BucketView };

    ghost view = { λ a. a.bucket };

    ghost invariant = { λ a. record { kind : a.bucket.kind ≡ List; some : 0 < length a.bucket.items } };
}

impl ListBucket {
    /// Makes the bucket of `items`, in order of place.
    ///
    /// `Err(AllocError)`: an allocation failed; nothing is changed.
    pub fn build(alloc: Global, id: ItemId, items: &[(ItemId, Weight)]) -> Result<Self, AllocError>
        requires some { 0 < length items.now }
        requires few { length items.now < 2 ^ 16 }
        requires light { total_weight items.now < 2 ^ 32 }
        ensures { IfOk result (λ b. b ≡ record { id = id; kind = Kind.List; items = items.now }) }
    {
        let bucket = AnyBucket::build(alloc, Kind::List, id, items)?;
        Ok(ListBucket { bucket })
    }

    /// Returns the bucket's id.
    pub fn id(&self) -> ItemId
        ensures { result ≡ self.now.id }
    {
        self.bucket.id()
    }

    /// Returns the bucket's kind.
    pub fn kind(&self) -> Kind
        ensures { result ≡ self.now.kind }
    {
        self.bucket.kind()
    }

    /// Returns how many items the bucket has.
    pub fn size(&self) -> usize
        ensures value { result ≡ length self.now.items }
        ensures some { 0 < result }
        ensures few { result < 2 ^ 16 }
    {
        self.bucket.size()
    }
}

impl Picker for ListBucket {
    ghost bucket = { λ b. b };

    fn pick(&self, perm: &mut Perm, x: u32, r: u32) -> ItemId {
        crate::any::list_bucket_item(&self.bucket, x, r)
    }

    fn pick_eight(&self, perm: &mut Perm, xs: &[u32; 8], r: u32) -> [ItemId; 8] {
        self.bucket.pick_eight(perm, xs, r)
    }
}

/// A bucket that picks by a walk down a binary tree over its places. Contracts see the bucket.
#[derive(Drop)]
pub struct TreeBucket {
    bucket: AnyBucket,
}

impl Model for TreeBucket {
    ghost use Rattle.std.specs.Prelude.{◌≡◌, ◌<◌, length};
    ghost use Rattle.crush_bucket.specs.Bucket.{BucketView};
    ghost use Rattle.crush_map.specs.crush_types.specs.declared.Kind.TheVariants.{Tree};

    ghost Value = { BucketView };

    ghost view = { λ a. a.bucket };

    ghost invariant = { λ a. record { kind : a.bucket.kind ≡ Tree; some : 0 < length a.bucket.items } };
}

impl TreeBucket {
    /// Makes the bucket of `items`, in order of place.
    ///
    /// `Err(AllocError)`: an allocation failed; nothing is changed.
    pub fn build(alloc: Global, id: ItemId, items: &[(ItemId, Weight)]) -> Result<Self, AllocError>
        requires some { 0 < length items.now }
        requires few { length items.now < 2 ^ 16 }
        requires light { total_weight items.now < 2 ^ 32 }
        ensures { IfOk result (λ b. b ≡ record { id = id; kind = Kind.Tree; items = items.now }) }
    {
        let bucket = AnyBucket::build(alloc, Kind::Tree, id, items)?;
        Ok(TreeBucket { bucket })
    }

    /// Returns the bucket's id.
    pub fn id(&self) -> ItemId
        ensures { result ≡ self.now.id }
    {
        self.bucket.id()
    }

    /// Returns the bucket's kind.
    pub fn kind(&self) -> Kind
        ensures { result ≡ self.now.kind }
    {
        self.bucket.kind()
    }

    /// Returns how many items the bucket has.
    pub fn size(&self) -> usize
        ensures value { result ≡ length self.now.items }
        ensures some { 0 < result }
        ensures few { result < 2 ^ 16 }
    {
        self.bucket.size()
    }
}

impl Picker for TreeBucket {
    ghost bucket = { λ b. b };

    fn pick(&self, perm: &mut Perm, x: u32, r: u32) -> ItemId {
        crate::any::tree_item(&self.bucket, x, r)
    }

    fn pick_eight(&self, perm: &mut Perm, xs: &[u32; 8], r: u32) -> [ItemId; 8] {
        self.bucket.pick_eight(perm, xs, r)
    }
}

/// A bucket that picks the item that arrives first (Ceph's straw2). Contracts see the bucket.
#[derive(Drop)]
pub struct Straw2Bucket {
    bucket: AnyBucket,
}

impl Model for Straw2Bucket {
    ghost use Rattle.std.specs.Prelude.{◌≡◌, ◌<◌, length};
    ghost use Rattle.crush_bucket.specs.Bucket.{BucketView};
    ghost use Rattle.crush_map.specs.crush_types.specs.declared.Kind.TheVariants.{Straw2};

    ghost Value = { BucketView };

    ghost view = { λ a. a.bucket };

    ghost invariant = { λ a. record { kind : a.bucket.kind ≡ Straw2; some : 0 < length a.bucket.items } };
}

impl Straw2Bucket {
    /// Makes the bucket of `items`, in order of place.
    ///
    /// `Err(AllocError)`: an allocation failed; nothing is changed.
    pub fn build(alloc: Global, id: ItemId, items: &[(ItemId, Weight)]) -> Result<Self, AllocError>
        requires some { 0 < length items.now }
        requires few { length items.now < 2 ^ 16 }
        requires light { total_weight items.now < 2 ^ 32 }
        ensures { IfOk result (λ b. b ≡ record { id = id; kind = Kind.Straw2; items = items.now }) }
    {
        let bucket = AnyBucket::build(alloc, Kind::Straw2, id, items)?;
        Ok(Straw2Bucket { bucket })
    }

    /// Returns the bucket's id.
    pub fn id(&self) -> ItemId
        ensures { result ≡ self.now.id }
    {
        self.bucket.id()
    }

    /// Returns the bucket's kind.
    pub fn kind(&self) -> Kind
        ensures { result ≡ self.now.kind }
    {
        self.bucket.kind()
    }

    /// Returns how many items the bucket has.
    pub fn size(&self) -> usize
        ensures value { result ≡ length self.now.items }
        ensures some { 0 < result }
        ensures few { result < 2 ^ 16 }
    {
        self.bucket.size()
    }
}

impl Picker for Straw2Bucket {
    ghost bucket = { λ b. b };

    fn pick(&self, perm: &mut Perm, x: u32, r: u32) -> ItemId {
        crate::any::straw2_bucket_item(&self.bucket, x, r)
    }

    fn pick_eight(&self, perm: &mut Perm, xs: &[u32; 8], r: u32) -> [ItemId; 8] {
        self.bucket.pick_eight(perm, xs, r)
    }
}
