//! The buckets of a map, ready to be asked.

ghost use Rattle.std.specs.Prelude.{◌≡◌, ℕ, ◌<◌, ◌<ℤ◌, ◌==◌, ◌^◌, pos, IfOk, IfSome, IsTrue, OnSome, All, length, map, slice_index};
ghost use Rattle.crush_bucket.specs.Bucket.{IsItemOf};
ghost use Rattle.crush_bucket.specs.Ahead.{ArePicks};
ghost use Rattle.crush_bucket.specs.Private.Ahead.{IsWidest};
ghost use Rattle.crush_bucket.specs.Private.Laid.{IsFit};
ghost use Rattle.crush_bucket.specs.Tables.{tables_of, typed_bucket, bucket_numbered, bucket_at, type_at, kind_at, size_at, pick_at, has_device, scratch_of, IsBelow, HasItemsBelow};

use crate::eight::pick_alike;
use crate::index::index_of;
use crate::number::{BucketNo, index_place};
use crate::scratch::Scratch;
use crate::typed::TypedBucket;
use crate::{AnyBucket, pick_side_by_side};
use crush_map::{Bucket, CrushMap, Device, ItemId, Kind, Tunables, Weight, buckets_are_sound};
use std::alloc::{AllocError, Global};
use std::marker::Model;

/// The buckets of a map in order of declaration, its devices and its tunables. Contracts see them
/// as lists.
#[derive(Drop)]
pub struct Tables {
    rows: Vec<TypedBucket>,
    /// The most items that a uniform bucket has.
    widest: usize,
    index: Vec<Option<BucketNo>>,
    devices: Vec<u32>,
    tunables: Tunables,
}

impl Model for Tables {
    ghost use Rattle.crush_bucket.specs.Tables.{TablesView};
    ghost use Rattle.crush_bucket.specs.Private.Ahead.{IsWidest};
    ghost use Rattle.crush_bucket.specs.Private.Laid.{IsLaid, IsIndexOf};
    ghost use Rattle.std.specs.List.Sorted.{IsStrictlyIncreasing};

    ghost Value = { TablesView };

    ghost view = { λ a. record { buckets = a.rows.items; devices = a.devices.items; tunables = a.tunables } };

    ghost invariant = { λ a. record {
      laid : IsLaid (record { buckets = a.rows.items; devices = a.devices.items; tunables = a.tunables });
      widest : IsWidest a.rows.items a.widest;
      index : IsIndexOf a.rows.items a.index.items;
      order : IsStrictlyIncreasing a.devices.items;
    } };
}

impl Tables {
    /// Makes the tables of a map.
    ///
    /// `Err(AllocError)`: an allocation failed; nothing is changed.
    pub fn build(alloc: Global, map: &CrushMap) -> Result<Self, AllocError>
        ensures { IfOk result (λ t. t ≡ tables_of map.now) }
    {
        buckets_are_sound();
        let rows = rows_of(alloc, map.buckets())?;
        let index = index_of(alloc, &rows)?;
        let devices = ids_of(alloc, map.devices())?;
        Ok(Tables {
            widest: widest_of(&rows),
            rows,
            index,
            devices,
            tunables: map.tunables(),
        })
    }

    /// Returns the most items that a uniform bucket has; 0 where there is none.
    pub(crate) fn widest(&self) -> usize
        ensures { IsWidest self.now.buckets result }
    {
        self.widest
    }

    /// Returns the bucket with a number, if there is one.
    fn bucket(&self, number: BucketNo) -> Option<&AnyBucket>
        ensures { IfSome result (λ any. any.now ≡ bucket_at self.now number) }
    {
        let row = self.rows.get(number.place())?;
        Some(&row.bucket)
    }

    /// Picks the items of eight buckets for eight inputs and one attempt, side by side, where all
    /// eight have items, and all are trees, or all are uniform and asked for the same early place.
    pub(crate) fn pick_eight(
        &self,
        buckets: &[BucketNo; 8],
        xs: &[u32; 8],
        r: u32,
    ) -> Option<[ItemId; 8]>
        ensures { IfSome result (λ items. ArePicks self.now buckets.now xs.now r items) }
    {
        let first = self.bucket(buckets[0])?;
        if are_one(buckets) {
            return pick_alike(first, xs, r);
        }
        let mut asked = [first; 8];
        for lane in 1..8 {
            asked[lane] = self.bucket(buckets[lane])?;
        }
        pick_side_by_side(&asked, xs, r)
    }

    /// Returns how many buckets there are.
    pub fn len(&self) -> usize
        ensures { result ≡ length self.now.buckets }
    {
        self.rows.len()
    }

    /// Finds the number of the bucket with an id, if there is one.
    pub fn bucket_of(&self, item: ItemId) -> Option<BucketNo>
        ensures value { result ≡ bucket_numbered self.now item }
        ensures within { IfSome result (λ n. n < length self.now.buckets) }
        ensures negative { OnSome result (item.0 <ℤ pos 0) }
    {
        let index = self.index.as_slice();
        let n = index_place(item)?;
        match index.get(n) {
            Some(found) => *found,
            None => None,
        }
    }

    /// Returns the number of a bucket's type.
    pub fn type_of(&self, bucket: BucketNo) -> u32
        requires { bucket < length self.now.buckets }
        ensures { result ≡ type_at self.now bucket }
    {
        self.rows[bucket.place()].of_type
    }

    /// Returns the kind by which a bucket picks.
    pub fn kind(&self, bucket: BucketNo) -> Kind
        requires { bucket < length self.now.buckets }
        ensures { result ≡ kind_at self.now bucket }
    {
        self.rows[bucket.place()].bucket.kind()
    }

    /// Returns how many items a bucket has.
    pub fn size(&self, bucket: BucketNo) -> usize
        requires { bucket < length self.now.buckets }
        ensures value { result ≡ size_at self.now bucket }
        ensures few { result < 2 ^ 16 }
    {
        self.rows[bucket.place()].bucket.size()
    }

    /// Returns whether a bucket has no items.
    pub fn is_empty(&self, bucket: BucketNo) -> bool
        requires { bucket < length self.now.buckets }
        ensures { result ≡ (size_at self.now bucket == 0) }
    {
        self.size(bucket) == 0
    }

    /// Returns the items of a bucket with their weights, in order of place.
    pub fn items(&self, bucket: BucketNo) -> &[(ItemId, Weight)]
        requires { bucket < length self.now.buckets }
        ensures { result.now ≡ (bucket_at self.now bucket).items }
    {
        self.rows[bucket.place()].bucket.items()
    }

    /// Says that each item of a bucket is a bucket of a smaller number, or a device. Does nothing.
    pub fn items_are_below(&self)
        ensures { HasItemsBelow self.now }
    {
        let _rows = &self.rows;
    }

    /// Returns the tunables of the map.
    pub fn tunables(&self) -> Tunables
        ensures { result ≡ self.now.tunables }
    {
        self.tunables
    }

    /// Returns whether the map has a device with this id.
    pub fn has_device(&self, id: u32) -> bool
        ensures { result ≡ has_device self.now id }
    {
        self.devices.binary_search(&id).is_ok()
    }

    /// Picks the item of a bucket for an input and an attempt, whatever the scratch was asked
    /// before and whatever was picked ahead. Allocates nothing.
    #[tactic(auto, unfolding(crate::specs::Tables::pick_at))]
    pub fn pick(&self, bucket: BucketNo, scratch: &mut Scratch, x: u32, r: u32) -> ItemId
        requires within { bucket < length self.now.buckets }
        requires some { 0 < size_at self.now bucket }
        requires fits { scratch.old ≡ scratch_of self.now }
        ensures picked { result ≡ pick_at self.now bucket x r }
        ensures item { IsItemOf (bucket_at self.now bucket).items result }
        ensures below { IsBelow self.now bucket result }
        ensures same { scratch.new ≡ scratch.old }
    {
        let place = bucket.place();
        let row = &self.rows[place];
        if let Some(item) = scratch.found(bucket, x, r) {
            return item;
        }
        scratch.pick(&row.bucket, place, x, r)
    }
}

/// Returns whether eight numbers are of one bucket, as those are at which a rule begins.
#[inline]
fn are_one(buckets: &[BucketNo; 8]) -> bool
    ensures { IsTrue result → (lane : ℕ) → lane < 8 → slice_index buckets.now lane ≡ slice_index buckets.now 0 }
{
    for lane in 1..8 {
        if buckets[lane] != buckets[0] {
            return false;
        }
    }
    true
}

/// Makes the rows of a map's buckets.
fn rows_of(alloc: Global, buckets: &[Bucket]) -> Result<Vec<TypedBucket>, AllocError>
    requires { All IsFit buckets.now }
    ensures { IfOk result (λ rows. rows.items ≡ map typed_bucket buckets.now) }
{
    let mut rows = Vec::with_capacity(alloc, buckets.len())?;
    for bucket in buckets {
        rows.push(TypedBucket::build(alloc, bucket)?)?;
    }
    Ok(rows)
}

/// Finds the most items that a uniform bucket has.
fn widest_of(rows: &[TypedBucket]) -> usize
    ensures { IsWidest rows.now result }
{
    let mut most = 0;
    for row in rows {
        if row.bucket.kind().is_uniform() && row.bucket.size() > most {
            most = row.bucket.size();
        }
    }
    most
}

/// Makes the list of the ids of devices.
fn ids_of(alloc: Global, devices: &[Device]) -> Result<Vec<u32>, AllocError>
    ensures { IfOk result (λ ids. ids.items ≡ map (λ d. d.id) devices.now) }
{
    let mut ids = Vec::with_capacity(alloc, devices.len())?;
    for device in devices {
        ids.push(device.id)?;
    }
    Ok(ids)
}
