//! The scratch of all buckets of a map.

ghost use Rattle.std.specs.Prelude.{◌≡◌, ◌<◌, IfOk, IfSome, length, slice_index, slice_index_or};
ghost use Rattle.crush_bucket.specs.Private.Ahead.{HasPick};
ghost use Rattle.crush_bucket.specs.declared.scratch.AheadPick.{AheadPick};

use crate::AnyBucket;
use crate::number::BucketNo;
use crate::tables::Tables;
use crush_hash::Perms;
use crush_map::ItemId;
use std::alloc::{AllocError, Global};
use std::marker::Model;

/// How many inputs are picked for at once.
pub const LANES: usize = 8;

/// How many permutations a scratch for few inputs has at most, and how many pairs they have room
/// for together, unless `LEAST_SLOTS` need more: to make more would take longer than it saves.
const FEW_SLOTS: usize = 32;

const FEW_PAIRS: usize = 8_192;

/// How many pairs the permutations of a scratch for many inputs have room for: 2 MiB.
const MANY_PAIRS: usize = 262_144;

/// How many permutations a scratch has at least, where there are as many buckets.
const LEAST_SLOTS: usize = 4;

/// The most picks of an input that are stored.
const STEP_LIMIT: usize = 64;

/// A pick that was made for eight inputs at once: for each of them a bucket, and the item that it
/// picks.
#[derive(Clone, Copy)]
pub(crate) struct AheadPick {
    pub(crate) buckets: [BucketNo; LANES],
    pub(crate) r: u32,
    pub(crate) items: [ItemId; LANES],
}

impl AheadPick {
    /// Returns what the bucket of `lane` picked, where it is `bucket` and the attempt is `r`.
    #[inline]
    fn item(&self, lane: usize, bucket: BucketNo, r: u32) -> Option<ItemId>
        requires { lane < 8 }
        ensures { IfSome result (λ item. HasPick lane bucket r item self.now) }
    {
        if self.buckets[lane] == bucket && self.r == r {
            Some(self.items[lane])
        } else {
            None
        }
    }
}

/// What the buckets of tables need to pick, and remember: permutations of the uniform buckets that
/// were asked last, and what was picked ahead for eight inputs. Contracts see the tables alone.
#[derive(Drop)]
pub struct Scratch<'a> {
    tables: &'a Tables,
    perms: Perms,
    /// The inputs for which picks are made ahead, and the picks.
    xs: [u32; LANES],
    steps: Vec<AheadPick>,
    /// The lane of the input that was asked last, and the step behind the one that was found for
    /// it.
    lane: usize,
    next: usize,
}

impl<'a> Model for Scratch<'a> {
    ghost use Rattle.std.specs.Prelude.{◌<◌, All};
    ghost use Rattle.crush_bucket.specs.Tables.{TablesView};
    ghost use Rattle.crush_bucket.specs.Private.Ahead.{IsStep, IsWidest};

    ghost Value = { TablesView };

    ghost view = { λ a. a.tables.now };

    ghost invariant = { λ a. record {
      room : IsWidest a.tables.now.buckets a.perms;
      steps : All (λ step. IsStep a.tables.now a.xs step) a.steps.items;
      lane : a.lane < 8;
    } };
}

impl<'a> Scratch<'a> {
    ghost use Rattle.std.specs.Prelude.{◌≡◌, ◌<◌, IfOk, IfSome, length};
    ghost use Rattle.crush_bucket.specs.Bucket.{IsItemOf};
    ghost use Rattle.crush_bucket.specs.Pick.{pick};
    ghost use Rattle.crush_bucket.specs.Tables.{scratch_of};
    ghost use Rattle.crush_bucket.specs.Ahead.{ArePicks, IsPick};
    ghost use Rattle.crush_bucket.specs.Private.Ahead.{IsBucketOf};

    /// Makes the scratch of tables, with few permutations of uniform buckets, for a few inputs.
    ///
    /// `Err(AllocError)`: an allocation failed; nothing is changed.
    pub fn build(alloc: Global, tables: &'a Tables) -> Result<Scratch<'a>, AllocError>
        ensures { IfOk result (λ s. s ≡ scratch_of tables.now) }
    {
        Scratch::with_slots(alloc, tables, FEW_SLOTS, FEW_PAIRS)
    }

    /// Makes the scratch of tables for many inputs: each uniform bucket has a permutation for
    /// itself, where the memory for that isn't more than 2 MiB.
    ///
    /// `Err(AllocError)`: an allocation failed; nothing is changed.
    pub fn for_many(alloc: Global, tables: &'a Tables) -> Result<Scratch<'a>, AllocError>
        ensures { IfOk result (λ s. s ≡ scratch_of tables.now) }
    {
        Scratch::with_slots(alloc, tables, tables.len(), MANY_PAIRS)
    }

    /// Makes the scratch of tables with at most `most` permutations, and room for `pairs` pairs
    /// together unless `LEAST_SLOTS` need more.
    fn with_slots(
        alloc: Global,
        tables: &'a Tables,
        most: usize,
        pairs: usize,
    ) -> Result<Scratch<'a>, AllocError>
        ensures { IfOk result (λ s. s ≡ scratch_of tables.now) }
    {
        let widest = tables.widest();
        let slots = (pairs / widest.max(1)).max(LEAST_SLOTS).min(most);
        Ok(Scratch {
            tables,
            perms: Perms::build(alloc, slots.min(tables.len()), widest)?,
            xs: [0; LANES],
            steps: Vec::new(alloc),
            lane: 0,
            next: 0,
        })
    }

    /// Returns the tables that the scratch is of.
    #[inline]
    pub fn tables(&self) -> &'a Tables
        ensures { result.now ≡ self.now }
    {
        self.tables
    }

    /// Picks the item of `bucket`, which has the number `number`.
    #[inline]
    pub(crate) fn pick(&mut self, bucket: &AnyBucket, number: usize, x: u32, r: u32) -> ItemId
        requires some { 0 < length bucket.now.items }
        requires fits { IsBucketOf self.old bucket.now }
        ensures picked { result ≡ pick bucket.now x r }
        ensures item { IsItemOf bucket.now.items result }
        ensures same { self.new ≡ self.old }
    {
        bucket.pick_by(&mut self.perms, number, x, r)
    }

    /// Forgets what was picked ahead. Picks are made ahead for the inputs `xs` alone from now on.
    pub fn turn_to(&mut self, xs: [u32; LANES])
        ensures { self.new ≡ self.old }
    {
        self.steps.clear();
        self.xs = xs;
        self.lane = 0;
        self.next = 0;
    }

    /// Picks ahead from a bucket for each of the eight inputs that were turned to, side by side,
    /// where all are tree buckets that have items, or all are uniform ones that are asked for the
    /// same of their first four places; stores what is picked, so that it isn't picked again, and
    /// returns it. `None`: the buckets are others, `xs` are other inputs, or there is no room or
    /// no memory for more.
    pub fn pick_ahead(
        &mut self,
        buckets: [BucketNo; LANES],
        xs: &[u32; LANES],
        r: u32,
    ) -> Option<[ItemId; LANES]>
        ensures picked { IfSome result (ArePicks self.old buckets xs.now r) }
        ensures same { self.new ≡ self.old }
    {
        if self.steps.len() >= STEP_LIMIT || self.xs != *xs {
            return None;
        }
        let items = self.tables.pick_eight(&buckets, &self.xs, r)?;
        match self.steps.push(AheadPick { buckets, r, items }) {
            Ok(()) => Some(items),
            Err(_) => None,
        }
    }

    /// Finds what a bucket picks for an input and an attempt, where that was picked ahead.
    #[inline]
    pub(crate) fn found(&mut self, bucket: BucketNo, x: u32, r: u32) -> Option<ItemId>
        ensures found { IfSome result (IsPick self.old bucket x r) }
        ensures same { self.new ≡ self.old }
    {
        if self.steps.is_empty() {
            return None;
        }
        self.found_in_steps(bucket, x, r)
    }

    /// Finds as `found` does, where something was picked ahead.
    fn found_in_steps(&mut self, bucket: BucketNo, x: u32, r: u32) -> Option<ItemId>
        ensures found { IfSome result (IsPick self.old bucket x r) }
        ensures same { self.new ≡ self.old }
    {
        if self.xs[self.lane] != x {
            self.lane = lane_of(&self.xs, x)?;
            self.next = 0;
        }
        let (n, item) = find(&self.steps, self.next, self.lane, bucket, r)?;
        self.next = n + 1;
        Some(item)
    }
}

/// Finds the step in which the bucket of `lane` is `bucket`, and the attempt is `r`. Returns its
/// place and the item. What is asked for next mostly stands at `next`.
fn find(
    steps: &[AheadPick],
    next: usize,
    lane: usize,
    bucket: BucketNo,
    r: u32,
) -> Option<(usize, ItemId)>
    requires { lane < 8 }
    ensures within { IfSome result (λ found. found.0 < length steps.now) }
    ensures has { IfSome result (λ found. (d : AheadPick) → HasPick lane bucket r found.1 (slice_index_or steps.now found.0 d)) }
{
    if let Some(step) = steps.get(next) {
        if let Some(item) = step.item(lane, bucket, r) {
            return Some((next, item));
        }
    }
    for (n, step) in steps.iter().enumerate() {
        if let Some(item) = step.item(lane, bucket, r) {
            return Some((n, item));
        }
    }
    None
}

/// Finds the lane of an input, if it has one.
fn lane_of(xs: &[u32; LANES], x: u32) -> Option<usize>
    ensures within { IfSome result (λ lane. lane < 8) }
    ensures value { IfSome result (λ lane. slice_index xs.now lane ≡ x) }
{
    for lane in 0..LANES {
        if xs[lane] == x {
            return Some(lane);
        }
    }
    None
}
