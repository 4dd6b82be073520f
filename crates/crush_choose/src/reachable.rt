//! Whether any try can succeed, whatever the buckets pick of the items that they can pick.

ghost use Rattle.std.specs.Prelude.{◌≡◌, ℕ, ◌<◌, ◌+◌, ◌||◌, ◌&&◌, nat_le, length};
ghost use Rattle.std.specs.List.{list_any};
ghost use Rattle.crush_bucket.specs.Pickable.{pickable};
ghost use Rattle.crush_bucket.specs.Tables.{bucket_at, bucket_numbered};
ghost use Rattle.crush_choose.specs.Private.Reachable as spec;
ghost use Rattle.crush_choose.specs.Private.Reachable.{IsMarked, can_be_placed, can_end_at, marked};
ghost use Rattle.crush_map.specs.declared.limits.TheConstants.{BUCKET_LIMIT};

use crate::firstn::has;
use crate::row::Slot;
use crate::walk::Walk;
use crate::weights::{Weights, is_device_in};
use crush_bucket::{BucketNo, Tables, picks_by_weight, without_weights};
use crush_map::limits::BUCKET_LIMIT;
use crush_map::{ItemId, Weight};

/// Returns whether a bucket is marked. One that the list of marks lacks isn't.
fn is_marked(marks: &[bool], bucket: BucketNo) -> bool
    ensures { result ≡ marked marks.now bucket }
{
    match marks.get(bucket.place()) {
        Some(mark) => *mark,
        None => false,
    }
}

/// What a walk is to end at: an item of the wanted type that isn't chosen already, and that is a
/// device that is in or a bucket that has a leaf.
#[derive(Clone, Copy)]
struct Aim<'a> {
    tables: &'a Tables,
    weights: &'a Weights,
    x: u32,
    wanted: u32,
    chosen: &'a [Slot],
    leafy: &'a [bool],
}

impl<'a> Aim<'a> {
    /// Returns whether a walk that picked an item can end there or below it, given the buckets from
    /// which a walk can.
    fn can_end_at(&self, found: &[bool], item: ItemId) -> bool
        ensures { let s = self.now in result ≡ can_end_at s.tables.now s.wanted (can_be_placed s.tables.now s.weights.now s.x s.chosen.now (marked s.leafy.now)) (marked found.now) item (bucket_numbered s.tables.now item) }
    {
        match self.tables.bucket_of(item) {
            None => {
                self.wanted == 0
                    && is_device_in(self.weights, self.x, item)
                    && !has(self.chosen, item)
            }
            Some(bucket) => {
                if self.tables.type_of(bucket) == self.wanted {
                    is_marked(self.leafy, bucket) && !has(self.chosen, item)
                } else {
                    is_marked(found, bucket)
                }
            }
        }
    }

    /// Returns whether `can_end_at` holds for one of `items` that has at least the weight `least`.
    fn can_end_among(&self, found: &[bool], items: &[(ItemId, Weight)], least: u32) -> bool
        ensures { let s = self.now in result ≡ list_any (λ e. nat_le least e.1.0 && can_end_at s.tables.now s.wanted (can_be_placed s.tables.now s.weights.now s.x s.chosen.now (marked s.leafy.now)) (marked found.now) e.0 (bucket_numbered s.tables.now e.0)) items.now }
    {
        items
            .iter()
            .any(|item| item.1.0 >= least && self.can_end_at(found, item.0))
    }

    /// Returns whether `can_end_at` holds for some item that a bucket can pick.
    fn can_end_below(&self, found: &[bool], bucket: BucketNo) -> bool
        requires { bucket < length self.now.tables.now.buckets }
        ensures { let s = self.now in result ≡ list_any (λ e. can_end_at s.tables.now s.wanted (can_be_placed s.tables.now s.weights.now s.x s.chosen.now (marked s.leafy.now)) (marked found.now) e.0 (bucket_numbered s.tables.now e.0)) (pickable (bucket_at s.tables.now bucket)) }
    {
        let kind = self.tables.kind(bucket);
        let items = self.tables.items(bucket);
        if picks_by_weight(kind, items) {
            self.can_end_among(found, items, 1)
        } else {
            self.can_end_among(found, without_weights(kind, items), 0)
        }
    }

    /// Marks each bucket up to a bucket, by number, from which a walk can end so.
    fn mark_reachable(&self, last: BucketNo) -> [bool; BUCKET_LIMIT]
        requires last { last < length self.now.tables.now.buckets }
        requires low { last < BUCKET_LIMIT }
        ensures { let s = self.now in IsMarked s.tables.now s.wanted (can_be_placed s.tables.now s.weights.now s.x s.chosen.now (marked s.leafy.now)) (last + 1) result }
    {
        self.tables.items_are_below();
        let mut found = [false; BUCKET_LIMIT];
        for place in 0..last.place() + 1 {
            found[place] = self.can_end_below(&found, BucketNo::new(place));
        }
        found
    }
}

/// Marks the buckets up to a bucket, by number, that can be placed: all if no leaf is required,
/// else those below which there is a device that is in and isn't a leaf already.
fn mark_leafy(
    tables: &Tables,
    weights: &Weights,
    x: u32,
    leaf: bool,
    leaves: &[Slot],
    last: BucketNo,
) -> [bool; BUCKET_LIMIT]
    requires last { last < length tables.now.buckets }
    requires low { last < BUCKET_LIMIT }
    ensures { (bucket : ℕ) → bucket < last + 1 → marked result bucket ≡ spec.leafy tables.now weights.now x leaf leaves.now bucket }
{
    tables.items_are_below();
    let all = [true; BUCKET_LIMIT];
    if leaf {
        let aim = Aim {
            tables,
            weights,
            x,
            wanted: 0,
            chosen: leaves,
            leafy: &all,
        };
        aim.mark_reachable(last)
    } else {
        all
    }
}

/// Returns whether a walk can end at an item that can be placed beside the items that are chosen
/// already: a device that is in, or a bucket below which, where a leaf is required, there is a
/// device that is in and isn't a leaf already. Of a bucket whose number is `BUCKET_LIMIT` or more
/// the answer is yes; no map has one.
pub(crate) fn can_choose(
    tables: &Tables,
    weights: &Weights,
    walk: Walk,
    chosen: &[Slot],
    leaf: bool,
    leaves: &[Slot],
) -> bool
    requires { walk.from < length tables.now.buckets }
    ensures { result ≡ (nat_le BUCKET_LIMIT walk.from || spec.can_choose tables.now weights.now walk.x walk.wanted chosen.now leaf leaves.now walk.from) }
{
    if walk.from.place() >= BUCKET_LIMIT {
        return true;
    }
    tables.items_are_below();
    let leafy = mark_leafy(tables, weights, walk.x, leaf, leaves, walk.from);
    let aim = Aim {
        tables,
        weights,
        x: walk.x,
        wanted: walk.wanted,
        chosen,
        leafy: &leafy,
    };
    let found = aim.mark_reachable(walk.from);
    found[walk.from.place()]
}

/// Returns whether there is a device below a bucket that is in and isn't a leaf already, with the
/// same exception.
#[tactic(auto, unfolding(crate::specs::Private::Reachable::can_choose))]
pub(crate) fn can_have_leaf(
    tables: &Tables,
    weights: &Weights,
    x: u32,
    leaves: &[Slot],
    bucket: BucketNo,
) -> bool
    requires { bucket < length tables.now.buckets }
    ensures { result ≡ (nat_le BUCKET_LIMIT bucket || spec.can_have_leaf tables.now weights.now x leaves.now bucket) }
{
    let walk = Walk {
        x,
        wanted: 0,
        from: bucket,
    };
    can_choose(tables, weights, walk, leaves, false, &[])
}
