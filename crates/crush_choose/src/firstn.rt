//! `choose firstn`: items are chosen in order, without gaps.

ghost use Rattle.std.specs.Prelude.{◌≡◌, ◌<◌, ◌≤◌, ◌+◌, ◌++◌, ◌∷◌, ◌||◌, [], ◌^◌, nat_le, length};
ghost use Rattle.crush_bucket.specs.Tables.{scratch_of, bucket_numbered};
ghost use Rattle.crush_choose.specs.Firstn as spec;
ghost use Rattle.crush_choose.specs.Firstn.{IsFirstnCall, IsFirstnAnswer};
ghost use Rattle.crush_choose.specs.Marks.{Marks, items_of, leaves_of};
ghost use Rattle.crush_choose.specs.Private.Calls.{AreFirstnNumbers};
ghost use Rattle.crush_choose.specs.Private.Decisions.{IsDecision, mark_in};
ghost use Rattle.crush_choose.specs.Private.Reachable.{firstn_can_place};
ghost use Rattle.crush_map.specs.declared.limits.TheConstants.{BUCKET_LIMIT, TRIES_LIMIT, COUNT_LIMIT};
ghost use Rattle.crush_choose.specs.declared.limits.TheConstants.{SIZE_LIMIT};

use crate::effort::Effort;
use crate::mark::{Mark, Spot};
use crate::reachable::{can_choose, can_have_leaf};
use crate::row::{Row, Slot};
use crate::walk::{Walk, WalkEnd, reach_by};
use crate::weights::{Weights, is_device_in};
use crush_bucket::laws::a_pick_is_pickable;
use crush_bucket::{BucketNo, Scratch, Tables};
use crush_map::ItemId;

/// The parameters of a call of `choose_firstn`.
#[derive(Clone, Copy)]
pub struct FirstnCall {
    /// The bucket in which walks begin.
    pub bucket: BucketNo,
    /// The input.
    pub x: u32,
    /// How many reps there are: 1..`COUNT_LIMIT`.
    pub numrep: u32,
    /// How many items are chosen at most: 0..`SIZE_LIMIT`.
    pub room: u32,
    /// The number of the required type.
    pub wanted: u32,
    /// How many tries a rep has: 1..`TRIES_LIMIT`.
    pub tries: u32,
    /// How many tries a leaf has: 0..`TRIES_LIMIT`; with 0 no leaf is required.
    pub leaf_tries: u32,
    /// `chooseleaf_vary_r`, 0..`VARY_R_LIMIT`.
    pub vary_r: u32,
    /// `chooseleaf_stable`, 0..1.
    pub stable: u32,
}

/// Returns whether a slot has the item `item`.
pub fn slot_has(slot: Slot, item: ItemId) -> bool
    ensures { result ≡ spec.slot_has item slot }
{
    match slot {
        Some(other) => other.0 == item.0,
        None => false,
    }
}

/// Returns whether a slot of a list has the item `item`.
pub fn has(slots: &[Slot], item: ItemId) -> bool
    ensures { result ≡ spec.has slots.now item }
{
    slots.iter().any(|slot| slot_has(*slot, item))
}

/// What is decided of a rep.
#[derive(Clone, Copy)]
enum RepOutcome {
    /// The mark of the rep.
    Mark(Option<Mark>),
    /// Nothing more can be placed, for this rep or a later one.
    Hopeless,
}

/// A call of `choose_firstn`, with the items and leaves of the reps so far.
#[derive(Clone, Copy)]
struct Firstn<'a> {
    weights: &'a Weights,
    call: &'a FirstnCall,
    items: &'a [Slot],
    leaves: &'a [Slot],
    ghost in_range: { AreFirstnNumbers call.now },
    ghost few: { length items.now ≤ call.now.room },
}

impl<'a> Firstn<'a> {
    /// Makes one attempt for a leaf below a bucket. Returns the leaf that it finds, if it finds
    /// one.
    #[tactic(auto, unfolding(crate::specs::Firstn::leaf_by))]
    fn leaf_by(
        &self,
        scratch: &mut Scratch,
        bucket: BucketNo,
        r: u32,
        effort: &mut Effort,
    ) -> Option<ItemId>
        requires bucket { bucket < length scratch.old.buckets }
        requires low { r < 2 ^ 31 }
        ensures value { let s = self.now in result ≡ spec.leaf_by scratch.old s.weights.now s.call.now s.leaves.now bucket r }
        ensures same { scratch.new ≡ scratch.old }
    {
        let x = self.call.x;
        let walk = Walk {
            x,
            wanted: 0,
            from: bucket,
        };
        match reach_by(scratch, walk, r, effort) {
            WalkEnd::Found(item, _) => {
                let is_new = is_device_in(self.weights, x, item) && !has(self.leaves, item);
                is_new.then_some(item)
            }
            _ => None,
        }
    }

    /// Returns the first attempt for a leaf below a bucket that attempt r found.
    fn leaf_start(&self, r: u32) -> u32
        requires { r < 2 ^ 16 }
        ensures value { result ≡ spec.leaf_start self.now.call.now (length self.now.items.now) r }
        ensures low { result < 2 ^ 17 }
    {
        let count = self.items.len() as u32;
        let base = if self.call.stable == 1 { 0 } else { count };
        let sub = if self.call.vary_r == 0 {
            0
        } else {
            r >> (self.call.vary_r - 1)
        };
        base + sub
    }

    /// Finds the leaf of the first attempt that finds one. It gives up where none can.
    #[tactic(auto, unfolding(crate::specs::Firstn::leaf_below))]
    fn leaf_below(
        &self,
        scratch: &mut Scratch,
        bucket: BucketNo,
        start: u32,
        effort: &mut Effort,
    ) -> Option<ItemId>
        requires bucket { bucket < length scratch.old.buckets }
        requires low { start < 2 ^ 17 }
        ensures value { let s = self.now in result ≡ spec.leaf_below scratch.old s.weights.now s.call.now s.leaves.now bucket start }
        ensures same { scratch.new ≡ scratch.old }
    {
        a_pick_is_pickable();
        let since = effort.spent();
        let mut asked = false;
        for g in 0..self.call.leaf_tries {
            let leaf = self.leaf_by(scratch, bucket, start + g, effort);
            if leaf.is_some() {
                return leaf;
            }
            let tables = scratch.tables();
            if !asked && effort.is_due(tables, self.call.bucket, since) {
                asked = true;
                if !can_have_leaf(tables, self.weights, self.call.x, self.leaves, bucket) {
                    return None;
                }
            }
        }
        None
    }

    /// Finds the leaf of an item that attempt r found.
    fn leaf_of(
        &self,
        scratch: &mut Scratch,
        item: ItemId,
        r: u32,
        effort: &mut Effort,
    ) -> Option<ItemId>
        requires low { r < 2 ^ 16 }
        ensures value { let s = self.now in result ≡ spec.leaf_of scratch.old s.weights.now s.call.now s.leaves.now (length s.items.now) item r (bucket_numbered scratch.old item) }
        ensures same { scratch.new ≡ scratch.old }
    {
        match scratch.tables().bucket_of(item) {
            None => is_device_in(self.weights, self.call.x, item).then_some(item),
            Some(_) if self.call.leaf_tries == 0 => Some(item),
            Some(bucket) => self.leaf_below(scratch, bucket, self.leaf_start(r), effort),
        }
    }

    /// Makes one try of a rep. Returns `None` if it fails.
    #[tactic(auto, unfolding(crate::specs::Firstn::firstn_try))]
    fn firstn_try(
        &self,
        scratch: &mut Scratch,
        rep: u32,
        round: u32,
        effort: &mut Effort,
    ) -> Option<Mark>
        requires from { self.now.call.now.bucket < length scratch.old.buckets }
        requires rep { rep ≤ COUNT_LIMIT }
        requires round { round ≤ TRIES_LIMIT }
        ensures value { let s = self.now in result ≡ spec.firstn_try scratch.old s.weights.now s.call.now s.items.now s.leaves.now rep round }
        ensures same { scratch.new ≡ scratch.old }
    {
        let walk = Walk {
            x: self.call.x,
            wanted: self.call.wanted,
            from: self.call.bucket,
        };
        let (item, r) = match reach_by(scratch, walk, rep + round, effort) {
            WalkEnd::Found(item, r) => (item, r),
            WalkEnd::Empty => return None,
            WalkEnd::Wrong => return Some(Mark::Skipped),
        };
        if has(self.items, item) {
            return None;
        }
        let leaf = self.leaf_of(scratch, item, r, effort)?;
        Some(Mark::Placed(Spot { round, item, leaf }))
    }

    /// Returns whether a try of any rep can place an item.
    fn can_place(&self, tables: &Tables) -> bool
        requires { self.now.call.now.bucket < length tables.now.buckets }
        ensures { let s = self.now in result ≡ (nat_le BUCKET_LIMIT s.call.now.bucket || firstn_can_place tables.now s.weights.now s.call.now s.items.now s.leaves.now) }
    {
        let walk = Walk {
            x: self.call.x,
            wanted: self.call.wanted,
            from: self.call.bucket,
        };
        let leaf = self.call.leaf_tries > 0;
        can_choose(tables, self.weights, walk, self.items, leaf, self.leaves)
    }

    /// Decides a rep: its mark is that of its first try that doesn't fail. It gives up where no try
    /// can place an item.
    #[tactic(auto, unfolding(crate::specs::Firstn::decided))]
    fn decide(&self, scratch: &mut Scratch, rep: u32, effort: &mut Effort) -> RepOutcome
        requires from { self.now.call.now.bucket < length scratch.old.buckets }
        requires rep { rep ≤ COUNT_LIMIT }
        ensures value { let s = self.now in IsDecision scratch.old s.weights.now s.call.now s.items.now s.leaves.now (spec.decided scratch.old s.weights.now s.call.now s.items.now s.leaves.now rep) result }
        ensures same { scratch.new ≡ scratch.old }
    {
        let since = effort.spent();
        let mut asked = false;
        for round in 0..self.call.tries {
            let mark = self.firstn_try(scratch, rep, round, effort);
            if mark.is_some() {
                return RepOutcome::Mark(mark);
            }
            let tables = scratch.tables();
            if !asked && effort.is_due(tables, self.call.bucket, since) {
                asked = true;
                if !self.can_place(tables) {
                    return RepOutcome::Hopeless;
                }
            }
        }
        RepOutcome::Mark(None)
    }

    /// Decides a rep: it has no mark where no room is left.
    fn decide_with_room(&self, scratch: &mut Scratch, rep: u32, effort: &mut Effort) -> RepOutcome
        requires from { self.now.call.now.bucket < length scratch.old.buckets }
        requires rep { rep ≤ COUNT_LIMIT }
        ensures value { let s = self.now in IsDecision scratch.old s.weights.now s.call.now s.items.now s.leaves.now (spec.mark_beside scratch.old s.weights.now s.call.now s.items.now s.leaves.now rep) result }
        ensures room { length self.now.items.now + length (items_of (mark_in result ∷ [])) ≤ self.now.call.now.room }
        ensures same { scratch.new ≡ scratch.old }
    {
        if (self.items.len() as u32) < self.call.room {
            self.decide(scratch, rep, effort)
        } else {
            RepOutcome::Mark(None)
        }
    }
}

/// Appends the item and the leaf of a mark, if it places one.
fn add(items: &mut Row, leaves: &mut Row, mark: Option<Mark>)
    requires room { length items.old + length (items_of (mark ∷ [])) ≤ SIZE_LIMIT }
    requires even { length leaves.old ≡ length items.old }
    ensures items { items.new ≡ items.old ++ items_of (mark ∷ []) }
    ensures leaves { leaves.new ≡ leaves.old ++ leaves_of (mark ∷ []) }
{
    match mark {
        Some(Mark::Placed(spot)) => {
            items.push(Some(spot.item));
            leaves.push(Some(spot.leaf));
        }
        Some(Mark::Skipped) => {}
        None => {}
    }
}

/// Chooses items of a type below a bucket, without gaps, and a leaf for each (`crush_choose_firstn`
/// of Ceph's `mapper.c`).
///
/// Where no leaf is required, or where an item is a device, the leaf is the item itself.
#[tactic(auto, unfolding(crate::specs::Firstn::firstn))]
pub fn choose_firstn(
    tables: &Tables,
    scratch: &mut Scratch,
    call: &FirstnCall,
    weights: &Weights,
    items: &mut Row,
    leaves: &mut Row,
)
    requires call { IsFirstnCall tables.now call.now }
    requires fits { scratch.old ≡ scratch_of tables.now }
    ensures items { items.new ≡ items_of (spec.firstn tables.now weights.now call.now) }
    ensures leaves { leaves.new ≡ leaves_of (spec.firstn tables.now weights.now call.now) }
    ensures there { IsFirstnAnswer tables.now weights.now call.now (spec.firstn tables.now weights.now call.now) }
    ensures only { (marks : Marks) → IsFirstnAnswer tables.now weights.now call.now marks → (items.new ≡ items_of marks) × (leaves.new ≡ leaves_of marks) }
    ensures room { length items.new ≤ call.now.room }
    ensures even { length leaves.new ≡ length items.new }
    ensures fits { scratch.new ≡ scratch_of tables.now }
{
    a_pick_is_pickable();
    items.clear();
    leaves.clear();
    let mut effort = Effort::new();
    for rep in 0..call.numrep {
        let firstn = Firstn {
            weights,
            call,
            items: items.items(),
            leaves: leaves.items(),
        };
        let decision = firstn.decide_with_room(scratch, rep, &mut effort);
        match decision {
            RepOutcome::Mark(mark) => add(items, leaves, mark),
            RepOutcome::Hopeless => return,
        }
    }
}
