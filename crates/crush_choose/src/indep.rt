//! `choose indep`: items are chosen at fixed positions; one that can't be filled stays empty.

ghost use Rattle.std.specs.Prelude.{◌≡◌, ◌<◌, ◌≤◌, ◌+◌, ◌||◌, ◌^◌, nat_le, length, map, None, is_some, replicate};
ghost use Rattle.std.specs.List.{list_all};
ghost use Rattle.crush_bucket.specs.Tables.{scratch_of, bucket_numbered};
ghost use Rattle.crush_choose.specs.Marks.{Marks, item_at, leaf_at};
ghost use Rattle.crush_choose.specs.Indep as spec;
ghost use Rattle.crush_choose.specs.Indep.{IsIndepCall, IsIndepAnswer};
ghost use Rattle.crush_choose.specs.Private.Calls.{AreIndepNumbers};
ghost use Rattle.crush_choose.specs.Private.Decisions.{PlaceTheSame};
ghost use Rattle.crush_choose.specs.Private.Reachable.{indep_can_place};
ghost use Rattle.crush_map.specs.declared.limits.TheConstants.{BUCKET_LIMIT, TRIES_LIMIT};

use crate::effort::Effort;
use crate::limits::SIZE_LIMIT;
use crate::mark::{Mark, Spot};
use crate::reachable::{can_choose, can_have_leaf};
use crate::row::{Row, Slot};
use crate::walk::{Attempts, Walk, WalkEnd, reach};
use crate::weights::{Weights, is_device_in};
use crush_bucket::laws::a_pick_is_pickable;
use crush_bucket::{BucketNo, Scratch, Tables};
use crush_map::ItemId;

/// The parameters of a call of `choose_indep`.
#[derive(Clone, Copy)]
pub struct IndepCall {
    /// The bucket in which walks begin.
    pub bucket: BucketNo,
    /// The input.
    pub x: u32,
    /// How many positions there are: at most `SIZE_LIMIT` and at most `numrep`.
    pub n: u32,
    /// What each round adds to an attempt: 1..`COUNT_LIMIT`. At some uniform buckets it adds one
    /// more.
    pub numrep: u32,
    /// The number of the required type.
    pub wanted: u32,
    /// How many rounds there are: 1..`TRIES_LIMIT`.
    pub tries: u32,
    /// How many rounds a leaf has: 0..`TRIES_LIMIT`; with 0 no leaf is required.
    pub leaf_tries: u32,
}

/// Returns whether the mark of position q placed the item before the try of position `pos` in the
/// round `round`.
fn is_taken_at(mark: Option<Mark>, q: u32, round: u32, pos: u32, item: ItemId) -> bool
    ensures { result ≡ spec.is_of item (spec.earlier round pos q mark) }
{
    match mark {
        Some(Mark::Placed(spot)) => {
            if spot.round < round || (spot.round == round && q < pos) {
                spot.item.0 == item.0
            } else {
                false
            }
        }
        _ => false,
    }
}

/// Returns whether some position got the item before the try of position `pos` in round `round`.
#[tactic(auto, unfolding(crate::specs::Indep::taken))]
fn taken(marks: &[Option<Mark>], round: u32, pos: u32, item: ItemId) -> bool
    requires { length marks.now ≤ SIZE_LIMIT }
    ensures { result ≡ spec.taken marks.now round pos item }
{
    for q in 0..marks.len() {
        if is_taken_at(marks[q], q as u32, round, pos, item) {
            return true;
        }
    }
    false
}

fn all_decided(marks: &[Option<Mark>]) -> bool
    ensures { result ≡ list_all (λ m. is_some m) marks.now }
{
    marks.iter().all(|mark| mark.is_some())
}

/// Counts the positions that are undecided.
fn undecided(marks: &[Option<Mark>]) -> usize
    ensures { result ≤ length marks.now }
{
    marks.iter().filter(|mark| mark.is_none()).count()
}

fn item_at(mark: Option<Mark>) -> Slot
    ensures { result ≡ item_at mark }
{
    match mark {
        Some(Mark::Placed(spot)) => Some(spot.item),
        Some(Mark::Skipped) => None,
        None => None,
    }
}

fn leaf_at(mark: Option<Mark>) -> Slot
    ensures { result ≡ leaf_at mark }
{
    match mark {
        Some(Mark::Placed(spot)) => Some(spot.leaf),
        Some(Mark::Skipped) => None,
        None => None,
    }
}

/// Puts the items and the leaves of marks into rows.
fn fill(items: &mut Row, leaves: &mut Row, marks: &[Option<Mark>])
    requires { length marks.now ≤ SIZE_LIMIT }
    ensures items { items.new ≡ map item_at marks.now }
    ensures leaves { leaves.new ≡ map leaf_at marks.now }
{
    items.clear();
    leaves.clear();
    for mark in marks {
        items.push(item_at(*mark));
        leaves.push(leaf_at(*mark));
    }
}

/// A call of `choose_indep`.
#[derive(Clone, Copy)]
struct Indep<'a> {
    weights: &'a Weights,
    call: &'a IndepCall,
    ghost in_range: { AreIndepNumbers call.now },
}

impl<'a> Indep<'a> {
    /// Makes one round for a leaf below a bucket. Returns the leaf that it finds, if it finds one.
    #[tactic(auto, unfolding(crate::specs::Indep::indep_leaf_by))]
    fn leaf_by(
        &self,
        scratch: &mut Scratch,
        bucket: BucketNo,
        start: u32,
        round: u32,
        effort: &mut Effort,
    ) -> Option<ItemId>
        requires bucket { bucket < length scratch.old.buckets }
        requires low { start < 2 ^ 20 }
        requires soon { round ≤ TRIES_LIMIT }
        ensures value { let s = self.now in result ≡ spec.indep_leaf_by scratch.old s.weights.now s.call.now bucket start round }
        ensures same { scratch.new ≡ scratch.old }
    {
        let x = self.call.x;
        let walk = Walk {
            x,
            wanted: 0,
            from: bucket,
        };
        let attempts = Attempts {
            start,
            numrep: self.call.numrep,
            round,
        };
        match reach(scratch, walk, attempts, effort) {
            WalkEnd::Found(item, _) => is_device_in(self.weights, x, item).then_some(item),
            WalkEnd::Empty => None,
            WalkEnd::Wrong => None,
        }
    }

    /// Finds the leaf of the first round that finds one. It gives up where none can.
    #[tactic(auto, unfolding(crate::specs::Indep::indep_leaf))]
    fn leaf_below(
        &self,
        scratch: &mut Scratch,
        bucket: BucketNo,
        start: u32,
        effort: &mut Effort,
    ) -> Option<ItemId>
        requires bucket { bucket < length scratch.old.buckets }
        requires low { start < 2 ^ 20 }
        ensures value { let s = self.now in result ≡ spec.indep_leaf scratch.old s.weights.now s.call.now bucket start }
        ensures same { scratch.new ≡ scratch.old }
    {
        a_pick_is_pickable();
        let since = effort.spent();
        let mut asked = false;
        for round in 0..self.call.leaf_tries {
            let leaf = self.leaf_by(scratch, bucket, start, round, effort);
            if leaf.is_some() {
                return leaf;
            }
            let tables = scratch.tables();
            if !asked && effort.is_due(tables, self.call.bucket, since) {
                asked = true;
                if !can_have_leaf(tables, self.weights, self.call.x, &[], bucket) {
                    return None;
                }
            }
        }
        None
    }

    /// Finds the leaf of an item that attempt r found for a position.
    fn leaf_of(
        &self,
        scratch: &mut Scratch,
        pos: u32,
        item: ItemId,
        r: u32,
        effort: &mut Effort,
    ) -> Option<ItemId>
        requires pos { pos < SIZE_LIMIT }
        requires low { r < 2 ^ 16 }
        ensures value { let s = self.now in result ≡ spec.indep_leaf_of scratch.old s.weights.now s.call.now pos item r (bucket_numbered scratch.old item) }
        ensures same { scratch.new ≡ scratch.old }
    {
        match scratch.tables().bucket_of(item) {
            None => is_device_in(self.weights, self.call.x, item).then_some(item),
            Some(_) if self.call.leaf_tries == 0 => Some(item),
            Some(bucket) => self.leaf_below(scratch, bucket, pos + r, effort),
        }
    }

    /// Makes one try of a position, given the marks of all positions. Returns `None` if it fails.
    #[tactic(auto, unfolding(crate::specs::Indep::indep_try))]
    fn indep_try(
        &self,
        scratch: &mut Scratch,
        marks: &[Option<Mark>],
        pos: u32,
        round: u32,
        effort: &mut Effort,
    ) -> Option<Mark>
        requires from { self.now.call.now.bucket < length scratch.old.buckets }
        requires few { length marks.now ≤ SIZE_LIMIT }
        requires pos { pos < SIZE_LIMIT }
        requires soon { round ≤ TRIES_LIMIT }
        ensures value { let s = self.now in result ≡ spec.indep_try scratch.old s.weights.now s.call.now marks.now pos round }
        ensures same { scratch.new ≡ scratch.old }
    {
        let walk = Walk {
            x: self.call.x,
            wanted: self.call.wanted,
            from: self.call.bucket,
        };
        let attempts = Attempts {
            start: pos,
            numrep: self.call.numrep,
            round,
        };
        let (item, r) = match reach(scratch, walk, attempts, effort) {
            WalkEnd::Found(item, r) => (item, r),
            WalkEnd::Empty => return None,
            WalkEnd::Wrong => return Some(Mark::Skipped),
        };
        if taken(marks, round, pos, item) {
            return None;
        }
        let leaf = self.leaf_of(scratch, pos, item, r, effort)?;
        Some(Mark::Placed(Spot { round, item, leaf }))
    }

    /// Tries a position in a round, unless it is decided already.
    fn try_position(
        &self,
        scratch: &mut Scratch,
        marks: &mut [Option<Mark>],
        pos: u32,
        round: u32,
        effort: &mut Effort,
    )
        requires from { self.now.call.now.bucket < length scratch.old.buckets }
        requires few { length marks.old ≤ SIZE_LIMIT }
        requires pos { pos < length marks.old }
        requires soon { round ≤ TRIES_LIMIT }
        ensures value { let s = self.now in marks.new ≡ spec.after_try (spec.indep_try scratch.old s.weights.now s.call.now) round pos marks.old }
        ensures same { scratch.new ≡ scratch.old }
    {
        if marks[pos as usize].is_none() {
            marks[pos as usize] = self.indep_try(scratch, marks, pos, round, effort);
        }
    }

    /// Makes one round: it tries each undecided position, in order.
    fn run_round(
        &self,
        scratch: &mut Scratch,
        marks: &mut [Option<Mark>],
        round: u32,
        effort: &mut Effort,
    )
        requires from { self.now.call.now.bucket < length scratch.old.buckets }
        requires places { length marks.old ≡ self.now.call.now.n }
        requires soon { round ≤ TRIES_LIMIT }
        ensures value { let s = self.now in marks.new ≡ spec.in_round (spec.indep_try scratch.old s.weights.now s.call.now) round s.call.now.n marks.old }
        ensures places { length marks.new ≡ self.now.call.now.n }
        ensures same { scratch.new ≡ scratch.old }
    {
        for pos in 0..self.call.n {
            self.try_position(scratch, marks, pos, round, effort);
        }
    }

    /// Returns whether a try of a position can place an item, given `marks`.
    fn can_place(&self, tables: &Tables, marks: &[Option<Mark>]) -> bool
        requires from { self.now.call.now.bucket < length tables.now.buckets }
        requires few { length marks.now ≤ SIZE_LIMIT }
        ensures { let s = self.now in result ≡ (nat_le BUCKET_LIMIT s.call.now.bucket || indep_can_place tables.now s.weights.now s.call.now (map item_at marks.now)) }
    {
        let mut items = Row::new();
        let mut leaves = Row::new();
        fill(&mut items, &mut leaves, marks);
        let walk = Walk {
            x: self.call.x,
            wanted: self.call.wanted,
            from: self.call.bucket,
        };
        let leaf = self.call.leaf_tries > 0;
        can_choose(tables, self.weights, walk, items.items(), leaf, &[])
    }

    /// Makes the rounds, until each position is decided, none can be, or there is no round left.
    #[tactic(auto, unfolding(crate::specs::Indep::indep))]
    fn run_rounds(&self, scratch: &mut Scratch, marks: &mut [Option<Mark>])
        requires from { self.now.call.now.bucket < length scratch.old.buckets }
        requires places { marks.old ≡ replicate self.now.call.now.n None }
        ensures value { let s = self.now in PlaceTheSame marks.new (spec.indep scratch.old s.weights.now s.call.now) }
        ensures places { length marks.new ≡ self.now.call.now.n }
        ensures same { scratch.new ≡ scratch.old }
    {
        a_pick_is_pickable();
        let tables = scratch.tables();
        let mut effort = Effort::new();
        let mut since = 0;
        let mut waiting = marks.len();
        for round in 0..self.call.tries {
            if all_decided(marks) {
                return;
            }
            if effort.is_due(tables, self.call.bucket, since) {
                let left = undecided(marks);
                if left == waiting && !self.can_place(tables, marks) {
                    return;
                }
                since = effort.spent();
                waiting = left;
            }
            self.run_round(scratch, marks, round, &mut effort);
        }
    }
}

/// Chooses items of a type below a bucket, each at its position, and a leaf for each; a position
/// for which no try succeeds is left empty (`crush_choose_indep` of Ceph's `mapper.c`).
///
/// Where no leaf is required, or where an item is a device, the leaf is the item itself.
pub fn choose_indep(
    tables: &Tables,
    scratch: &mut Scratch,
    call: &IndepCall,
    weights: &Weights,
    items: &mut Row,
    leaves: &mut Row,
)
    requires call { IsIndepCall tables.now call.now }
    requires fits { scratch.old ≡ scratch_of tables.now }
    ensures items { items.new ≡ map item_at (spec.indep tables.now weights.now call.now) }
    ensures leaves { leaves.new ≡ map leaf_at (spec.indep tables.now weights.now call.now) }
    ensures there { IsIndepAnswer tables.now weights.now call.now (spec.indep tables.now weights.now call.now) }
    ensures only { (marks : Marks) → IsIndepAnswer tables.now weights.now call.now marks → (items.new ≡ map item_at marks) × (leaves.new ≡ map leaf_at marks) }
    ensures places { length items.new ≡ call.now.n }
    ensures even { length leaves.new ≡ call.now.n }
    ensures fits { scratch.new ≡ scratch_of tables.now }
{
    let mut row = [None; SIZE_LIMIT];
    let marks = &mut row[..call.n as usize];
    let indep = Indep { weights, call };
    indep.run_rounds(scratch, marks);
    fill(items, leaves, marks);
}
