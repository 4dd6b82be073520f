//! The walk down from a bucket to an item of a type.

ghost use Rattle.std.specs.Prelude.{◌≡◌, ◌+◌, ◌*◌, ◌<◌, ◌≤◌, ◌^◌, length};
ghost use Rattle.crush_choose.specs.Reach.{reach, step};
ghost use Rattle.crush_choose.specs.Private.Walks.{AreAttempts, IsUpTo};
ghost use Rattle.crush_map.specs.declared.limits.TheConstants.{COUNT_LIMIT};

use crate::effort::Effort;
use crush_bucket::{BucketNo, Scratch, Tables};
use crush_map::ItemId;

/// A walk for an input, from a bucket to an item of a type.
#[derive(Clone, Copy)]
pub(crate) struct Walk {
    pub x: u32,
    /// The number of the type.
    pub wanted: u32,
    pub from: BucketNo,
}

/// The attempts of a walk: at each bucket, `start` and what the bucket adds for the round.
#[derive(Clone, Copy)]
pub(crate) struct Attempts {
    pub start: u32,
    pub numrep: u32,
    pub round: u32,
}

/// Where a walk ended.
#[derive(Clone, Copy, Debug)]
pub enum WalkEnd {
    /// It ended at a bucket without items.
    Empty,
    /// It ended at a device where another type is required.
    Wrong,
    /// It ended at this item of the required type, which this attempt picked.
    Found(ItemId, u32),
}

/// Returns the attempt at a bucket.
fn attempt_at(tables: &Tables, attempts: Attempts, bucket: BucketNo) -> u32
    requires bucket { bucket < length tables.now.buckets }
    requires attempts { AreAttempts attempts }
    ensures value { result ≡ attempts.start + step tables.now attempts.numrep attempts.round bucket }
    ensures low { result ≤ attempts.start + (COUNT_LIMIT + 1) * attempts.round }
{
    // most walks are of round 0, in which nothing is divided
    if attempts.round == 0 {
        return attempts.start;
    }
    let uniform = tables.kind(bucket).is_uniform();
    let extra = if uniform && tables.size(bucket) % attempts.numrep as usize == 0 {
        1
    } else {
        0
    };
    attempts.start + (attempts.numrep + extra) * attempts.round
}

/// Picks from a bucket and on from each bucket that is picked, until an item has the wanted type.
/// It is inlined: a mapping has few picks for each walk.
#[inline(always)]
pub(crate) fn reach(
    scratch: &mut Scratch,
    walk: Walk,
    attempts: Attempts,
    effort: &mut Effort,
) -> WalkEnd
    requires from { walk.from < length scratch.old.buckets }
    requires attempts { AreAttempts attempts }
    ensures value { result ≡ reach scratch.old walk.x (λ b. attempts.start + step scratch.old attempts.numrep attempts.round b) walk.wanted walk.from }
    ensures up_to { IsUpTo (attempts.start + (COUNT_LIMIT + 1) * attempts.round) result }
    ensures same { scratch.new ≡ scratch.old }
{
    let tables = scratch.tables();
    let mut bucket = walk.from;
    'down: loop {
        if tables.is_empty(bucket) {
            return WalkEnd::Empty;
        }
        effort.add_pick();
        let r = attempt_at(tables, attempts, bucket);
        let item = tables.pick(bucket, scratch, walk.x, r);
        match tables.bucket_of(item) {
            None => {
                return if walk.wanted == 0 {
                    WalkEnd::Found(item, r)
                } else {
                    WalkEnd::Wrong
                };
            }
            Some(below) => {
                if tables.type_of(below) == walk.wanted {
                    return WalkEnd::Found(item, r);
                }
                bucket = below;
            }
        }
    }
}

/// Walks as `reach` does, with the same attempt at each bucket.
#[inline(always)]
pub(crate) fn reach_by(scratch: &mut Scratch, walk: Walk, r: u32, effort: &mut Effort) -> WalkEnd
    requires from { walk.from < length scratch.old.buckets }
    requires low { r < 2 ^ 31 }
    ensures value { result ≡ reach scratch.old walk.x (λ b. r) walk.wanted walk.from }
    ensures up_to { IsUpTo r result }
    ensures same { scratch.new ≡ scratch.old }
{
    let attempts = Attempts {
        start: r,
        numrep: 1,
        round: 0,
    };
    reach(scratch, walk, attempts, effort)
}
