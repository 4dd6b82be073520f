//! Picks that are made ahead for eight inputs, side by side, as far as their walks go the same way.
//!
//! Which ones are made is a guess: those that a rule asks for where no try fails. They change no
//! answer, only how soon it is there.

ghost use Rattle.std.specs.Prelude.{◌≡◌};
ghost use Rattle.crush_bucket.specs.Tables.{scratch_of};

use crate::rule::reps;
use crush_bucket::{BucketNo, LANES, Scratch, Tables, is_side_by_side};
use crush_map::{ItemId, Rule, Step};

/// For how many reps of a choose step picks are made ahead.
const REP_LIMIT: u32 = 12;

/// How many buckets a walk goes down at most.
const DEPTH_LIMIT: u32 = 8;

/// What a choose step asks for at its first tries, for eight inputs.
#[derive(Clone, Copy)]
struct Guess {
    xs: [u32; LANES],
    firstn: bool,
    leaf: bool,
    wanted: u32,
    reps: u32,
    vary_r: u32,
    stable: u32,
}

impl Guess {
    /// Returns the first attempt for a leaf, where no try failed before.
    fn leaf_attempt(&self, rep: u32) -> u32 {
        if !self.firstn {
            return rep.wrapping_mul(2);
        }
        let base = if self.stable == 1 { 0 } else { rep };
        let sub = match self.vary_r {
            0 => 0,
            n => rep.checked_shr(n - 1).unwrap_or(0),
        };
        base.wrapping_add(sub)
    }
}

/// Finds the buckets that `items` are. `None`: one of them is a device.
fn buckets_of(tables: &Tables, items: &[ItemId; LANES]) -> Option<[BucketNo; LANES]> {
    let first = tables.bucket_of(items[0])?;
    let second = tables.bucket_of(items[1])?;
    let third = tables.bucket_of(items[2])?;
    let fourth = tables.bucket_of(items[3])?;
    let fifth = tables.bucket_of(items[4])?;
    let sixth = tables.bucket_of(items[5])?;
    let seventh = tables.bucket_of(items[6])?;
    let eighth = tables.bucket_of(items[7])?;
    Some([first, second, third, fourth, fifth, sixth, seventh, eighth])
}

/// Returns whether a bucket has the type `wanted`.
fn is_wanted(tables: &Tables, bucket: BucketNo, wanted: u32) -> bool {
    bucket.place() < tables.len() && tables.type_of(bucket) == wanted
}

/// Picks ahead down from eight buckets, for eight inputs and an attempt. Returns the buckets of the
/// type `wanted` that are reached. `None`: the walks part or end before.
fn walk_ahead(
    scratch: &mut Scratch,
    xs: &[u32; LANES],
    from: [BucketNo; LANES],
    r: u32,
    wanted: u32,
) -> Option<[BucketNo; LANES]>
    ensures { scratch.new ≡ scratch.old }
{
    let tables = scratch.tables();
    let mut at = from;
    'down: for _ in 0..DEPTH_LIMIT {
        let items = scratch.pick_ahead(at, xs, r)?;
        at = buckets_of(tables, &items)?;
        let (mut all, mut some) = (true, false);
        for lane in 0..LANES {
            let ends = is_wanted(tables, at[lane], wanted);
            all = all && ends;
            some = some || ends;
        }
        if all {
            return Some(at);
        }
        if some {
            return None;
        }
    }
    None
}

/// Picks ahead what a choose step asks for below a bucket.
fn choose_ahead(scratch: &mut Scratch, guess: &Guess, bucket: BucketNo)
    ensures { scratch.new ≡ scratch.old }
{
    for rep in 0..guess.reps.min(REP_LIMIT) {
        let from = [bucket; LANES];
        let found = walk_ahead(scratch, &guess.xs, from, rep, guess.wanted);
        if let Some(at) = found {
            if guess.leaf {
                walk_ahead(scratch, &guess.xs, at, guess.leaf_attempt(rep), 0);
            }
        }
    }
}

/// Returns whether something can be picked ahead for a rule: one of its first buckets is of a kind
/// that picks side by side.
pub fn can_look_ahead(tables: &Tables, rule: &Rule) -> bool {
    for step in rule.steps.as_slice() {
        if let Step::Take(item) = *step {
            if let Some(bucket) = tables.bucket_of(item) {
                if is_side_by_side(tables.kind(bucket)) {
                    return true;
                }
            }
        }
    }
    false
}

/// Picks ahead what a rule asks for at its first tries, for eight inputs and an answer of at most
/// `size` slots. What the rule answers afterwards is the same, for `xs` and for other inputs. It
/// may allocate; where that fails less is picked ahead.
pub fn look_ahead(tables: &Tables, scratch: &mut Scratch, rule: &Rule, xs: [u32; LANES], size: u32)
    requires { scratch.old ≡ scratch_of tables.now }
    ensures { scratch.new ≡ scratch_of tables.now }
{
    scratch.turn_to(xs);
    let tunables = tables.tunables();
    let (mut vary_r, mut stable) = (tunables.vary_r, tunables.stable);
    let mut from = None;
    for step in rule.steps.as_slice() {
        match *step {
            Step::Take(item) => from = tables.bucket_of(item),
            Step::SetVaryR(n) => vary_r = n,
            Step::SetStable(n) => stable = n,
            Step::SetChooseTries(_) | Step::SetLeafTries(_) | Step::Emit => {}
            Step::Choose {
                firstn,
                leaf,
                n,
                wanted,
            } => {
                if let Some(bucket) = from {
                    let guess = Guess {
                        xs,
                        firstn,
                        leaf,
                        wanted,
                        reps: reps(n, size),
                        vary_r,
                        stable,
                    };
                    choose_ahead(scratch, &guess, bucket);
                }
                from = None;
            }
        }
    }
}
