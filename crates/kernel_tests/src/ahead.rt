//! Picks that are made ahead for eight inputs at once, beside their plain form.

ghost use Rattle.std.specs.Prelude.{◌≡◌};
ghost use Rattle.crush_bucket.specs.Tables.{scratch_of};

use crate::buckets::next;
use crate::drafts::{ONE, SOUND, Short, draft, entries};
use crate::plain;
use crate::same::{assert_same, assert_same_at};
use Kind::{List, Straw2, Tree, Uniform};
use crush_bucket::{BucketNo, LANES, Scratch, Tables};
use crush_map::{CrushMap, ItemId, Kind};
use std::alloc::{AllocError, Global};
use std::process::Abort;

type Row = (i32, &'static str, u32, Kind, &'static [(i32, u32)]);

/// How many buckets there are.
const COUNT: u32 = 12;

/// How many of the buckets are trees that have items; they come first.
const TREES: u32 = 5;

/// The uniform buckets of 5, 7 and 9 items, and the first one of 2.
const UNIFORMS: [u32; 3] = [8, 9, 10];

const SHORT: usize = 6;

/// Trees of 1, 2, 3, 5 and 9 items, whose heights are 0, 1, 2, 3 and 4; a list, a uniform bucket
/// and a tree without items; uniform buckets of 5, 7 and 9 items; a straw2 bucket.
const BUCKETS: &[Row] = &[
    (-1, "b-1", 1, Tree, &[(3, ONE)]),
    (-2, "b-2", 1, Tree, &[(0, ONE), (3, 3 * ONE)]),
    (-3, "b-3", 1, Tree, &[(0, 5), (3, 0), (1, 9)]),
    (
        -4,
        "b-4",
        1,
        Tree,
        &[(0, ONE), (1, ONE), (2, ONE), (3, ONE), (4, 7)],
    ),
    (
        -5,
        "b-5",
        1,
        Tree,
        &[
            (0, ONE),
            (1, 2 * ONE),
            (2, 3 * ONE),
            (3, 4 * ONE),
            (4, 5 * ONE),
            (5, 6 * ONE),
            (6, 7 * ONE),
            (7, 8 * ONE),
            (8, 9 * ONE),
        ],
    ),
    (-6, "b-6", 1, List, &[(0, ONE), (1, ONE)]),
    (-7, "b-7", 1, Uniform, &[(0, ONE), (1, ONE)]),
    (-8, "b-8", 1, Tree, &[]),
    (
        -9,
        "b-9",
        1,
        Uniform,
        &[(4, ONE), (3, ONE), (2, ONE), (1, ONE), (0, ONE)],
    ),
    (
        -10,
        "b-10",
        1,
        Uniform,
        &[(8, 3), (1, 3), (7, 3), (2, 3), (6, 3), (3, 3), (5, 3)],
    ),
    (
        -11,
        "b-11",
        1,
        Uniform,
        &[
            (0, 1),
            (1, 1),
            (2, 1),
            (3, 1),
            (4, 1),
            (5, 1),
            (6, 1),
            (7, 1),
            (8, 1),
        ],
    ),
    (-12, "b-12", 1, Straw2, &[(2, ONE), (1, 2 * ONE), (0, 0)]),
];

const MAP: Short<'static> = Short {
    devices: &[
        (0, "d0"),
        (1, "d1"),
        (2, "d2"),
        (3, "d3"),
        (4, "d4"),
        (5, "d5"),
        (6, "d6"),
        (7, "d7"),
        (8, "d8"),
    ],
    buckets: BUCKETS,
    ..SOUND
};

/// Picks from a bucket of the map by the plain form.
fn plain_pick(rt: &impl Abort, alloc: Global, n: u32, x: u32, r: u32) -> ItemId {
    let Some((id, _, _, kind, items)) = BUCKETS.get(n as usize) else {
        return rt.abort();
    };
    let entries = entries(alloc, items).expect(rt, "error");
    plain::pick(alloc, *kind, ItemId(*id), &entries, x, r).expect(rt, "error")
}

/// Asserts that the tables pick what the plain form picks, with a scratch in which picks may have
/// been made ahead.
fn assert_pick(
    rt: &impl Abort,
    alloc: Global,
    tables: &Tables,
    scratch: &mut Scratch,
    n: u32,
    x: u32,
    r: u32,
)
    requires { scratch.old ≡ scratch_of tables.now }
    ensures { scratch.new ≡ scratch_of tables.now }
{
    let Some(bucket) = tables.bucket_of(ItemId(-1 - (n % COUNT) as i32)) else {
        return rt.abort();
    };
    assert!(rt; !tables.is_empty(bucket));
    let item = tables.pick(bucket, scratch, x, r);
    let expected = plain_pick(rt, alloc, n % COUNT, x, r);
    assert_same_at(rt, [n as u32, x, r], &item, &expected);
}

/// Asserts that the items are those that the plain form picks from the buckets for the inputs.
fn assert_items(
    rt: &impl Abort,
    alloc: Global,
    items: &[ItemId; LANES],
    numbers: &[u32; LANES],
    xs: &[u32; LANES],
    r: u32,
) {
    for lane in 0..LANES {
        let expected = plain_pick(rt, alloc, numbers[lane], xs[lane], r);
        assert_same(rt, &items[lane], &expected);
    }
}

fn buckets_of(numbers: &[u32; LANES]) -> [BucketNo; LANES] {
    let mut buckets = [BucketNo::new(0); LANES];
    for lane in 0..LANES {
        buckets[lane] = BucketNo::new(numbers[lane] as usize);
    }
    buckets
}

/// Picks ahead from eight buckets, and asks for what was picked, then for the same with an input,
/// an attempt or a bucket changed.
fn assert_ahead(
    rt: &impl Abort,
    alloc: Global,
    tables: &Tables,
    scratch: &mut Scratch,
    numbers: [u32; LANES],
    xs: [u32; LANES],
    r: u32,
)
    requires { scratch.old ≡ scratch_of tables.now }
    ensures { scratch.new ≡ scratch_of tables.now }
{
    // picks from the given buckets can be made ahead: only a lack of memory prevents them
    let items = scratch
        .pick_ahead(buckets_of(&numbers), &xs, r)
        .expect(rt, "error: AllocError");
    assert_items(rt, alloc, &items, &numbers, &xs, r);
    'lanes: for lane in 0..LANES {
        let (n, x) = (numbers[lane], xs[lane]);
        assert_pick(rt, alloc, tables, scratch, n, x, r);
        assert_pick(rt, alloc, tables, scratch, n, xs[LANES - 1 - lane], r);
        assert_pick(rt, alloc, tables, scratch, n, x, r.wrapping_add(1));
        assert_pick(rt, alloc, tables, scratch, numbers[0], x, r);
        assert_pick(rt, alloc, tables, scratch, n, x.wrapping_add(1), r);
    }
}

fn numbers(seed: &mut u64, below: u32) -> [u32; LANES] {
    let mut numbers = [0; LANES];
    for lane in 0..LANES {
        numbers[lane] = next(seed) % below.max(1);
    }
    numbers
}

fn assert_rounds(rt: &impl Abort, alloc: Global, tables: &Tables) -> Result<(), AllocError> {
    let mut scratch = Scratch::build(alloc, tables)?;
    let mut seed = 2_031;
    'inputs: for _ in 0..40 {
        // of few inputs some stand in several lanes
        let xs = numbers(&mut seed, 5);
        scratch.turn_to(xs);
        'steps: for _ in 0..5 {
            let buckets = numbers(&mut seed, TREES);
            let r = next(&mut seed) % 4;
            assert_ahead(rt, alloc, tables, &mut scratch, buckets, xs, r);
        }
    }
    Ok(())
}

/// Draws the numbers of eight uniform buckets.
fn uniform_numbers(seed: &mut u64) -> [u32; LANES] {
    let mut buckets = numbers(seed, 3);
    for lane in 0..LANES {
        buckets[lane] = UNIFORMS[(buckets[lane] % 3) as usize];
    }
    buckets
}

/// Asserts the same of uniform buckets, for the first four places of each.
fn assert_uniform(rt: &impl Abort, alloc: Global, tables: &Tables) -> Result<(), AllocError> {
    let mut scratch = Scratch::build(alloc, tables)?;
    let mut seed = 77;
    'inputs: for _ in 0..20 {
        let xs = numbers(&mut seed, 5);
        scratch.turn_to(xs);
        'steps: for r in 0..4 {
            let buckets = uniform_numbers(&mut seed);
            assert_ahead(rt, alloc, tables, &mut scratch, buckets, xs, r);
        }
        // all ask for place 1 again, by an attempt beyond their size
        assert_ahead(rt, alloc, tables, &mut scratch, [9; LANES], xs, 8);
    }
    Ok(())
}

/// Makes the tables of the map.
fn map_tables(rt: &impl Abort, alloc: Global) -> Tables {
    let draft = draft(alloc, MAP).expect(rt, "error");
    match CrushMap::check(alloc, draft).expect(rt, "error") {
        Ok(map) => Tables::build(alloc, &map).expect(rt, "error"),
        Err(_) => rt.abort(),
    }
}

/// The inputs that the scratch is turned to.
const INPUTS: [u32; LANES] = [1, 2, 3, 4, 5, 6, 7, 8];

/// Inputs that it isn't turned to.
const OTHERS: [u32; LANES] = [1, 2, 3, 4, 5, 6, 7, 9];

/// Asserts that nothing is picked ahead.
fn assert_none(
    rt: &impl Abort,
    scratch: &mut Scratch,
    buckets: [BucketNo; LANES],
    xs: &[u32; LANES],
    r: u32,
) {
    assert!(rt; scratch.pick_ahead(buckets, xs, r).is_none());
}

/// Asserts that nothing is picked ahead where one of eight buckets, each in turn, is `other`, and
/// the rest are `all`.
fn assert_none_with(
    rt: &impl Abort,
    scratch: &mut Scratch,
    all: BucketNo,
    other: BucketNo,
    r: u32,
) {
    for lane in 0..LANES {
        let mut buckets = [all; LANES];
        buckets[lane] = other;
        assert_none(rt, scratch, buckets, &INPUTS, r);
    }
}

/// Uniform buckets are not picked from ahead for a later place, nor where they are asked for
/// different places.
#[test]
fn later_and_different_places_are_not_picked_ahead(rt: HostRuntime) {
    let tables = map_tables(&rt, rt.alloc());
    assert_uniform(&rt, rt.alloc(), &tables).expect(&rt, "error");
    let mut scratch = Scratch::build(rt.alloc(), &tables).expect(&rt, "error");
    scratch.turn_to(INPUTS);
    let longest = BucketNo::new(10);
    for r in 4..9 {
        assert_none(&rt, &mut scratch, [longest; LANES], &INPUTS, r);
    }
    // attempt 2 asks a bucket of two items for place 0
    assert_none_with(&rt, &mut scratch, longest, BucketNo::new(SHORT), 2);
}

/// Asserts that 64 steps are stored, and no more, and that for other inputs than those that were
/// turned to nothing is picked ahead.
fn assert_room(rt: &impl Abort, scratch: &mut Scratch, tree: BucketNo) {
    for r in 0..64 {
        assert_none(rt, scratch, [tree; LANES], &OTHERS, r);
        scratch
            .pick_ahead([tree; LANES], &INPUTS, r)
            .expect(rt, "error: AllocError");
    }
    assert_none(rt, scratch, [tree; LANES], &INPUTS, 64);
}

/// Five steps at a time are stored for eight inputs, and then those of eight others.
#[test]
fn what_is_picked_ahead_is_what_is_picked(rt: HostRuntime) {
    let tables = map_tables(&rt, rt.alloc());
    assert_rounds(&rt, rt.alloc(), &tables).expect(&rt, "error");
    let mut scratch = Scratch::build(rt.alloc(), &tables).expect(&rt, "error");
    scratch.turn_to(INPUTS);
    let tree = BucketNo::new(0);
    // a list, a uniform bucket, one without items, another uniform bucket, and a straw2 bucket
    for place in [5, 6, 7, 8, 11] {
        assert_none_with(&rt, &mut scratch, tree, BucketNo::new(place), 0);
    }
    assert_room(&rt, &mut scratch, tree);
}
