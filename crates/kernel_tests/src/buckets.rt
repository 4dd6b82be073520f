//! Worked rows, picks beside their plain forms, tables and scratches of a map.

ghost use Rattle.std.specs.Prelude.{◌≡◌, ◌<◌, ◌^◌, length};
ghost use Rattle.crush_bucket.specs.Pick.{perm_of};
ghost use Rattle.crush_bucket.specs.Tables.{scratch_of};

use crate::drafts::{ONE, SOUND, Short, draft, entries};
use crate::plain;
use crate::same::{assert_same, assert_same_at};
use Kind::{List, Straw2, Tree, Uniform};
use crush_bucket::{AnyBucket, Perm, Scratch, Tables, can_be_asked};
use crush_map::{CrushMap, ItemId, Kind, Weight, has_equal_weights};
use std::alloc::{AllocError, Global};
use std::process::Abort;

/// Moves `seed` on to the next of a row of numbers that look random, and returns a number of it.
pub(crate) fn next(seed: &mut u64) -> u32 {
    *seed = seed
        .wrapping_mul(6_364_136_223_846_793_005)
        .wrapping_add(1_442_695_040_888_963_407);
    (*seed >> 33) as u32
}

/// Picks from a bucket with the id `id` and `size` items for inputs and attempts, asked in turn
/// with one scratch.
fn ask(
    alloc: Global,
    bucket: &AnyBucket,
    id: ItemId,
    size: usize,
    questions: &[(u32, u32)],
) -> Result<Vec<ItemId>, AllocError>
    requires some { 0 < length bucket.now.items }
    requires few { size < 2 ^ 32 }
    requires its { perm_of bucket.now ≡ record { id = id; size = size } }
{
    let mut perm = Perm::build(alloc, id, size)?;
    let mut picks = Vec::new(alloc);
    'questions: for (x, r) in questions {
        picks.push(bucket.pick(&mut perm, *x, *r))?;
    }
    Ok(picks)
}

/// Asks a bucket with the id `id` and `size` items for eight inputs at once, at attempts from 0 on,
/// and for each of the inputs alone.
fn assert_eight(
    rt: &impl Abort,
    alloc: Global,
    bucket: &AnyBucket,
    id: ItemId,
    size: usize,
    xs: &[u32; 8],
) -> Result<(), AllocError>
    requires some { 0 < length bucket.now.items }
    requires few { size < 2 ^ 32 }
    requires its { perm_of bucket.now ≡ record { id = id; size = size } }
{
    let mut perm = Perm::build(alloc, id, size)?;
    'attempts: for r in 0..9 {
        let items = bucket.pick_eight(&mut perm, xs, r);
        'lanes: for lane in 0..8 {
            assert_same(rt, &items[lane], &bucket.pick(&mut perm, xs[lane], r));
        }
    }
    Ok(())
}

/// Asserts that a bucket of the kind picks for eight inputs at once what it picks for each of them.
fn assert_kind(
    rt: &impl Abort,
    alloc: Global,
    kind: Kind,
    id: ItemId,
    entries: &[(ItemId, Weight)],
    xs: &[u32; 8],
) -> Result<(), AllocError> {
    assert!(rt; can_be_asked(entries));
    assert!(rt; kind != Uniform || has_equal_weights(entries));
    let bucket = AnyBucket::build(alloc, kind, id, entries)?;
    assert_eight(rt, alloc, &bucket, id, entries.len(), xs)
}

/// Picks from the bucket of a kind for inputs and attempts.
fn picked(
    rt: &impl Abort,
    alloc: Global,
    kind: Kind,
    id: ItemId,
    entries: &[(ItemId, Weight)],
    questions: &[(u32, u32)],
) -> Result<Vec<ItemId>, AllocError> {
    assert!(rt; can_be_asked(entries));
    assert!(rt; kind != Uniform || has_equal_weights(entries));
    let bucket = AnyBucket::build(alloc, kind, id, entries)?;
    let picks = ask(alloc, &bucket, id, entries.len(), questions)?;
    assert_same(rt, &picks.len(), &questions.len());
    Ok(picks)
}

/// The kind and the items of a bucket -1, and the item that it picks.
type Row<'a> = (Kind, &'a [(i32, u32)], i32);

/// What is picked for the input 0 at the attempt 0.
const FIRST: &[Row<'static>] = &[
    (Uniform, &[(5, ONE), (6, ONE), (7, ONE)], 7),
    (List, &[(0, ONE), (1, ONE)], 0),
    (List, &[(0, ONE), (1, 22 * ONE)], 0),
    (List, &[(0, ONE), (1, 23 * ONE)], 1),
];

/// What is picked for every input at every attempt.
const ALWAYS: &[Row<'static>] = &[
    (List, &[(4, ONE), (9, 0)], 4),
    (List, &[(4, 0), (9, ONE)], 9),
    (List, &[(4, 0), (9, 0)], 4),
    (Tree, &[(10, 0), (11, 0), (12, 0)], 12),
    (Tree, &[(10, 0), (11, ONE), (12, 0)], 11),
    (Straw2, &[(4, ONE), (9, 0)], 4),
    (Straw2, &[(4, 0), (9, 1)], 9),
    (Straw2, &[(4, 0), (9, 0), (6, 0)], 4),
    (Straw2, &[(4, 0), (9, 2 * ONE), (6, 0)], 9),
];

/// What three devices of 1.0 give for the inputs 0, 1, .., as `crushtool` says.
const EVEN: [i32; 16] = [0, 0, 1, 0, 1, 0, 2, 1, 2, 2, 0, 0, 0, 0, 1, 1];

/// The same where the second weighs 2.0.
const RAISED: [i32; 16] = [0, 0, 1, 0, 1, 1, 2, 1, 2, 2, 0, 1, 1, 0, 1, 1];

/// The greatest weight of an item of a straw2 bucket.
const GREATEST: u32 = 2_147_483_647;

/// Items of a straw2 bucket, an input, and the item that is picked, as `crushtool` says: two draws
/// of which the greater has the smaller logarithm; a quotient that two draws give; the greatest
/// weights.
const EDGES: &[(&[(i32, u32)], u32, i32)] = &[
    (&[(55_160, ONE), (64_590, ONE)], 1, 64_590),
    (&[(64_590, ONE), (55_160, ONE)], 1, 64_590),
    (&[(-2, 20_000 * ONE), (-3, 20_000 * ONE)], 40_602, -2),
    (&[(-3, 20_000 * ONE), (-2, 20_000 * ONE)], 40_602, -3),
    (&[(-2, GREATEST), (-3, GREATEST)], 0, -3),
    (&[(-2, GREATEST), (-3, GREATEST)], 1, -2),
    (&[(-2, GREATEST), (-3, GREATEST)], 2, -2),
    (&[(-2, GREATEST), (-3, GREATEST)], 3, -3),
];

/// The items of a list without weight.
const LIGHT: [(i32, u32); 17] = [
    (3, 0),
    (4, 0),
    (5, 0),
    (6, 0),
    (7, 0),
    (8, 0),
    (9, 0),
    (10, 0),
    (11, 0),
    (12, 0),
    (13, 0),
    (14, 0),
    (15, 0),
    (16, 0),
    (17, 0),
    (18, 0),
    (19, 0),
];

/// Asserts that the bucket of a row picks the row's item for each question.
fn assert_row(rt: &impl Abort, alloc: Global, case: u32, row: &Row<'_>, questions: &[(u32, u32)]) {
    let (kind, items, expected) = *row;
    let entries = entries(alloc, items).expect(rt, "error");
    let picks = picked(rt, alloc, kind, ItemId(-1), &entries, questions).expect(rt, "error");
    for pick in &picks {
        assert_same_at(rt, [case, 0, 0], pick, &ItemId(expected));
    }
}

/// Asserts the same of each of the rows.
fn assert_rows(rt: &impl Abort, alloc: Global, rows: &[Row<'_>], questions: &[(u32, u32)]) {
    let mut case: u32 = 0;
    for row in rows {
        assert_row(rt, alloc, case, row, questions);
        case = case.wrapping_add(1);
    }
}

/// Makes two questions for each of 50 inputs.
fn many_questions(rt: &impl Abort, alloc: Global) -> Vec<(u32, u32)> {
    let mut many = Vec::new(alloc);
    for x in 0..50 {
        many.push((x, x / 3)).expect(rt, "error");
        many.push((x, x % 7)).expect(rt, "error");
    }
    many
}

/// The worked rows are met. The list without weight has 1, 7, 8, 9, 16 and 17 items, below, at and
/// above full eights.
#[test]
fn buckets_answer_the_worked_rows(rt: HostRuntime) {
    let many = many_questions(&rt, rt.alloc());
    let light = [
        (List, &LIGHT[..1], 3),
        (List, &LIGHT[..7], 3),
        (List, &LIGHT[..8], 3),
        (List, &LIGHT[..9], 3),
        (List, &LIGHT[..16], 3),
        (List, &LIGHT[..], 3),
    ];
    assert_rows(&rt, rt.alloc(), FIRST, &[(0, 0)]);
    assert_rows(&rt, rt.alloc(), ALWAYS, &many);
    assert_rows(&rt, rt.alloc(), &light, &many);
}

/// Asserts that straw2 buckets of two ids pick the expected items for the inputs 0, 1, .. at the
/// attempt 0.
fn assert_firsts(rt: &impl Abort, alloc: Global, items: &[(i32, u32)], expected: &[i32; 16]) {
    let entries = entries(alloc, items).expect(rt, "error");
    let mut questions = Vec::new(alloc);
    for x in 0..16 {
        questions.push((x, 0)).expect(rt, "error");
    }
    for id in [-1, -77] {
        let picks = picked(rt, alloc, Straw2, ItemId(id), &entries, &questions).expect(rt, "error");
        for (pick, item) in picks.iter().zip(expected.iter()) {
            assert_same(rt, pick, &ItemId(*item));
        }
    }
}

/// The worked rows of straw2 are met.
#[test]
fn straw2_buckets_answer_the_worked_rows(rt: HostRuntime) {
    let alloc = rt.alloc();
    assert_firsts(&rt, alloc, &[(0, ONE), (1, ONE), (2, ONE)], &EVEN);
    assert_firsts(&rt, alloc, &[(0, ONE), (1, 2 * ONE), (2, ONE)], &RAISED);
    for (items, x, item) in EDGES {
        assert_row(&rt, alloc, *x, &(Straw2, *items, *item), &[(*x, 0)]);
    }
}

/// A scratch answers as a new one where the short cut is taken or left, and x changes and comes
/// back.
#[test]
fn a_scratch_that_was_asked_answers_as_a_new_one(rt: HostRuntime) -> Result<(), AllocError> {
    let alloc = rt.alloc();
    let id = ItemId(-7);
    for size in 1..10 {
        let mut asked = Perm::build(alloc, id, size)?;
        'questions: for (x, r) in [(0, 0), (0, 2), (1, 0), (0, 1), (1, 0), (1, 8)] {
            let mut new = Perm::build(alloc, id, size)?;
            let place = r % size;
            assert_same_at(
                &rt,
                [size as u32, x, r as u32],
                &asked.member(x, place),
                &new.member(x, place),
            );
        }
    }
    Ok(())
}

/// Returns how many items the bucket of a round has: around powers of two that are past 64, else 1
/// to 200.
fn random_size(seed: &mut u64, round: u32) -> u16 {
    match round {
        0 => 65,
        1 => 127,
        2 => 128,
        3 => 129,
        _ => 1 + (next(seed) % 200) as u16,
    }
}

/// Makes `size` items of random weights, whose sum is below 2^32, or of one weight.
fn random_entries(
    alloc: Global,
    seed: &mut u64,
    size: u16,
    even: bool,
) -> Result<Vec<(ItemId, Weight)>, AllocError> {
    let past = if size <= 200 { 16_777_216 } else { 1_048_576 };
    let mut entries = Vec::new(alloc);
    for place in 0..size {
        let weight = if even { ONE } else { next(seed) % past };
        entries.push((ItemId(i32::from(place)), Weight(weight)))?;
    }
    Ok(entries)
}

pub(crate) fn random_id(seed: &mut u64) -> ItemId {
    ItemId(-1 - (next(seed) % 1_000) as i32)
}

/// Makes the id and the items of a bucket of a kind for a round.
fn random_bucket(
    rt: &impl Abort,
    alloc: Global,
    seed: &mut u64,
    round: u32,
    kind: Kind,
) -> (ItemId, Vec<(ItemId, Weight)>) {
    let id = random_id(seed);
    let size = random_size(seed, round);
    let entries = random_entries(alloc, seed, size, kind == Uniform).expect(rt, "error");
    (id, entries)
}

/// Makes ten questions for few inputs.
fn few_questions(rt: &impl Abort, alloc: Global, seed: &mut u64) -> Vec<(u32, u32)> {
    let mut questions = Vec::new(alloc);
    for _ in 0..10 {
        questions
            .push((next(seed) % 3, next(seed)))
            .expect(rt, "error");
    }
    questions
}

/// Asserts that the bucket of a kind picks for each question what its plain form picks.
fn assert_plain(
    rt: &impl Abort,
    alloc: Global,
    case: u32,
    kind: Kind,
    id: ItemId,
    entries: &[(ItemId, Weight)],
    questions: &[(u32, u32)],
) {
    let picks = picked(rt, alloc, kind, id, entries, questions).expect(rt, "error");
    for ((x, r), pick) in questions.iter().zip(picks.iter()) {
        let expected = plain::pick(alloc, kind, id, entries, *x, *r).expect(rt, "error");
        assert_same_at(rt, [case, *x, *r], pick, &expected);
    }
}

/// Asserts the same of the bucket for a round, for ten questions.
fn assert_random(rt: &impl Abort, alloc: Global, seed: &mut u64, round: u32, kind: Kind) {
    let (id, entries) = random_bucket(rt, alloc, seed, round, kind);
    let questions = few_questions(rt, alloc, seed);
    assert_plain(rt, alloc, round, kind, id, &entries, &questions);
}

/// 200 buckets of each kind, of up to 200 items, each asked ten times for few inputs.
#[test]
fn buckets_pick_as_their_plain_forms(rt: HostRuntime) {
    let mut seed = 2_026;
    for round in 0..200 {
        for kind in [Uniform, List, Tree, Straw2] {
            assert_random(&rt, rt.alloc(), &mut seed, round, kind);
        }
    }
}

/// Makes eight inputs, some of which may be the same.
fn eight_inputs(seed: &mut u64) -> [u32; 8] {
    let mut xs = [0; 8];
    for lane in 0..8 {
        xs[lane] = next(seed) % 50;
    }
    xs
}

/// Asserts that the bucket for a round picks for eight inputs at once what it picks for each.
fn assert_random_eight(rt: &impl Abort, alloc: Global, seed: &mut u64, round: u32, kind: Kind) {
    let (id, entries) = random_bucket(rt, alloc, seed, round, kind);
    let xs = eight_inputs(seed);
    assert_kind(rt, alloc, kind, id, &entries, &xs).expect(rt, "error");
}

/// 40 buckets of each kind, of up to 200 items, each asked for eight inputs, some of them twice.
#[test]
fn buckets_pick_for_eight_inputs_as_for_each(rt: HostRuntime) {
    let mut seed = 2_029;
    for round in 0..40 {
        for kind in [Uniform, List, Tree, Straw2] {
            assert_random_eight(&rt, rt.alloc(), &mut seed, round, kind);
        }
    }
}

/// Makes `size` items of which some weigh nothing, some little and some 256.0; the last weighs as
/// much as all others may together where `last` is true.
fn sparse_entries(
    alloc: Global,
    seed: &mut u64,
    size: u16,
    last: bool,
) -> Result<Vec<(ItemId, Weight)>, AllocError> {
    let weights = [0, 0, 1, 3, ONE, ONE, 2 * ONE, 256 * ONE];
    let mut entries = Vec::new(alloc);
    for place in 0..size {
        let weight = if last && place.wrapping_add(1) == size {
            10_240 * ONE
        } else {
            weights[(next(seed) % 8) as usize]
        };
        entries.push((ItemId(i32::from(place)), Weight(weight)))?;
    }
    Ok(entries)
}

/// Asserts that the straw2 bucket of a size picks what its plain form picks.
fn assert_size(rt: &impl Abort, alloc: Global, seed: &mut u64, size: u16, last: bool) {
    let entries = sparse_entries(alloc, seed, size, last).expect(rt, "error");
    let questions = few_questions(rt, alloc, seed);
    let case = u32::from(size);
    assert_plain(rt, alloc, case, Straw2, ItemId(-1), &entries, &questions);
}

/// Sizes from 1 to 40, below, at and above full eights.
#[test]
fn straw2_buckets_of_each_size_pick_as_their_plain_forms(rt: HostRuntime) {
    let mut seed = 2_033;
    for size in 1..41 {
        for last in [false, false, true] {
            assert_size(&rt, rt.alloc(), &mut seed, size, last);
        }
    }
}

/// Two or three items with the greatest weights, of which many give one quotient to several draws.
#[test]
fn straw2_buckets_of_great_weights_pick_as_their_plain_forms(rt: HostRuntime) {
    let alloc = rt.alloc();
    let mut seed = 2_034;
    for items in [
        &[(0, GREATEST), (1, GREATEST), (2, 1)],
        &[(0, 20_000 * ONE), (1, 20_000 * ONE), (2, 20_000 * ONE)],
        &[(0, GREATEST), (1, 1_073_741_824), (2, 1_073_741_823)],
        &[(0, 1), (1, 0), (2, GREATEST)],
    ] {
        let entries = entries(alloc, items).expect(&rt, "error");
        let questions = any_questions(&rt, alloc, &mut seed);
        assert_plain(&rt, alloc, 0, Straw2, ItemId(-1), &entries, &questions);
    }
}

/// The most items of a bucket.
const MOST: u16 = 4_096;

/// Adds ten questions for the input `x`, and what the plain form of a uniform bucket picks for
/// each: at places all over the bucket for the input 0, and at its front for others.
fn add_questions(
    rt: &impl Abort,
    seed: &mut u64,
    x: u32,
    entries: &[(ItemId, Weight)],
    places: &[usize],
    questions: &mut Vec<(u32, u32)>,
    wanted: &mut Vec<ItemId>,
) {
    let reach = if x == 0 { u32::from(MOST) } else { 200 };
    for _ in 0..10 {
        let rounds = (next(seed) / 8_192).wrapping_mul(u32::from(MOST));
        let r = rounds.wrapping_add(next(seed) % reach);
        questions.push((x, r)).expect(rt, "error");
        wanted
            .push(plain::placed(entries, places, r))
            .expect(rt, "error");
    }
}

/// 20 inputs, each asked ten times: the first at places all over the bucket, and the others at its
/// front, since an exchange takes the longer the more were made before.
#[test]
fn a_uniform_bucket_of_the_most_items_picks_as_its_plain_form(rt: HostRuntime) {
    let alloc = rt.alloc();
    let mut seed = 2_028;
    let id = random_id(&mut seed);
    let entries = random_entries(alloc, &mut seed, MOST, true).expect(&rt, "error");
    let mut questions = Vec::new(alloc);
    let mut wanted = Vec::new(alloc);
    for x in 0..20 {
        let size = entries.len();
        let places = plain::exchanged(alloc, id, size, x, size).expect(&rt, "error");
        add_questions(
            &rt,
            &mut seed,
            x,
            &entries,
            &places,
            &mut questions,
            &mut wanted,
        );
    }
    let picks = picked(&rt, alloc, Uniform, id, &entries, &questions).expect(&rt, "error");
    assert_same(&rt, &picks.as_slice(), &wanted.as_slice());
}

/// Makes 200 questions of any inputs.
fn any_questions(rt: &impl Abort, alloc: Global, seed: &mut u64) -> Vec<(u32, u32)> {
    let mut questions = Vec::new(alloc);
    for _ in 0..200 {
        questions.push((next(seed), next(seed))).expect(rt, "error");
    }
    questions
}

/// 200 questions of any inputs.
#[test]
fn a_tree_of_the_most_items_picks_as_its_plain_form(rt: HostRuntime) {
    let mut seed = 2_029;
    let id = random_id(&mut seed);
    let entries = random_entries(rt.alloc(), &mut seed, MOST, false).expect(&rt, "error");
    let questions = any_questions(&rt, rt.alloc(), &mut seed);
    assert_plain(&rt, rt.alloc(), 0, Tree, id, &entries, &questions);
}

/// 200 questions of any inputs.
#[test]
fn a_straw2_bucket_of_the_most_items_picks_as_its_plain_form(rt: HostRuntime) {
    let mut seed = 2_030;
    let id = random_id(&mut seed);
    let entries = random_entries(rt.alloc(), &mut seed, MOST, false).expect(&rt, "error");
    let questions = any_questions(&rt, rt.alloc(), &mut seed);
    assert_plain(&rt, rt.alloc(), 0, Straw2, id, &entries, &questions);
}

/// Devices 0 to 2 in buckets -2 and -3, which are in -1; -4 is empty.
const SMALL: Short<'static> = Short {
    types: &[(0, "osd"), (1, "host")],
    devices: &[(0, "osd.0"), (1, "osd.1"), (2, "osd.2")],
    buckets: &[
        (-2, "b-2", 1, List, &[(0, ONE), (1, ONE)]),
        (-3, "b-3", 1, Tree, &[(2, ONE)]),
        (-1, "b-1", 1, Uniform, &[(-2, ONE), (-3, ONE)]),
        (-4, "b-4", 1, List, &[]),
    ],
    ..SOUND
};

/// Asserts that the tables of the small map are what its draft says.
fn assert_small(rt: &impl Abort, tables: &Tables) {
    assert!(rt; tables.has_device(2) && !tables.has_device(3));
    assert!(rt; tables.bucket_of(ItemId(-5)).is_none() && tables.bucket_of(ItemId(2)).is_none());
    assert_same(rt, &tables.tunables().total_tries, &50);
    let (Some(root), Some(list), Some(empty)) = (
        tables.bucket_of(ItemId(-1)),
        tables.bucket_of(ItemId(-2)),
        tables.bucket_of(ItemId(-4)),
    ) else {
        return rt.abort();
    };
    assert!(rt; tables.is_empty(empty) && empty.place() == 3);
    assert_same(rt, &tables.type_of(root), &1);
    assert_same(rt, &[tables.size(root), root.place()], &[2, 2]);
    assert!(rt; tables.kind(root) == Uniform && !tables.is_empty(root));
    assert!(rt; list.place() == 0 && !tables.is_empty(list));
}

/// Asserts that the tables, with a scratch, pick what the plain forms pick.
fn assert_picks(
    rt: &impl Abort,
    alloc: Global,
    tables: &Tables,
    scratch: &mut Scratch,
) -> Result<(), AllocError>
    requires fits { scratch.old ≡ scratch_of tables.now }
{
    let (Some(root), Some(list)) = (tables.bucket_of(ItemId(-1)), tables.bucket_of(ItemId(-2)))
    else {
        return rt.abort();
    };
    assert!(rt; !tables.is_empty(root) && !tables.is_empty(list));
    let hosts = [(ItemId(-2), Weight(ONE)), (ItemId(-3), Weight(ONE))];
    let host = tables.pick(root, scratch, 7, 3);
    assert_same(rt, &host, &plain::uniform(alloc, ItemId(-1), &hosts, 7, 3)?);
    let devices = [(ItemId(0), Weight(ONE)), (ItemId(1), Weight(ONE))];
    let device = tables.pick(list, scratch, 7, 3);
    assert_same(rt, &device, &plain::list(ItemId(-2), &devices, 7, 3));
    let Some(below) = tables.bucket_of(host) else {
        return rt.abort();
    };
    assert!(rt; below.place() < 2 && !tables.is_empty(below));
    let device = tables.pick(below, scratch, 7, 3);
    assert!(rt; 0 <= device.0 && device.0 < 3);
    Ok(())
}

fn assert_tables(rt: &impl Abort, alloc: Global) -> Result<(), AllocError> {
    let Ok(map) = CrushMap::check(alloc, draft(alloc, SMALL)?)? else {
        return rt.abort();
    };
    let tables = Tables::build(alloc, &map)?;
    let mut scratch = Scratch::build(alloc, &tables)?;
    assert_small(rt, &tables);
    assert_picks(rt, alloc, &tables, &mut scratch)
}

/// Where one allocation fails, whichever it is, the next try succeeds and answers as ever.
#[test]
fn tables_of_a_map_are_asked_and_built_at_the_next_try(rt: HostRuntime) {
    let alloc = rt.alloc();
    let first = assert_tables(&rt, alloc);
    assert!(rt; first.is_ok() || assert_tables(&rt, alloc).is_ok());
}
