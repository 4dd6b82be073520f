//! Rules that run on maps of drafts, and what Ceph 16's `crush_do_rule` answers.

ghost use Rattle.std.specs.Prelude.{◌≡◌, ◌≤◌};
ghost use Rattle.crush_bucket.specs.Tables.{scratch_of, tables_of};
ghost use Rattle.crush_choose.specs.Rules.{CanRun};

use crate::drafts::{JEWEL, ONE, SOUND, Short, bucket, choose, draft, generated, map_of};
use crate::same::{assert_same, assert_same_at};
use Kind::{List, Straw2, Tree, Uniform};
use crush_bucket::{Scratch, Tables};
use crush_choose::limits::SIZE_LIMIT;
use crush_choose::{Out, Slot, Weights, is_in, laws, run_rule};
use crush_map::{Bucket, CrushMap, ItemId, Kind, MapDraft, Rule, Sequence, Step, Tunables};
use std::alloc::{AllocError, Global};
use std::process::Abort;
use std::test::Fail;

pub(crate) const LEGACY: Tunables = Tunables {
    total_tries: 19,
    descend_once: 0,
    vary_r: 0,
    stable: 0,
};

pub(crate) const TAKE: Step = Step::Take(ItemId(-1));

/// The expected answer and trace of each input, where they are the same.
pub(crate) type Expected<'a> = Option<(&'a [Slot], &'a [u32])>;

/// Runs a rule for inputs from 0 on, and folds all answers.
fn ask_all(
    rt: &impl Abort,
    tables: &Tables,
    scratch: &mut Scratch,
    rule: &Rule,
    size: u32,
    weights: &Weights,
    out: &mut Out,
    inputs: u32,
    expected: Expected<'_>,
) -> u64
    requires rule { CanRun tables.now rule.now }
    requires fits { scratch.old ≡ scratch_of tables.now }
    requires some { 1 ≤ size }
    requires few { size ≤ SIZE_LIMIT }
{
    let mut sum: u64 = 0;
    'inputs: for x in 0..inputs {
        run_rule(tables, scratch, rule, x, size, weights, out);
        sum = folded(sum, out.items());
        if let Some((items, trace)) = expected {
            assert_same_at(rt, [u64::from(x), 0], &out.items(), &items);
            assert_same_at(rt, [u64::from(x), 1], &out.trace(), &trace);
        }
    }
    sum
}

/// Returns the one rule of a map.
pub(crate) fn rule_of<'a>(rt: &impl Abort, map: &'a CrushMap) -> &'a Rule
    ensures { CanRun (tables_of map.now) result.now }
{
    let rules = map.rules();
    assert!(rt; rules.len() == 1);
    laws::rules_of_a_map_can_run();
    &rules[0]
}

/// Runs the rule of a map, and folds its answers.
pub(crate) fn ask(
    rt: &impl Abort,
    alloc: Global,
    draft: MapDraft,
    given: &[(u32, u32)],
    size: u32,
    inputs: u32,
    expected: Expected<'_>,
) -> Result<u64, Fail> {
    assert!(rt; 1 <= size && size <= SIZE_LIMIT as u32);
    let map = map_of(alloc, draft)?;
    let tables = Tables::build(alloc, &map)?;
    let mut scratch = Scratch::build(alloc, &tables)?;
    let weights = Weights::build(alloc, &map, given)?;
    let mut out = Out::build(alloc)?;
    Ok(ask_all(
        rt,
        &tables,
        &mut scratch,
        rule_of(rt, &map),
        size,
        &weights,
        &mut out,
        inputs,
        expected,
    ))
}

fn folded(sum: u64, items: &[Slot]) -> u64 {
    let mut sum = sum.wrapping_mul(31).wrapping_add(items.len() as u64);
    for slot in items {
        let number = match *slot {
            Some(item) => item.word(),
            None => 0x7fff_ffff,
        };
        sum = sum.wrapping_mul(31).wrapping_add(u64::from(number));
    }
    sum
}

/// Makes the reweights `given`, on a map of the devices 0 and 3.
fn weights(alloc: Global, given: &[(u32, u32)]) -> Result<Weights, Fail> {
    let map = map_of(alloc, draft(alloc, SOUND)?)?;
    Ok(Weights::build(alloc, &map, given)?)
}

#[test]
fn a_device_is_in_from_above_its_draw(rt: HostRuntime) -> Result<(), Fail> {
    for (reweight, expected) in &[(0, false), (55_335, false), (55_336, true), (ONE, true)] {
        let weights = weights(rt.alloc(), &[(1, *reweight), (1, ONE)])?;
        assert_same(
            &rt,
            &(weights.get(0), weights.get(1), weights.get(2)),
            &(ONE, *reweight, ONE),
        );
        assert_same_at(
            &rt,
            [u64::from(*reweight), 0],
            &is_in(&weights, 0, 1),
            expected,
        );
    }
    Ok(())
}

#[test]
fn a_reweight_counts_for_an_id_that_is_no_device_of_the_map(rt: HostRuntime) -> Result<(), Fail> {
    let given = [(7, 1_000), (65_535, 5), (65_536, 9), (7, 3)];
    let weights = weights(rt.alloc(), &given)?;
    for (id, expected) in &[
        (0, ONE),
        (7, 1_000),
        (8, ONE),
        (65_535, 5),
        (65_536, ONE),
        (u32::MAX, ONE),
    ] {
        assert_same_at(&rt, [u64::from(*id), 0], &weights.get(*id), expected);
    }
    Ok(())
}

/// Makes the items of a bucket, of one weight, whose ids begin at `first` and change by `step`.
fn row(first: i32, step: i32, weight: u32) -> [(i32, u32); 4] {
    let second = first.wrapping_add(step);
    let third = second.wrapping_add(step);
    let fourth = third.wrapping_add(step);
    [
        (first, weight),
        (second, weight),
        (third, weight),
        (fourth, weight),
    ]
}

/// Makes a root of 3 racks of 4 hosts of 3 devices, with a kind for each level; ids fall from -2
/// on, and the root has -1.
pub(crate) fn three_levels(
    alloc: Global,
    kinds: [Kind; 3],
) -> Result<Sequence<Bucket>, AllocError> {
    let [of_root, of_racks, of_hosts] = kinds;
    let mut all = Vec::new(alloc);
    let mut device = 0;
    for (rack, first) in [(-6, -2), (-11, -7), (-16, -12)] {
        let hosts = row(first, -1, 3 * ONE);
        for (host, _) in hosts {
            all.push(bucket(alloc, host, 1, of_hosts, &row(device, 1, ONE)[..3])?)?;
            device = device.wrapping_add(3);
        }
        all.push(bucket(alloc, rack, 3, of_racks, &hosts)?)?;
    }
    let racks = row(-6, -5, 12 * ONE);
    all.push(bucket(alloc, -1, 10, of_root, &racks[..3])?)?;
    Ok(Sequence::new(all))
}

/// The maps that are asked with: the kinds of their levels, and tunables.
pub(crate) const MAPS: [([Kind; 3], Tunables); 6] = [
    ([Uniform, Uniform, Uniform], JEWEL),
    ([List, Tree, Uniform], JEWEL),
    ([Tree, Uniform, List], LEGACY),
    ([Uniform, List, Tree], JEWEL),
    ([Straw2, Straw2, Straw2], JEWEL),
    ([Straw2, List, Straw2], LEGACY),
];

/// Rules, the size of their answers, and for each map the answers of Ceph 16's `crush_do_rule` for
/// the inputs 0 to 255, folded: each answer's length, then its items.
const CEPH: &[(&[Step], u32, [u64; 6])] = &[
    (
        &[TAKE, choose!(true, true, 0, 1), Step::Emit],
        3,
        [
            3_807_371_863_845_160_906,
            18_048_420_480_162_125_570,
            17_536_999_028_562_930_735,
            10_816_615_174_515_526_027,
            5_010_844_985_088_824_188,
            10_817_274_557_932_030_874,
        ],
    ),
    (
        &[TAKE, choose!(false, true, 0, 1), Step::Emit],
        5,
        [
            10_637_802_400_301_965_476,
            16_721_794_470_335_731_706,
            5_483_228_420_429_574_797,
            8_327_422_269_455_782_072,
            6_723_066_646_272_189_231,
            1_847_745_543_238_163_681,
        ],
    ),
    (
        &[
            TAKE,
            choose!(true, false, 2, 3),
            choose!(true, true, 2, 1),
            Step::Emit,
        ],
        4,
        [
            1_276_963_096_394_967_040,
            1_014_626_217_314_726_295,
            9_402_257_624_218_875_910,
            17_757_232_518_577_059_376,
            11_696_602_303_180_473_907,
            6_574_477_913_600_582_284,
        ],
    ),
    (
        &[
            Step::SetLeafTries(5),
            TAKE,
            choose!(false, false, 2, 3),
            choose!(false, true, 2, 1),
            Step::Emit,
        ],
        4,
        [
            15_739_421_992_901_152_913,
            11_002_362_456_765_460_424,
            2_348_716_031_292_611_665,
            15_084_550_848_256_080_900,
            12_621_289_222_631_597_293,
            4_726_288_186_643_259_065,
        ],
    ),
    (
        &[
            Step::SetChooseTries(7),
            TAKE,
            choose!(false, false, -1, 0),
            Step::Emit,
        ],
        6,
        [
            9_855_389_870_581_490_286,
            8_311_613_070_073_344_042,
            15_204_746_254_507_233_706,
            13_979_105_725_287_320_028,
            596_836_641_283_440_923,
            7_105_628_610_550_465_560,
        ],
    ),
    (
        &[
            Step::SetStable(0),
            Step::SetVaryR(3),
            Step::SetLeafTries(2),
            Step::SetChooseTries(9),
            TAKE,
            choose!(true, true, -1, 1),
            Step::Emit,
        ],
        7,
        [
            9_907_566_081_974_016_214,
            16_726_343_070_574_783_190,
            3_670_159_996_726_261_018,
            8_270_607_647_852_297_127,
            15_533_890_943_132_612_280,
            4_780_197_633_995_699_892,
        ],
    ),
    (
        &[
            Step::Take(ItemId(-2)),
            choose!(true, false, 1, 0),
            Step::Emit,
            TAKE,
            choose!(true, false, -1, 0),
            Step::Emit,
        ],
        4,
        [
            5_113_308_959_600_421_241,
            2_499_802_041_352_248_513,
            15_521_425_309_525_994_889,
            17_432_411_674_119_360_449,
            15_786_882_971_777_810_504,
            3_951_047_493_312_607_494,
        ],
    ),
];

/// Every fifth device is out, and the one behind it half in.
const GIVEN: &[(u32, u32)] = &[
    (0, 0),
    (1, ONE / 2),
    (5, 0),
    (6, ONE / 2),
    (10, 0),
    (11, ONE / 2),
    (15, 0),
    (16, ONE / 2),
    (20, 0),
    (21, ONE / 2),
    (25, 0),
    (26, ONE / 2),
    (30, 0),
    (31, ONE / 2),
    (35, 0),
    (36, ONE / 2),
];

#[test]
fn rules_answer_as_those_of_ceph(rt: HostRuntime) -> Result<(), Fail> {
    let alloc = rt.alloc();
    for (steps, size, sums) in CEPH {
        for ((kinds, tunables), sum) in MAPS.iter().zip(sums) {
            let short = Short {
                rules: &[(0, "rule", steps)],
                tunables: *tunables,
                ..SOUND
            };
            let buckets = three_levels(alloc, *kinds)?;
            let draft = generated(alloc, short, 36, buckets)?;
            let answered = ask(&rt, alloc, draft, GIVEN, *size, 256, None)?;
            assert_same(&rt, &answered, sum);
        }
    }
    Ok(())
}
