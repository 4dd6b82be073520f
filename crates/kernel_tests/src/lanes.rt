//! Eight hashes at a time, and four.

use crate::buckets::next;
use crate::same::assert_same;
use crush_hash::{hash3, hash3_each, hash3_lanes, hash4, hash4_each, hash4_lanes};
use std::process::Abort;

/// Each lane is the hash of its item; in the third lane it is what Ceph 16's `crush_hash32_4`
/// answers.
#[test]
fn lanes_hash_as_one_by_one(rt: HostRuntime) {
    let hashes = hash4_lanes(1, &[0, 1, 2, 3, 4, 5, 6, 7], 3, 4);
    assert_same(&rt, &hashes[2], &1_768_759_062);
    let mut seed = 2_026;
    for _ in 0..1_000 {
        let (x, r, id) = (next(&mut seed), next(&mut seed), next(&mut seed));
        let mut items = [0; 8];
        for lane in 0..8 {
            items[lane] = next(&mut seed).wrapping_mul(next(&mut seed));
        }
        let hashes = hash4_lanes(x, &items, r, id);
        for lane in 0..8 {
            assert_same(&rt, &hashes[lane], &hash4(x, items[lane], r, id));
        }
    }
}

/// Each lane is the hash of its place; in the last lane it is what Ceph 16's `crush_hash32_3`
/// answers.
#[test]
fn places_hash_as_one_by_one(rt: HostRuntime) {
    assert_same(&rt, &hash3_lanes(1, 2, &[0, 1, 2, 3])[3], &1_935_332_395);
    let mut seed = 2_028;
    for _ in 0..1_000 {
        let (x, id) = (next(&mut seed), next(&mut seed));
        let mut places = [0; 4];
        for lane in 0..4 {
            places[lane] = next(&mut seed).wrapping_mul(next(&mut seed));
        }
        let hashes = hash3_lanes(x, id, &places);
        for lane in 0..4 {
            assert_same(&rt, &hashes[lane], &hash3(x, id, places[lane]));
        }
    }
}

fn eight_words(seed: &mut u64) -> [u32; 8] {
    let mut words = [0; 8];
    for lane in 0..8 {
        words[lane] = next(seed).wrapping_mul(next(seed));
    }
    words
}

/// Each lane is its own hash where all words differ; in the second lane it is what Ceph answers.
#[test]
fn each_lane_hashes_its_own_words(rt: HostRuntime) {
    let one = [0, 1, 0, 0, 0, 0, 0, 0];
    let (two, three) = ([7, 2, 7, 7, 7, 7, 7, 7], [9, 3, 9, 9, 9, 9, 9, 9]);
    assert_same(&rt, &hash3_each(&one, &two, &three)[1], &1_935_332_395);
    assert_same(
        &rt,
        &hash4_each(&one, &two, &three, &[4; 8])[1],
        &1_768_759_062,
    );
    let mut seed = 2_030;
    for _ in 0..500 {
        let (a, b) = (eight_words(&mut seed), eight_words(&mut seed));
        let (c, d) = (eight_words(&mut seed), eight_words(&mut seed));
        let (of_three, of_four) = (hash3_each(&a, &b, &c), hash4_each(&a, &b, &c, &d));
        for lane in 0..8 {
            assert_same(&rt, &of_three[lane], &hash3(a[lane], b[lane], c[lane]));
            assert_same(
                &rt,
                &of_four[lane],
                &hash4(a[lane], b[lane], c[lane], d[lane]),
            );
        }
    }
}
