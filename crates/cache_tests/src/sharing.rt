//! Placements that are kept are shared, and not made anew.

use crate::asking::{Answer, Asked, FIRST, How, LONG, ask, assert_placed, cache_for, is_one};
use crate::same::assert_same;
use crush_choose::Slot;
use crush_map::ItemId;
use crush_pool::{Pair, PoolFault};
use std::process::Abort;

/// What is asked after the placement that is kept: how, and of which group.
const AGAIN: &[(How, u32)] = &[
    (How::ByContent, 3),
    (How::ByNumber(0), 3),
    (How::ByNumber(255), 3),
    (How::ByContent, 3),
];

#[test]
fn a_group_that_is_asked_again_is_not_placed_again(rt: HostRuntime) {
    let alloc = rt.alloc();
    let mut cache = cache_for(&rt, alloc, 2);
    let first = ask(&rt, alloc, &mut cache, &LONG, 3, How::ByContent);
    assert_placed(&rt, &first, 4, 0, true);
    for (how, group) in AGAIN {
        let again = ask(&rt, alloc, &mut cache, &LONG, *group, *how);
        assert!(rt; is_one(&rt, &first, &again));
        assert_same(&rt, &again.1, &first.1);
    }
}

/// Where the map's text is short a group is kept when it is asked a second time.
#[test]
fn by_a_short_text_a_group_is_placed_twice(rt: HostRuntime) {
    let alloc = rt.alloc();
    for how in [How::ByContent, How::ByNumber(0)] {
        let mut cache = cache_for(&rt, alloc, 16);
        let first = ask(&rt, alloc, &mut cache, &FIRST, 3, how);
        let other = ask(&rt, alloc, &mut cache, &FIRST, 4, how);
        let second = ask(&rt, alloc, &mut cache, &FIRST, 3, how);
        assert!(rt; !is_one(&rt, &first, &second));
        assert_placed(&rt, &first, 4, 0, true);
        assert_placed(&rt, &other, 5, 0, true);
        assert_placed(&rt, &second, 4, 0, true);
        for (how, group) in AGAIN {
            let again = ask(&rt, alloc, &mut cache, &FIRST, *group, *how);
            assert!(rt; is_one(&rt, &second, &again));
            assert_same(&rt, &again.1, &first.1);
        }
    }
}

/// The group that was asked least recently makes room, and is placed again.
#[test]
fn a_cache_for_one_placement_keeps_the_last(rt: HostRuntime) {
    let alloc = rt.alloc();
    let mut cache = cache_for(&rt, alloc, 1);
    let first = ask(&rt, alloc, &mut cache, &LONG, 3, How::ByContent);
    let other = ask(&rt, alloc, &mut cache, &LONG, 4, How::ByContent);
    let again = ask(&rt, alloc, &mut cache, &LONG, 3, How::ByContent);
    let last = ask(&rt, alloc, &mut cache, &LONG, 3, How::ByNumber(0));
    assert!(rt; !is_one(&rt, &first, &again));
    assert!(rt; is_one(&rt, &again, &last));
    assert_placed(&rt, &first, 4, 0, true);
    assert_placed(&rt, &again, 4, 0, true);
    assert_placed(&rt, &last, 4, 0, true);
    assert_placed(&rt, &other, 5, 0, true);
}

/// What differs from the first, and where the device then is: its id, the seed of the group 3, and
/// whether the device is up.
const DIFFERENT: &[(Asked, u32, u32, bool)] = &[
    (Asked { device: 7, ..LONG }, 7, 4, true),
    (
        Asked {
            state: Some((65_536, false)),
            ..LONG
        },
        0,
        4,
        false,
    ),
    (
        Asked {
            state: Some((65_536, true)),
            ..LONG
        },
        0,
        4,
        true,
    ),
    (Asked { pool: 2, ..LONG }, 0, 5, true),
    (
        Asked {
            name: "other",
            ..LONG
        },
        0,
        4,
        true,
    ),
    (
        Asked {
            erasure: true,
            ..LONG
        },
        0,
        4,
        true,
    ),
];

#[test]
fn another_map_state_or_pool_is_another_content(rt: HostRuntime) {
    let alloc = rt.alloc();
    let mut cache = cache_for(&rt, alloc, 16);
    let first = ask(&rt, alloc, &mut cache, &LONG, 3, How::ByContent);
    let mut number = first.1;
    for (asked, device, seed, is_up) in DIFFERENT {
        let other = ask(&rt, alloc, &mut cache, asked, 3, How::ByContent);
        assert!(rt; !is_one(&rt, &first, &other));
        assert_placed(&rt, &other, *seed, *device, *is_up);
        assert!(rt; number < other.1);
        number = other.1;
    }
    let again = ask(&rt, alloc, &mut cache, &LONG, 3, How::ByContent);
    assert!(rt; is_one(&rt, &first, &again));
}

/// The group 3 has another device than its rule answers.
const AWAY: Pair = Pair {
    group: 3,
    from: 0,
    to: 1_000,
};

/// It has a third one in the place of that.
const ON: Pair = Pair {
    group: 3,
    from: 1_000,
    to: 1_001,
};

/// Exceptions, and the device that the group 3 then has.
const EXCEPTIONS: &[(&[Pair], i32)] = &[
    (&[AWAY], 1_000),
    (&[AWAY, ON], 1_001),
    (&[ON, AWAY], 1_000),
];

/// Asserts that the up list of the group 3 has `device` alone.
fn assert_up(rt: &impl Abort, answer: &Answer, device: i32) {
    let Ok(placement) = &answer.0 else {
        return rt.abort();
    };
    let (raw, up): (Slot, Slot) = (Some(ItemId(0)), Some(ItemId(device)));
    assert_same(rt, &placement.raw.as_slice(), &[raw].as_slice());
    assert_same(rt, &placement.up.as_slice(), &[up].as_slice());
    assert_same(rt, &placement.primary, &up);
}

#[test]
fn other_exceptions_are_another_content(rt: HostRuntime) {
    let alloc = rt.alloc();
    let mut cache = cache_for(&rt, alloc, 16);
    let first = ask(&rt, alloc, &mut cache, &LONG, 3, How::ByContent);
    let mut number = first.1;
    for (pairs, device) in EXCEPTIONS {
        let asked = Asked {
            pairs: *pairs,
            ..LONG
        };
        let other = ask(&rt, alloc, &mut cache, &asked, 3, How::ByContent);
        assert!(rt; !is_one(&rt, &first, &other));
        assert_up(&rt, &other, *device);
        assert!(rt; number < other.1);
        number = other.1;
        let again = ask(&rt, alloc, &mut cache, &asked, 3, How::ByContent);
        assert!(rt; is_one(&rt, &other, &again));
        assert_same(&rt, &again.1, &number);
    }
    let again = ask(&rt, alloc, &mut cache, &LONG, 3, How::ByContent);
    assert!(rt; is_one(&rt, &first, &again));
}

/// A group past the last is refused also where the pool's last group is kept.
#[test]
fn a_group_past_the_last_is_refused(rt: HostRuntime) {
    let alloc = rt.alloc();
    let mut cache = cache_for(&rt, alloc, 2);
    let last = ask(&rt, alloc, &mut cache, &LONG, 11, How::ByContent);
    assert_placed(&rt, &last, 12, 0, true);
    for how in [How::ByContent, How::ByNumber(0)] {
        for group in [12, 13, 4_294_967_295] {
            let past = ask(&rt, alloc, &mut cache, &LONG, group, how);
            assert!(rt; matches!(past.0, Err(PoolFault::P2)));
        }
    }
}
