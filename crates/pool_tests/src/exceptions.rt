//! Exceptions of pools: which lists of pairs are exceptions, and what they do to the placement of a
//! group.

use crate::maps::{THREE, TWO as TWO_DEVICES};
use crate::placements::{
    ALL_UP, BUCKET, CODED, Case, HASHED, OF_THREE, ONE, SHORT, TWO, ZERO, assert_placed,
};
use crate::placing::exceptions_of;
use crate::pools::{OF_TWO, Short, TWELVE, pool};
use crate::same::assert_same;
use crate::states::{DOWN_2, OUT_1};
use crush_pool::limits::PAIR_LIMIT;
use crush_pool::{DeviceState, Exceptions, Pair, PoolFault};
use std::alloc::Global;
use std::process::Abort;
use std::test::Fail;

/// A pair of the group 0.
const PAIR: Pair = Pair {
    group: 0,
    from: 0,
    to: 1,
};

/// A pair of the group 5.
macro_rules! of_5 {
    ($from:literal, $to:literal) => {
        Pair {
            group: 5,
            from: $from,
            to: $to,
        }
    };
}

// ---- placements

/// The device 0 is chosen, and the device 1 is in no bucket.
const CHOSEN: Case = Case {
    what: "a pair leads to a device that no rule chooses",
    text: TWO_DEVICES,
    pool: OF_TWO,
    pairs: &[PAIR],
    up: &[ONE],
    primary: ONE,
    ..HASHED
};

/// Of three devices the rule answers the first two.
const FIRST_TWO: Case = Case {
    what: "the second of two devices is replaced",
    text: THREE,
    pool: Short {
        size: 2,
        ..OF_THREE
    },
    pairs: &[of_5!(1, 2)],
    raw: &[ZERO, ONE],
    up: &[ZERO, TWO],
    ..ALL_UP
};

/// The same, erasure coded.
const CODED_TWO: Case = Case {
    what: "of an erasure pool the second of two devices is replaced",
    pool: Short { size: 2, ..CODED },
    ..FIRST_TWO
};

/// The device 2 is out.
const OUT_2: DeviceState = DeviceState { device: 2, ..OUT_1 };

const CASES: &[Case] = &[
    CHOSEN,
    Case {
        what: "a pair leads to a device with reweight 0",
        states: &[OUT_1],
        up: &[ZERO],
        primary: ZERO,
        ..CHOSEN
    },
    Case {
        what: "a pair leads back",
        pairs: &[
            PAIR,
            Pair {
                group: 0,
                from: 1,
                to: 0,
            },
        ],
        up: &[ZERO],
        primary: ZERO,
        ..CHOSEN
    },
    FIRST_TWO,
    CODED_TWO,
    Case {
        what: "pairs of other groups",
        pairs: &[
            Pair {
                group: 4,
                ..of_5!(1, 2)
            },
            Pair {
                group: 6,
                ..of_5!(0, 2)
            },
        ],
        up: &[ZERO, ONE],
        ..FIRST_TWO
    },
    Case {
        what: "a pair of the group between pairs of other groups",
        pairs: &[
            Pair {
                group: 4,
                ..of_5!(0, 2)
            },
            of_5!(1, 2),
            Pair {
                group: 6,
                ..of_5!(0, 2)
            },
        ],
        ..FIRST_TWO
    },
    Case {
        what: "two pairs, one after the other",
        pairs: &[of_5!(1, 2), of_5!(0, 1)],
        up: &[ONE, TWO],
        primary: ONE,
        ..FIRST_TWO
    },
    Case {
        what: "two pairs in the other order",
        pairs: &[of_5!(0, 1), of_5!(1, 2)],
        ..FIRST_TWO
    },
    Case {
        what: "a pair from a device that isn't in the list",
        pool: TWELVE,
        pairs: &[of_5!(1, 2)],
        raw: &[ZERO],
        up: &[ZERO],
        ..FIRST_TWO
    },
    Case {
        what: "a pair to a device that is in the list",
        pairs: &[of_5!(1, 0)],
        up: &[ZERO, ONE],
        ..FIRST_TWO
    },
    Case {
        what: "a pair to a device that an earlier one put into the list",
        pairs: &[of_5!(0, 2), of_5!(1, 2)],
        up: &[TWO, ONE],
        primary: TWO,
        ..FIRST_TWO
    },
    Case {
        what: "a pair to what is no device of the map",
        pairs: &[of_5!(1, 3), of_5!(0, 65_535)],
        up: &[ZERO, ONE],
        ..FIRST_TWO
    },
    Case {
        what: "a pair to a device that is out",
        states: &[OUT_2],
        up: &[ZERO, ONE],
        ..FIRST_TWO
    },
    Case {
        what: "a pair to a device that is down",
        states: &[DOWN_2],
        pairs: &[of_5!(0, 2)],
        up: &[ONE],
        primary: ONE,
        ..FIRST_TWO
    },
    Case {
        what: "of an erasure pool, a pair to a device that is down",
        states: &[DOWN_2],
        pairs: &[of_5!(0, 2)],
        up: &[None, ONE],
        primary: ONE,
        ..CODED_TWO
    },
    Case {
        what: "of a device that stands twice the first is replaced",
        pool: Short {
            rule: 3,
            ..OF_THREE
        },
        raw: &[ONE, ONE],
        up: &[TWO, ONE],
        primary: TWO,
        ..FIRST_TWO
    },
    Case {
        what: "a bucket stays in its place",
        pairs: &[of_5!(2, 0)],
        up: &[ZERO],
        primary: ZERO,
        ..BUCKET
    },
    Case {
        what: "none stays in its place",
        pairs: &[of_5!(0, 2)],
        up: &[TWO, None],
        primary: TWO,
        ..SHORT
    },
];

#[test]
fn groups_are_placed_with_their_exceptions(rt: HostRuntime) -> Result<(), Fail> {
    for case in CASES {
        assert_placed(&rt, rt.alloc(), case)?;
    }
    Ok(())
}

// ---- lists of pairs

/// Asserts that `pairs` are exceptions of a pool of twelve groups, or are none, as `valid` says.
fn assert_valid(rt: &impl Abort, alloc: Global, pairs: &[Pair], valid: bool) -> Result<(), Fail> {
    let pool = pool(alloc, TWELVE)?;
    let mut list = Vec::new(alloc);
    list.extend_from_slice(pairs)?;
    match Exceptions::new(alloc, &pool, list)? {
        Ok(exceptions) => {
            assert!(rt; valid);
            assert_same(rt, &exceptions.pairs(), &pairs);
        }
        Err(fault) => {
            assert!(rt; !valid);
            assert_same(rt, &fault, &PoolFault::P3);
        }
    }
    Ok(())
}

#[test]
fn pairs_have_a_group_of_the_pool_and_two_ids(rt: HostRuntime) -> Result<(), Fail> {
    for (pair, valid) in [
        (PAIR, true),
        (Pair { group: 11, ..PAIR }, true),
        (Pair { group: 12, ..PAIR }, false),
        (of_5!(0, 65_535), true),
        (of_5!(65_535, 0), true),
        (of_5!(0, 65_536), false),
        (of_5!(65_536, 0), false),
        (of_5!(7, 7), false),
    ] {
        assert_valid(&rt, rt.alloc(), &[pair], valid)?;
        assert_valid(&rt, rt.alloc(), &[PAIR, pair], valid)?;
        assert_valid(&rt, rt.alloc(), &[pair, PAIR], valid)?;
    }
    Ok(())
}

#[test]
fn at_most_1024_pairs_are_exceptions(rt: HostRuntime) -> Result<(), Fail> {
    let many = [PAIR; PAIR_LIMIT + 1];
    assert_valid(&rt, rt.alloc(), &[], true)?;
    assert_valid(&rt, rt.alloc(), &many[1..], true)?;
    assert_valid(&rt, rt.alloc(), &many, false)?;
    Ok(())
}

/// Asserts that the exceptions concern two groups: 5, which they lead to 9, and 0, to 1.
fn assert_known(rt: &impl Abort, exceptions: &Exceptions) {
    for group in 0..13 {
        assert_same(rt, &exceptions.concern(group), &(group == 0 || group == 5));
        assert_same(rt, &exceptions.lead_to(group, 9), &(group == 5));
        assert_same(rt, &exceptions.lead_to(group, 1), &(group == 0));
        assert!(rt; !exceptions.lead_to(group, 3));
    }
    assert!(rt; !exceptions.concern(65_536));
}

#[test]
fn exceptions_know_their_groups_and_where_they_lead(rt: HostRuntime) -> Result<(), Fail> {
    let alloc = rt.alloc();
    let pool = pool(alloc, TWELVE)?;
    let exceptions = exceptions_of(alloc, &pool, &[of_5!(3, 9), PAIR])?;
    assert_known(&rt, &exceptions);
    let none = Exceptions::none(alloc)?;
    assert!(rt; none.pairs().is_empty());
    assert!(rt; !none.concern(0));
    Ok(())
}
