//! The groups of numbers and of objects.

use crate::pools::{Short, TWELVE, pool};
use crate::same::{assert_same_at, assert_same_in};
use crush_hash::name_hash;
use crush_pool::{mask_of, stable_mod};
use std::test::Fail;

/// Numbers of groups, each with its mask (Ceph's `pg_pool_t::calc_pg_masks`).
const MASKS: &[(u32, u32)] = &[
    (1, 0),
    (2, 1),
    (3, 3),
    (4, 3),
    (5, 7),
    (8, 7),
    (9, 15),
    (12, 15),
    (39, 63),
    (65_535, 65_535),
    (65_536, 65_535),
    (2_147_483_648, 2_147_483_647),
    (2_147_483_649, 4_294_967_295),
    (4_294_967_295, 4_294_967_295),
];

#[test]
fn masks_have_just_enough_bits(rt: HostRuntime) {
    for (b, mask) in MASKS {
        assert_same_at(&rt, [u64::from(*b), 0], &mask_of(*b), mask);
    }
}

/// A number of groups, a number, and the group that it falls into (Ceph's `ceph_stable_mod`): what
/// would be no group loses its highest bit.
const FOLDED: &[(u32, u32, u32)] = &[
    (1, 5, 0),
    (3, 2, 2),
    (3, 3, 1),
    (3, 7, 1),
    (8, 7, 7),
    (8, 8, 0),
    (12, 11, 11),
    (12, 12, 4),
    (12, 15, 7),
    (12, 16, 0),
    (12, 27, 11),
    (12, 28, 4),
    (12, 4_294_967_295, 7),
    (39, 38, 38),
    (39, 39, 7),
    (39, 63, 31),
    (39, 64, 0),
    (39, 1_000, 8),
];

#[test]
fn numbers_fall_into_their_groups(rt: HostRuntime) {
    for (b, x, group) in FOLDED {
        assert_same_at(
            &rt,
            [u64::from(*x), u64::from(*b)],
            &stable_mod(*x, *b, mask_of(*b)),
            group,
        );
    }
}

/// A name, its hash (Ceph's `ceph_str_hash_rjenkins`), a number of groups, and the group of the
/// object with that name.
const OBJECTS: &[(&str, u32, u32, u32)] = &[
    ("", 3_175_731_469, 12, 5),
    ("", 3_175_731_469, 13, 5),
    ("", 3_175_731_469, 14, 13),
    ("", 3_175_731_469, 53_517, 20_749),
    ("", 3_175_731_469, 53_518, 53_517),
    ("", 3_175_731_469, 65_536, 53_517),
    ("a", 703_514_648, 1, 0),
    ("a", 703_514_648, 12, 8),
    ("a", 703_514_648, 39, 24),
    ("object.97", 1_941_674_786, 8, 2),
    ("object.63", 1_034_555_641, 16, 9),
    (
        "rbd_data.1234567890ab.0000000000000001",
        1_307_808_754,
        12,
        2,
    ),
];

#[test]
fn objects_have_the_groups_of_their_hashes(rt: HostRuntime) -> Result<(), Fail> {
    for (name, hash, pg_num, group) in OBJECTS {
        let short = Short {
            pg_num: *pg_num,
            pgp_num: 1,
            ..TWELVE
        };
        let pool = pool(rt.alloc(), short)?;
        assert_same_in(&rt, name, &name_hash(name.as_bytes()), hash);
        assert_same_in(&rt, name, &pool.group_of(name.as_bytes()), group);
        assert_same_in(&rt, name, &pool.group_of_hash(*hash), group);
    }
    Ok(())
}
