//! The seeds of groups.

use crate::pools::{Short, TWELVE, pool};
use crate::same::assert_same_at;
use std::alloc::Global;
use std::process::Abort;
use std::test::Fail;

/// A pool's id, its pg_num and pgp_num, a group, and the seed.
type Row = (u32, u32, u32, u32, u32);

fn assert_seeds(
    rt: &impl Abort,
    alloc: Global,
    rows: &[Row],
    hashpspool: bool,
) -> Result<(), Fail> {
    for (id, pg_num, pgp_num, group, seed) in rows {
        let short = Short {
            id: *id,
            pg_num: *pg_num,
            pgp_num: *pgp_num,
            hashpspool,
            ..TWELVE
        };
        let pool = pool(alloc, short)?;
        assert_same_at(
            rt,
            [u64::from(*group), u64::from(*pg_num)],
            &pool.seed_of(*group),
            seed,
        );
    }
    Ok(())
}

/// Seeds as sums (Ceph's `raw_pg_to_pps` without `hashpspool`).
const SUMS: &[Row] = &[
    (1, 12, 12, 5, 6),
    (1, 12, 12, 8, 9),
    (1, 8, 8, 0, 1),
    (1, 12, 4, 3, 4),
    (1, 12, 4, 4, 1),
    (1, 12, 4, 11, 4),
    (1, 12, 5, 4, 5),
    (1, 12, 5, 5, 2),
    (1, 12, 5, 7, 4),
    (1, 12, 1, 11, 1),
    (2, 16, 5, 12, 6),
    (2, 16, 5, 15, 5),
    (5, 12, 9, 8, 13),
    (5, 12, 9, 11, 8),
    (2_147_483_647, 12, 7, 6, 2_147_483_653),
    (2_147_483_647, 12, 7, 7, 2_147_483_650),
    (2_147_483_647, 65_536, 65_536, 65_535, 2_147_549_182),
];

#[test]
fn seeds_are_sums_without_hashpspool(rt: HostRuntime) -> Result<(), Fail> {
    assert_seeds(&rt, rt.alloc(), SUMS, false)?;
    Ok(())
}

/// Seeds as hashes (with `hashpspool`; Ceph's `crush_hash32_2`).
const HASHES: &[Row] = &[
    (1, 8, 8, 0, 91_478_055),
    (1, 12, 4, 4, 91_478_055),
    (1, 12, 4, 11, 1_156_777_298),
    (7, 12, 5, 7, 3_481_205_559),
    (4, 12, 5, 0, 2_270_835_495),
    (4, 16, 16, 3, 30_601_400),
    (4, 16, 16, 12, 294_901_568),
    (9, 16, 13, 6, 3_408_022_694),
    (2_147_483_647, 1, 1, 0, 2_102_939_430),
];

#[test]
fn seeds_are_hashes_with_hashpspool(rt: HostRuntime) -> Result<(), Fail> {
    assert_seeds(&rt, rt.alloc(), HASHES, true)?;
    Ok(())
}
