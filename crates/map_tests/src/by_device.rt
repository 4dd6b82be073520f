//! A value for each id that a device can have.

use crate::same::assert_same_at;
use crush_map::DeviceVec;
use crush_map::limits::{ID_COUNT, NUMBER_LIMIT};
use std::test::Fail;

/// An id that no device can have.
const NO_ID: u32 = ID_COUNT as u32;

#[test]
fn the_first_pair_of_an_id_counts(rt: HostRuntime) -> Result<(), Fail> {
    let given: &[(u32, u32)] = &[(7, 1), (NUMBER_LIMIT, 2), (7, 3), (NO_ID, 4)];
    let table = DeviceVec::of(rt.alloc(), 9, 3, given)?;
    for (id, expected) in [
        (0, 9),
        (3, 9),
        (7, 1),
        (8, 9),
        (NUMBER_LIMIT - 1, 9),
        (NUMBER_LIMIT, 2),
        (NO_ID, 9),
        (4_294_967_295, 9),
    ] {
        assert_same_at(&rt, [u64::from(id), 0], &table.get(id), &expected);
    }
    Ok(())
}

#[test]
fn a_value_takes_the_place_of_another(rt: HostRuntime) -> Result<(), Fail> {
    let mut flags = DeviceVec::new(rt.alloc(), true, 2)?;
    for (id, flag) in [(1, false), (5, false), (1, true), (NO_ID, false)] {
        flags.set(id, flag)?;
    }
    for (id, expected) in [(0, true), (1, true), (4, true), (5, false), (6, true)] {
        assert_same_at(&rt, [u64::from(id), 0], &flags.get(id), &expected);
    }
    assert!(rt; flags.get(NO_ID));
    Ok(())
}
