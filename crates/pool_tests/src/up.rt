//! Which devices are up.

use crate::same::assert_same_at;
use crate::states::{DOWN_0, DOWN_1};
use crush_pool::{DeviceState, DeviceStates};
use std::alloc::AllocError;

/// Some states; the device 1 has two of them.
const STATES: &[DeviceState] = &[
    DOWN_1,
    DeviceState { up: true, ..DOWN_1 },
    DeviceState {
        device: 3,
        reweight: 0,
        up: true,
    },
    DeviceState {
        device: 65_535,
        ..DOWN_0
    },
    DeviceState {
        device: 65_536,
        ..DOWN_0
    },
];

/// The devices, and whether they are up: the first state counts, and what has none is up, as is an
/// id that no device can have.
const UP: &[(u32, bool)] = &[
    (0, true),
    (1, false),
    (2, true),
    (3, true),
    (65_534, true),
    (65_535, false),
    (65_536, true),
    (4_294_967_295, true),
];

#[test]
fn the_first_state_of_a_device_counts(rt: HostRuntime) -> Result<(), AllocError> {
    let states = DeviceStates::build(rt.alloc(), STATES)?;
    for (device, up) in UP {
        assert_same_at(&rt, [u64::from(*device), 0], &states.is_up(*device), up);
    }
    Ok(())
}

#[test]
fn devices_without_states_are_up(rt: HostRuntime) -> Result<(), AllocError> {
    let states = DeviceStates::build(rt.alloc(), &[])?;
    assert!(rt; states.is_up(0));
    assert!(rt; states.is_up(65_535));
    Ok(())
}
