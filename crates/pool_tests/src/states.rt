//! States of devices.

use crush_pool::DeviceState;

/// The device 0, which is down.
pub const DOWN_0: DeviceState = DeviceState {
    device: 0,
    reweight: 65_536,
    up: false,
};

/// The device 1, which is down.
pub const DOWN_1: DeviceState = DeviceState {
    device: 1,
    ..DOWN_0
};

/// The device 2, which is down.
pub const DOWN_2: DeviceState = DeviceState {
    device: 2,
    ..DOWN_0
};

/// The device 1 is out and up.
pub const OUT_1: DeviceState = DeviceState {
    device: 1,
    reweight: 0,
    up: true,
};
