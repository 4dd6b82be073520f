//! The limit of the ids of devices.

/// How many different ids a device can have: 0 to `ID_COUNT` - 1.
pub const ID_COUNT: usize = 65_536;
