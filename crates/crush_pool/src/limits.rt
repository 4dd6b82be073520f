//! The limits of pools, of their exceptions, and of changes of devices.
//!
//! Each limit is itself allowed. It stands here alone: the definitions import it.

/// The greatest id of a pool.
pub const POOL_ID_LIMIT: u32 = 2_147_483_647;

/// The most groups of a pool.
pub const GROUP_LIMIT: u32 = 65_536;

/// The most changes of devices in one body.
pub const CHANGE_LIMIT: usize = 1_024;

/// The most pairs in the exceptions of a pool.
pub const PAIR_LIMIT: usize = 1_024;
