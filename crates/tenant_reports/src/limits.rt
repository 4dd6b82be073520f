//! The limit of a pick.

/// The greatest attempt `r` of a pick.
pub const ATTEMPT_LIMIT: u32 = 2_147_483_647;
