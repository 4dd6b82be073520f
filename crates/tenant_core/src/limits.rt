//! The limit of calls.

/// The longest body of a call, in bytes.
pub const BODY_LIMIT: usize = 5_242_880;
