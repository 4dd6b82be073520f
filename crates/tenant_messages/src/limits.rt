//! The limits of messages.

/// The longest request number, in bytes.
pub const REQUEST_NUMBER_LIMIT: usize = 64;
