//! The limit of scripts, which is itself allowed.

/// The greatest length of a script, in bytes.
pub const SCRIPT_LIMIT: u32 = 67_108_864;
