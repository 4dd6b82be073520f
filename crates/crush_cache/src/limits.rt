//! The limits of a cache.
//!
//! Each is itself allowed. They stand here alone: the definitions import them.

/// The most contents whose placements are kept at once.
pub const CONTENT_LIMIT: usize = 256;

/// The most of them that have a long text. A text has up to 4 MiB, so that these take up to 256
/// MiB, also when the tenants that they were asked for are gone.
pub const LONG_LIMIT: usize = 64;
