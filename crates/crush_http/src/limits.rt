//! The limits of connections. Each is itself allowed.

/// The greatest length of a head, in bytes, with the empty lines before it.
pub const HEAD_LIMIT: usize = 8_192;

/// The greatest number of headers of a head.
pub const HEADER_LIMIT: usize = 32;

/// The greatest number of messages of a connection.
pub const MESSAGE_LIMIT: u32 = 10_000;

/// The greatest number of bytes of replies that wait to be written.
pub const HELD_LIMIT: usize = 65_536;
