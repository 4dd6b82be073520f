//! The limit of a map's text.

/// The most bytes of a text that is imported. A longer one is refused before it is read.
pub const TEXT_LIMIT: usize = 4_194_304;
