//! The limits of requests for the parts of a tenant.

/// The longest name of an object, in bytes.
pub const OBJECT_NAME_LIMIT: usize = 1_024;
