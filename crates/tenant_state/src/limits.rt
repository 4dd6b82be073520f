//! The limits of a tenant's state. A number equal to its limit is allowed.

/// The most versions of a tenant's map.
pub const VERSION_LIMIT: usize = 256;

/// The most pools of a tenant.
pub const POOL_LIMIT: usize = 256;

/// The most receipts of a tenant, one for each accepted change.
pub const RECEIPT_LIMIT: usize = 100_000;
