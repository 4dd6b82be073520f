//! Why a store of tenants did not answer.

use std::alloc::AllocError;

/// Why a call of a store, or of the tables below it, failed.
#[derive(Clone, Copy, Debug, PartialEq, Eq)]
pub enum StoreFault {
    /// An allocation failed.
    NoMemory,
    /// The store is full: there is no space on the disk, or the numbers of rows are used up.
    Full,
    /// The data isn't what this service writes, or that of no state.
    Damaged,
    /// Another fault, as of the disk below the store, which must not be used any more.
    Failed,
}

impl From<AllocError> for StoreFault {
    ghost use Rattle.std.specs.Prelude.{◌≡◌};
    ghost use Rattle.tenant_messages.specs.declared.store_fault.StoreFault.TheVariants.{NoMemory};

    ghost from_gives = { λ _ fault. fault ≡ NoMemory };

    fn from(_error: AllocError) -> StoreFault {
        StoreFault::NoMemory
    }
}
